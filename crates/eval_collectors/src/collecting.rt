//! Collectors, as statements and as the function `realize` makes them.
ghost use Rattle.std.specs.Prelude.{◌≡◌, Some, IfOk};
ghost use Rattle.eval_collectors.specs.Collectors as spec;
ghost use Rattle.eval_world.specs.Nests.{Nests};
ghost use Rattle.eval_world.specs.Outcomes.{Gives, nothing, same};
ghost use Rattle.pp_tree.specs.Names.{normal};
ghost use Rattle.pp_values.specs.Kinds.{kind_of};

use crate::queries::query;
use attribute_lines::lines;
use eval_world::{Evaluated, Forms, Goal, Here, Meaning, World};
use pp_tree::{Collector as Written, DefinitionName, Query as WrittenQuery};
use pp_values::{Kind, Memory, Reference, Stop, Subject, Text, What};
use res_book::Collector;
use res_core::{Lines, Query, QueryBox};
use std::alloc::Global;

/// How many queries may stand within one another: as many as levels of syntax, so that no text has more.
pub const QUERY_LEVELS: u32 = 200;

/// `File <| tag == 'a' |> { mode => '0644' }`: it is registered behind the others.
#[tactic(auto, unfolding(crate::specs::Collectors::collector_rule))]
pub fn collector<F: Fn(&mut World<'_>, Goal<'_>, Here, u32) -> Result<Evaluated, Stop>, M: Meaning>(
    forms: &Forms<F, M>,
    world: &mut World<'_>,
    written: &Written,
    here: Here,
) -> Result<(), Stop>
    requires { Nests (M.within forms.now.left) forms.now.left (F.pre forms.now.inner) (F.post forms.now.inner) }
    ensures { Gives nothing
        (spec.collector_rule (M.within forms.now.left) written.now here world.old) result world.new }
{
    let query = asked(forms, world, &written.query, written.at, here)?;
    let done = Lines::new(world.heap.alloc());
    let lines = lines(forms, world, done, &written.attributes, here)?;
    let kind = collected_kind(world, &written.kind, written.at, here)?;
    register_kind(
        world,
        kind,
        query,
        lines,
        written.exported,
        written.at,
        here,
    )
}

/// What it asks for.
fn asked<F: Fn(&mut World<'_>, Goal<'_>, Here, u32) -> Result<Evaluated, Stop>, M: Meaning>(
    forms: &Forms<F, M>,
    world: &mut World<'_>,
    written: &Option<WrittenQuery>,
    line: u32,
    here: Here,
) -> Result<QueryBox, Stop>
    requires { Nests (M.within forms.now.left) forms.now.left (F.pre forms.now.inner) (F.post forms.now.inner) }
    ensures { Gives same (spec.asked (M.within forms.now.left) written.now line here world.old) result world.new }
{
    match written {
        None => Ok(QueryBox::new(world.heap.alloc(), Query::All)?),
        Some(written) => {
            let query = query(forms, world, QUERY_LEVELS, written, line, here)?;
            Ok(QueryBox::new(world.heap.alloc(), query)?)
        }
    }
}

/// The kind that is collected: not that of classes.
#[tactic(auto, unfolding(crate::specs::Collectors::kind_rule))]
fn collected_kind(world: &World<'_>, written: &Text, line: u32, here: Here) -> Result<Kind, Stop>
    ensures { Gives same (spec.kind_rule written.now line here world.now) result world.now }
{
    match normal_kind(world.heap.alloc(), written)? {
        None => Err(Stop::Fault(world.fault(here, line, What::Syntax)?)),
        Some(kind) => other_than_class(world, kind, line, here),
    }
}

fn other_than_class(world: &World<'_>, kind: Kind, line: u32, here: Here) -> Result<Kind, Stop>
    ensures { Gives same (spec.kind_by (Some kind) line here world.now) result world.now }
{
    if kind.is("class") {
        let what = What::ClassVirtual(Subject::Kind(kind));
        return Err(Stop::Fault(world.fault(here, line, what)?));
    }
    Ok(kind)
}

/// The kind of this written name, in lower case without a leading `::`.
fn normal_kind(alloc: Global, written: &Text) -> Result<Option<Kind>, Memory>
    ensures { IfOk result (λ k. k ≡ kind_of (normal written.now)) }
{
    match DefinitionName::code(alloc, written)? {
        DefinitionName::Code(name) => Ok(Kind::from_text(name)),
        DefinitionName::Function(_) | DefinitionName::Node(_) => Ok(None),
    }
}

#[tactic(auto, unfolding(crate::specs::Collectors::register_kind))]
fn register_kind(
    world: &mut World<'_>,
    kind: Kind,
    query: QueryBox,
    lines: Lines,
    exported: bool,
    line: u32,
    here: Here,
) -> Result<(), Stop>
    ensures { Gives nothing
        (spec.register_kind kind query lines exported line here world.old) result world.new }
{
    let at = world.place(here, line)?;
    register(
        world,
        Collector {
            kind,
            query,
            at,
            owner: here.owner,
            exported,
            lines,
            realized: None,
        },
    )
}

/// Puts a collector behind the others.
#[tactic(auto, unfolding(crate::specs::Collectors::register))]
fn register(world: &mut World<'_>, collector: Collector) -> Result<(), Stop>
    ensures { Gives nothing (spec.register collector world.old) result world.new }
{
    world.relations.add_collector(collector)?;
    Ok(())
}

/// What the function `realize` does with one reference: a collector of that one resource is registered.
#[tactic(auto, unfolding(crate::specs::Collectors::realize_rule))]
pub fn realize(
    world: &mut World<'_>,
    reference: &Reference,
    line: u32,
    here: Here,
) -> Result<(), Stop>
    ensures { Gives nothing (spec.realize_rule reference.now line here world.old) result world.new }
{
    if reference.kind.is("class") {
        let subject = Subject::Reference(reference.copy(world.heap.alloc())?);
        return Err(Stop::Fault(world.fault(here, line, What::ClassVirtual(subject))?));
    }
    register_reference(world, reference, line, here)
}

#[tactic(auto, unfolding(crate::specs::Collectors::register_reference))]
fn register_reference(
    world: &mut World<'_>,
    reference: &Reference,
    line: u32,
    here: Here,
) -> Result<(), Stop>
    ensures { Gives nothing (spec.register_reference reference.now line here world.old) result world.new }
{
    let kind = reference.kind.copy(world.heap.alloc())?;
    let realized = Some(reference.copy(world.heap.alloc())?);
    let query = QueryBox::new(world.heap.alloc(), Query::All)?;
    let lines = Lines::new(world.heap.alloc());
    let at = world.place(here, line)?;
    register(
        world,
        Collector {
            kind,
            query,
            at,
            owner: here.owner,
            exported: false,
            lines,
            realized,
        },
    )
}
