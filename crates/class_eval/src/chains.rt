//! Chains with arrows.
ghost use Rattle.std.specs.Prelude.{◌≡◌, [], Some, IfOk};
ghost use Rattle.class_eval.specs.Chains as spec;
ghost use Rattle.eval_world.specs.Nests.{Nests};
ghost use Rattle.eval_world.specs.Outcomes.{Gives, nothing, same};
ghost use Rattle.eval_world.specs.Worlds.{place_at};
ghost use Rattle.pp_funcs.specs.Lists.{behind};
ghost use Rattle.pp_values.specs.Faults.{fault};
ghost use Rattle.pp_values.specs.Views.{view};
ghost use Rattle.pp_values.specs.declared.fault.Stop.TheVariants as stop;
ghost use Rattle.pp_values.specs.declared.fault.What.TheVariants as what;

use crate::chain_end::End;
use eval_classes::flattened;
use eval_collectors::collector;
use eval_overrides::{defaults_of, override_of};
use eval_resources::operands;
use eval_world::{Evaluated, Forms, Goal, Here, Meaning, World};
use pp_tree::{Arrow, Link, Operand as Written};
use pp_values::{Memory, Place, Stop, Text, Value, What};
use res_book::RelationLine;
use res_core::{Operand, Operands};
use std::alloc::Global;

/// Evaluates the operands of a chain in their order, and then relates them.
#[tactic(auto, unfolding(crate::specs::Chains::links_rule))]
pub fn relate_chain<
    F: Fn(&mut World<'_>, Goal<'_>, Here, u32) -> Result<Evaluated, Stop>,
    M: Meaning,
>(
    forms: &Forms<F, M>,
    world: &mut World<'_>,
    first: &Written,
    links: &[Link],
    line: u32,
    here: Here,
) -> Result<(), Stop>
    requires { Nests (M.within forms.now.left) forms.now.left (F.pre forms.now.inner) (F.post forms.now.inner) }
    ensures { Gives nothing (spec.links_rule (M.within forms.now.left) first.now links.now line here world.old) result
        world.new }
{
    let left = related(forms, world, first, line, here)?;
    let ends = ends(forms, world, links, line, here)?;
    relate_all(world, left, ends, line, here)
}

/// What an operand stands for; `None` where it is nothing that can be related.
#[tactic(auto, unfolding(crate::specs::Chains::related_rule))]
fn related<F: Fn(&mut World<'_>, Goal<'_>, Here, u32) -> Result<Evaluated, Stop>, M: Meaning>(
    forms: &Forms<F, M>,
    world: &mut World<'_>,
    operand: &Written,
    line: u32,
    here: Here,
) -> Result<Option<Operands>, Stop>
    requires { Nests (M.within forms.now.left) forms.now.left (F.pre forms.now.inner) (F.post forms.now.inner) }
    ensures { Gives same (spec.related_rule (M.within forms.now.left) operand.now line here world.old) result world.new }
{
    match operand {
        Written::Expr(expr) => {
            let value = forms.value(world, expr, here)?;
            Ok(references_in(world.heap.alloc(), value.as_value())?)
        }
        Written::Resource(declared) => Ok(Some(operands(forms, world, declared.get(), here)?)),
        Written::Collector(registered) => {
            collector(forms, world, registered.get(), here)?;
            Ok(Some(last_collector(world)?))
        }
        Written::Override(written) => {
            override_of(forms, world, written.get(), here)?;
            Ok(None)
        }
        Written::Defaults(written) => {
            defaults_of(forms, world, written.get(), here)?;
            Ok(None)
        }
    }
}

/// The references that a value is, or those in a list.
fn references_in(alloc: Global, value: &Value) -> Result<Option<Operands>, Memory>
    ensures { IfOk result (λ o. o ≡ spec.references_in (view value.now)) }
{
    let found = flattened(alloc, value)?;
    references(alloc, found.as_slice())
}

#[tactic(auto, unfolding(crate::specs::Chains::references_from))]
fn references(alloc: Global, values: &[&Value]) -> Result<Option<Operands>, Memory>
    ensures { IfOk result (λ o. o ≡ spec.references_from [] (behind values.now)) }
{
    let mut done = Operands::new(alloc);
    for value in values {
        match reference_in(alloc, value)? {
            Some(reference) => done.push(reference)?,
            None => return Ok(None),
        }
    }
    Ok(Some(done))
}

fn reference_in(alloc: Global, value: &Value) -> Result<Option<Operand>, Memory>
    ensures { IfOk result (λ o. o ≡ spec.reference_in (view value.now)) }
{
    match value {
        Value::Ref(reference) => Ok(Some(Operand::One(reference.get().copy(alloc)?))),
        _ => Ok(None),
    }
}

/// The collector that was registered last.
fn last_collector(world: &World<'_>) -> Result<Operands, Memory>
    ensures { IfOk result (λ l. l ≡ spec.last_collector world.now) }
{
    let mut all = Operands::new(world.heap.alloc());
    let number = world.relations.collector_count().saturating_sub(1);
    all.push(Operand::All(number))?;
    Ok(all)
}

/// The operands behind arrows, in their order.
#[tactic(auto, unfolding(crate::specs::Chains::ends_from))]
fn ends<F: Fn(&mut World<'_>, Goal<'_>, Here, u32) -> Result<Evaluated, Stop>, M: Meaning>(
    forms: &Forms<F, M>,
    world: &mut World<'_>,
    links: &[Link],
    line: u32,
    here: Here,
) -> Result<Vec<End>, Stop>
    requires { Nests (M.within forms.now.left) forms.now.left (F.pre forms.now.inner) (F.post forms.now.inner) }
    ensures { Gives (λ v. v.items) (spec.ends_from (M.within forms.now.left) [] links.now line here world.old) result
        world.new }
{
    let mut done = Vec::with_capacity(world.heap.alloc(), links.len())?;
    let mut rest = links;
    while let Some((link, more)) = rest.split_first() {
        let operands = related(forms, world, &link.operand, line, here)?;
        done.push(End {
            arrow: link.arrow,
            operands,
        })?;
        rest = more;
    }
    Ok(done)
}

/// A relation for each arrow.
#[tactic(auto, unfolding(crate::specs::Chains::relate_from))]
fn relate_all(
    world: &mut World<'_>,
    first: Option<Operands>,
    ends: Vec<End>,
    line: u32,
    here: Here,
) -> Result<(), Stop>
    ensures { Gives nothing (spec.relate_from first ends.items line here world.old) result world.new }
{
    let mut left = first;
    for end in ends {
        left = Some(relate(world, left, end, line, here)?);
    }
    Ok(())
}

/// One arrow. The answer is what stands on its right, which the next arrow has on its left.
fn relate(
    world: &mut World<'_>,
    left: Option<Operands>,
    end: End,
    line: u32,
    here: Here,
) -> Result<Operands, Stop>
    ensures { Gives same (spec.relate_by left end.arrow end.operands line here world.old) result world.new }
{
    match (left, end.operands) {
        (Some(left), Some(right)) => put_relation(world, left, end.arrow, right, line, here),
        (_, _) => Err(unrelated(world, end.arrow, line, here)?),
    }
}

fn unrelated(world: &World<'_>, arrow: Arrow, line: u32, here: Here) -> Result<Stop, Memory>
    ensures { IfOk result (λ s. s ≡ stop.Fault (fault (place_at world.now here line)
        (what.BadOperand (spec.arrow_text arrow)))) }
{
    let operator = Text::from_str(world.heap.alloc(), arrow_text(arrow))?;
    Ok(Stop::Fault(world.fault(here, line, What::BadOperand(operator))?))
}

fn arrow_text(arrow: Arrow) -> &'static str
    ensures { result.now ≡ spec.arrow_text arrow }
{
    match arrow {
        Arrow::InEdge => "->",
        Arrow::InEdgeSub => "~>",
        Arrow::OutEdge => "<-",
        Arrow::OutEdgeSub => "<~",
    }
}

/// Puts the relation that an arrow is.
fn put_relation(
    world: &mut World<'_>,
    left: Operands,
    arrow: Arrow,
    right: Operands,
    line: u32,
    here: Here,
) -> Result<Operands, Stop>
    ensures { Gives same (spec.relate_by (Some left) arrow (Some right) line here world.old) result world.new }
{
    let at = world.place(here, line)?;
    let next = copy_operands(world.heap.alloc(), &right)?;
    world
        .relations
        .add_line(relation_by(arrow, left, right, at))?;
    Ok(next)
}

fn relation_by(arrow: Arrow, left: Operands, right: Operands, at: Place) -> RelationLine
    ensures { result ≡ spec.relation_by arrow left right at }
{
    match arrow {
        Arrow::InEdge => relation(left, right, false, at),
        Arrow::InEdgeSub => relation(left, right, true, at),
        Arrow::OutEdge => relation(right, left, false, at),
        Arrow::OutEdgeSub => relation(right, left, true, at),
    }
}

fn relation(left: Operands, right: Operands, signal: bool, at: Place) -> RelationLine
    ensures { result ≡ spec.relation left right signal at }
{
    RelationLine {
        left,
        right,
        signal,
        at,
    }
}

fn copy_operands(alloc: Global, operands: &Operands) -> Result<Operands, Memory>
    ensures { IfOk result (λ l. l ≡ operands.now) }
{
    let mut all = Vec::with_capacity(alloc, operands.len())?;
    for operand in operands.as_slice() {
        all.push(copy_operand(alloc, operand)?)?;
    }
    Ok(Operands::from_vec(all))
}

fn copy_operand(alloc: Global, operand: &Operand) -> Result<Operand, Memory>
    ensures { IfOk result (λ o. o ≡ operand.now) }
{
    match operand {
        Operand::One(reference) => Ok(Operand::One(reference.copy(alloc)?)),
        Operand::All(number) => Ok(Operand::All(*number)),
    }
}
