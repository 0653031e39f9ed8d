//! Default statements.
ghost use Rattle.eval_overrides.specs.DefaultStatements as spec;
ghost use Rattle.eval_world.specs.Nests.{Nests};
ghost use Rattle.eval_world.specs.Outcomes.{Gives, nothing};
ghost use Rattle.res_core.specs.Lines.{line_of, lines_of};

use attribute_lines::lines;
use eval_classes::normal_name;
use eval_world::{Evaluated, Forms, Goal, Here, Meaning, World};
use pp_tree::{Attributes, Defaults};
use pp_values::{Kind, Stop, What, copy};
use res_core::{Line, Lines};

/// `File { mode => '0644' }`: defaults of the scope of the owner whose code this is.
#[tactic(auto, unfolding(crate::specs::DefaultStatements::defaults_rule))]
pub fn defaults_of<
    F: Fn(&mut World<'_>, Goal<'_>, Here, u32) -> Result<Evaluated, Stop>,
    M: Meaning,
>(forms: &Forms<F, M>, world: &mut World<'_>, written: &Defaults, here: Here) -> Result<(), Stop>
    requires { Nests (M.within forms.now.left) forms.now.left (F.pre forms.now.inner) (F.post forms.now.inner) }
    ensures { Gives nothing
        (spec.defaults_rule (M.within forms.now.left) written.now here world.old) result world.new }
{
    let kind = normal_name(world.heap.alloc(), &written.kind)?;
    match Kind::from_text(kind) {
        Some(kind) => put_lines(forms, world, &kind, &written.attributes, here),
        None => Err(Stop::Fault(world.fault(here, written.at, What::Syntax)?)),
    }
}

#[tactic(auto, unfolding(crate::specs::DefaultStatements::lines_put))]
fn put_lines<F: Fn(&mut World<'_>, Goal<'_>, Here, u32) -> Result<Evaluated, Stop>, M: Meaning>(
    forms: &Forms<F, M>,
    world: &mut World<'_>,
    kind: &Kind,
    attributes: &Attributes,
    here: Here,
) -> Result<(), Stop>
    requires { Nests (M.within forms.now.left) forms.now.left (F.pre forms.now.inner) (F.post forms.now.inner) }
    ensures { Gives nothing
        (spec.lines_put (M.within forms.now.left) kind.now attributes.now here world.old) result world.new }
{
    let none = Lines::new(world.heap.alloc());
    let lines = lines(forms, world, none, attributes, here)?;
    put_defaults(world, kind, lines.as_slice(), here)
}

#[tactic(auto, unfolding(crate::specs::DefaultStatements::defaults_put))]
fn put_defaults(world: &mut World<'_>, kind: &Kind, lines: &[Line], here: Here) -> Result<(), Stop>
    ensures { Gives nothing (spec.defaults_put kind.now (lines_of lines.now) here world.old) result world.new }
{
    let mut rest = lines;
    while let Some((line, more)) = rest.split_first() {
        put_default(world, kind, line, here)?;
        rest = more;
    }
    Ok(())
}

fn put_default(world: &mut World<'_>, kind: &Kind, line: &Line, here: Here) -> Result<(), Stop>
    ensures { Gives nothing (spec.default_put kind.now (line_of line.now) here world.old) result world.new }
{
    let alloc = world.heap.alloc();
    let scope = world.owners.get(here.owner).scope;
    let value = copy(alloc, &line.value)?;
    world
        .overrides
        .add_default(alloc, scope, kind, &line.name, value, &line.at)
}
