//! Overrides.
ghost use Rattle.std.specs.Prelude.{◌≡◌, IfOk};
ghost use Rattle.eval_overrides.specs.OverrideStatements as spec;
ghost use Rattle.eval_world.specs.Nests.{Nests};
ghost use Rattle.eval_world.specs.Outcomes.{Gives, nothing, same};
ghost use Rattle.override_rules.specs.Lines as overriding;
ghost use Rattle.pp_values.specs.Views.{view};
ghost use Rattle.res_core.specs.Lines.{line_of, lines_of};

use attribute_lines::lines;
use eval_classes::right_of;
use eval_forms::{accessed, type_of};
use eval_world::{Evaluated, Forms, Goal, Here, Meaning, World};
use override_rules::{OverrideLine, Right};
use pp_tree::{Override, Reference as Written};
use pp_values::{Memory, Reference, Stop, Text, Value, What, copy};
use res_core::{Line, Lines};
use std::alloc::Global;

/// The target of an override, `File['/a']`: access to the type as in an expression.
#[tactic(auto, unfolding(crate::specs::OverrideStatements::target_rule))]
pub fn target_of<F: Fn(&mut World<'_>, Goal<'_>, Here, u32) -> Result<Evaluated, Stop>, M: Meaning>(
    forms: &Forms<F, M>,
    world: &mut World<'_>,
    written: &Written,
    here: Here,
) -> Result<Evaluated, Stop>
    requires { Nests (M.within forms.now.left) forms.now.left (F.pre forms.now.inner) (F.post forms.now.inner) }
    ensures { Gives same
        (spec.target_rule (M.within forms.now.left) written.now here world.old) result world.new }
{
    let kind = type_of(world, &written.kind, written.at, here)?;
    accessed(forms, world, kind, &written.args, written.at, here)
}

/// `File['/a'] { mode => '0600' }`: the lines are put on the resource, which may be declared later.
#[tactic(auto, unfolding(crate::specs::OverrideStatements::override_rule))]
pub fn override_of<
    F: Fn(&mut World<'_>, Goal<'_>, Here, u32) -> Result<Evaluated, Stop>,
    M: Meaning,
>(forms: &Forms<F, M>, world: &mut World<'_>, written: &Override, here: Here) -> Result<(), Stop>
    requires { Nests (M.within forms.now.left) forms.now.left (F.pre forms.now.inner) (F.post forms.now.inner) }
    ensures { Gives nothing
        (spec.override_rule (M.within forms.now.left) written.now here world.old) result world.new }
{
    let target = forms.target(world, &written.target, here)?;
    let none = Lines::new(world.heap.alloc());
    let lines = lines(forms, world, none, &written.attributes, here)?;
    put_on(world, target.as_value(), lines.as_slice(), written.at, here)
}

fn put_on(
    world: &mut World<'_>,
    target: &Value,
    lines: &[Line],
    line: u32,
    here: Here,
) -> Result<(), Stop>
    ensures { Gives nothing
        (spec.put_on (view target.now) (lines_of lines.now) line here world.old) result world.new }
{
    match target {
        Value::Ref(reference) => put_lines(world, reference.get(), lines, here),
        _ => {
            let operator = Text::from_str(world.heap.alloc(), "[]")?;
            Err(Stop::Fault(world.fault(here, line, What::BadOperand(operator))?))
        }
    }
}

#[tactic(auto, unfolding(crate::specs::OverrideStatements::lines_put))]
fn put_lines(
    world: &mut World<'_>,
    target: &Reference,
    lines: &[Line],
    here: Here,
) -> Result<(), Stop>
    ensures { Gives nothing (spec.lines_put target.now (lines_of lines.now) here world.old) result world.new }
{
    let mut rest = lines;
    while let Some((line, more)) = rest.split_first() {
        put_line(world, target, line, here)?;
        rest = more;
    }
    Ok(())
}

/// It may do what the source of the code that it stands in may do.
fn put_line(world: &mut World<'_>, target: &Reference, line: &Line, here: Here) -> Result<(), Stop>
    ensures { Gives nothing (spec.line_put target.now (line_of line.now) here world.old) result world.new }
{
    let alloc = world.heap.alloc();
    let owner = world.owners.get(here.owner);
    let right = right_of(alloc, &world.environment, owner)?;
    let line = line_on(alloc, target, line, right)?;
    world.overrides.add_line(alloc, &world.book, line)
}

fn line_on(
    alloc: Global,
    target: &Reference,
    line: &Line,
    right: Right,
) -> Result<OverrideLine, Memory>
    ensures { IfOk result (λ l. overriding.line_of l ≡ spec.line_on target.now (line_of line.now) right) }
{
    let target = target.copy(alloc)?;
    let name = line.name.copy(alloc)?;
    let value = copy(alloc, &line.value)?;
    let at = line.at.copy(alloc)?;
    Ok(OverrideLine {
        target,
        name,
        append: line.append,
        value,
        at,
        right,
    })
}
