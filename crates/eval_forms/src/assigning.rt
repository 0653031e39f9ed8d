//! Assignments.
ghost use Rattle.eval_forms.specs.Operators as spec;
ghost use Rattle.eval_world.specs.Nests.{Nests};
ghost use Rattle.eval_world.specs.Outcomes.{Gives, same};

use eval_world::{Evaluated, Forms, Goal, Here, Meaning, World};
use pp_tree::Expr;
use pp_values::{Stop, Text};

/// `$a = 1`: the value is evaluated first, and then set.
#[tactic(auto, unfolding(crate::specs::Operators::assigned_rule))]
pub fn assigned<F: Fn(&mut World<'_>, Goal<'_>, Here, u32) -> Result<Evaluated, Stop>, M: Meaning>(
    forms: &Forms<F, M>,
    world: &mut World<'_>,
    name: &Text,
    expr: &Expr,
    line: u32,
    here: Here,
) -> Result<Evaluated, Stop>
    requires { Nests (M.within forms.now.left) forms.now.left (F.pre forms.now.inner) (F.post forms.now.inner) }
    ensures { Gives same (spec.assigned_rule (M.within forms.now.left) name.now expr.now line here world.old)
        result world.new }
{
    let value = forms.value(world, expr, here)?;
    let kept = Evaluated::copy_of(world.heap.alloc(), value.as_value())?;
    world.assign(here, name, kept, line)?;
    Ok(value)
}
