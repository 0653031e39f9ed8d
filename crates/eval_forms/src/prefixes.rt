//! Operators before a value, and what counts as true.
ghost use Rattle.std.specs.Prelude.{◌≡◌};
ghost use Rattle.eval_forms.specs.Operators as spec;
ghost use Rattle.eval_world.specs.Nests.{Nests};
ghost use Rattle.eval_world.specs.Outcomes.{Gives, same};

use crate::answering::combined;
use eval_world::{Evaluated, Forms, Goal, Here, Meaning, World};
use expr_eval::{is_true, spread};
use pp_ops::Op;
use pp_tree::{Expr, PrefixOperator};
use pp_values::{Stop, Value};

/// `!$a`, `-$a`, and `*$a` where it is no argument and no member of a list, or as what is spliced there.
#[tactic(auto, unfolding(crate::specs::Operators::prefix_rule))]
pub fn prefix<F: Fn(&mut World<'_>, Goal<'_>, Here, u32) -> Result<Evaluated, Stop>, M: Meaning>(
    forms: &Forms<F, M>,
    world: &mut World<'_>,
    operator: PrefixOperator,
    operand: &Expr,
    line: u32,
    here: Here,
) -> Result<Evaluated, Stop>
    requires { Nests (M.within forms.now.left) forms.now.left (F.pre forms.now.inner) (F.post forms.now.inner) }
    ensures { Gives same (spec.prefix_rule (M.within forms.now.left) operator operand.now line here world.old)
        result world.new }
{
    let value = forms.value(world, operand, here)?;
    prefixed(world, operator, &value, line, here)
}

fn prefixed(
    world: &World<'_>,
    operator: PrefixOperator,
    value: &Evaluated,
    line: u32,
    here: Here,
) -> Result<Evaluated, Stop>
    ensures { Gives same (spec.prefixed operator value.now line here world.now) result world.now }
{
    match operator {
        PrefixOperator::Not => Ok(Evaluated::new(Value::Flag(!is_true(value.as_value())))),
        PrefixOperator::Negate => {
            combined(
                world,
                Op::Negate,
                value.as_value(),
                &Value::Undef,
                line,
                here,
            )
        }
        PrefixOperator::Splat => Ok(Evaluated::new(spread(world.heap.alloc(), value.as_value())?)),
    }
}

/// Whether an expression counts as true.
#[tactic(auto, unfolding(crate::specs::Operators::truth_rule))]
pub fn truth<F: Fn(&mut World<'_>, Goal<'_>, Here, u32) -> Result<Evaluated, Stop>, M: Meaning>(
    forms: &Forms<F, M>,
    world: &mut World<'_>,
    expr: &Expr,
    here: Here,
) -> Result<bool, Stop>
    requires { Nests (M.within forms.now.left) forms.now.left (F.pre forms.now.inner) (F.post forms.now.inner) }
    ensures { Gives same (spec.truth_rule (M.within forms.now.left) expr.now here world.old) result world.new }
{
    if let Some(value) = forms.known(world, expr, here) {
        return Ok(is_true(value));
    }
    let value = forms.value(world, expr, here)?;
    Ok(is_true(value.as_value()))
}
