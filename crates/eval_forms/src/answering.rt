//! Steps over values that are there already.
ghost use Rattle.std.specs.Prelude.{◌≡◌, is_some, IfOk, IfSome, Ok};
ghost use Rattle.expr_eval.specs.Combining as steps;
ghost use Rattle.expr_eval.specs.Faults.{bad_operand};
ghost use Rattle.expr_eval.specs.Testing.{is_of};
ghost use Rattle.pp_values.specs.Datum.{int};
ghost use Rattle.pp_values.specs.Views.{view};
ghost use Rattle.pp_values.specs.declared.place.Place.{Place};
ghost use Rattle.eval_forms.specs.Answering as spec;
ghost use Rattle.eval_forms.specs.Known.{is_of_integers};
ghost use Rattle.eval_world.specs.Outcomes.{Gives, same};
ghost use Rattle.eval_world.specs.Worlds.{answered_at, place_at};

use eval_world::{Evaluated, Here, World};
use expr_eval::{combine, is_of};
use pp_ops::Op;
use pp_values::{Fault, Memory, Stop, Value};

/// The value of an operator over two values. Where both are integers `+` and `-` are done here.
#[inline(always)]
#[tactic(auto, using(crate::proofs::Elsewhere::known_here))]
pub fn combined(
    world: &World<'_>,
    op: Op,
    left: &Value,
    right: &Value,
    line: u32,
    here: Here,
) -> Result<Evaluated, Stop>
    ensures { Gives same (spec.combined op (view left.now) (view right.now) line here world.now) result world.now }
{
    if let Some(number) = of_integers(op, left, right) {
        return Ok(Evaluated::new(Value::Int(number)));
    }
    combined_otherwise(world, op, left, right, line, here)
}

/// A place is made only where there is a fault to tell: the operator is asked with no place first, and once more with
/// its own where it refuses.
#[inline(never)]
#[tactic(auto, using(crate::proofs::Elsewhere::combined_here))]
fn combined_otherwise(
    world: &World<'_>,
    op: Op,
    left: &Value,
    right: &Value,
    line: u32,
    here: Here,
) -> Result<Evaluated, Stop>
    ensures { Gives same (spec.combined op (view left.now) (view right.now) line here world.now) result world.now }
{
    let nowhere = world.nowhere();
    match combine(world.heap.alloc(), op, left, right, &nowhere) {
        Ok(value) => Ok(Evaluated::new(value)),
        Err(Stop::Memory) => Err(Stop::Memory),
        Err(Stop::Fault(_)) => combined_at(world, op, left, right, line, here),
    }
}

/// The sum or the difference of two integers, where it has 64 bits.
#[inline(always)]
#[tactic(auto, using(crate::proofs::Integers::integer_told, crate::proofs::Integers::integer_which))]
fn of_integers(op: Op, left: &Value, right: &Value) -> Option<i64>
    ensures which { is_some result ≡ is_of_integers op (view left.now) (view right.now) }
    ensures said { IfSome result (λ z. (p : Place) → steps.combined op (view left.now) (view right.now) p ≡ Ok (int z)) }
{
    match (op, left, right) {
        (Op::Add, Value::Int(a), Value::Int(b)) => a.checked_add(*b),
        (Op::Subtract, Value::Int(a), Value::Int(b)) => a.checked_sub(*b),
        _ => None,
    }
}

#[inline(never)]
#[tactic(auto, unfolding(crate::specs::Answering::combined))]
fn combined_at(
    world: &World<'_>,
    op: Op,
    left: &Value,
    right: &Value,
    line: u32,
    here: Here,
) -> Result<Evaluated, Stop>
    ensures { Gives same (spec.combined op (view left.now) (view right.now) line here world.now) result world.now }
{
    let at = world.place(here, line)?;
    let value = combine(world.heap.alloc(), op, left, right, &at)?;
    Ok(Evaluated::new(value))
}

/// Whether a value is of a type. A place is made only where there is a fault to tell.
#[tactic(auto, using(crate::proofs::Elsewhere::tested_here))]
pub fn is_of_type(
    world: &World<'_>,
    value: &Evaluated,
    kind: &Evaluated,
    line: u32,
    here: Here,
) -> Result<bool, Stop>
    ensures { Gives same (answered_at (is_of value.now kind.now) line here world.now) result world.now }
{
    let nowhere = world.nowhere();
    match is_of(
        world.heap.alloc(),
        value.as_value(),
        kind.as_value(),
        &nowhere,
    ) {
        Ok(is_one) => Ok(is_one),
        Err(Stop::Memory) => Err(Stop::Memory),
        Err(Stop::Fault(_)) => is_of_type_at(world, value, kind, line, here),
    }
}

fn is_of_type_at(
    world: &World<'_>,
    value: &Evaluated,
    kind: &Evaluated,
    line: u32,
    here: Here,
) -> Result<bool, Stop>
    ensures { Gives same (answered_at (is_of value.now kind.now) line here world.now) result world.now }
{
    let at = world.place(here, line)?;
    is_of(world.heap.alloc(), value.as_value(), kind.as_value(), &at)
}

/// The fault that an operator does not take what it is given, at a line of the file whose code is evaluated.
pub fn bad_operand(
    world: &World<'_>,
    operator: &str,
    line: u32,
    here: Here,
) -> Result<Fault, Memory>
    ensures { IfOk result (λ f. f ≡ bad_operand operator.now (place_at world.now here line)) }
{
    let at = world.place(here, line)?;
    expr_eval::bad_operand(world.heap.alloc(), operator, &at)
}
