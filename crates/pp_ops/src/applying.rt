//! The table of the operators.
ghost use Rattle.std.specs.Prelude.{◌≡◌, IfOk, false};
ghost use Rattle.pp_values.specs.Answers.{Answers};
ghost use Rattle.pp_values.specs.Views.{view};
ghost use Rattle.pp_ops.specs.Operators.{sum, difference, appended, computed, applied, needs_types};
ghost use Rattle.pp_ops.specs.Numbers.{of_integers, product, divided, modulo};
ghost use Rattle.pp_ops.specs.Refusals.{Gives};
ghost use Rattle.pp_ops.specs.Said.{said};
ghost use Rattle.pp_ops.specs.Symbols.{refusal_fault, refused};

use crate::accessing::accessed;
use crate::hashing::{merged, without_keys};
use crate::listing::{extended, with_member, without};
use crate::membership::is_in;
use crate::numbers;
use crate::op::Op;
use crate::refusal::{Halt, Refusal};
use pp_values::{Fault, Memory, Place, Stop, Text, Value, What, equal, order};
use std::alloc::Global;
use std::cmp::Ordering;

/// The value of an operator, or its fault at this place, which names the operator as it is written.
///
/// `Op::Negate` takes its value on the left and ignores the right; `Op::Access` takes the list of its arguments on the
/// right. `in` and access with a data type on the left are the caller's.
pub fn apply_op(
    alloc: Global,
    op: Op,
    left: &Value,
    right: &Value,
    at: &Place,
) -> Result<Value, Stop>
    requires { needs_types op (view left.now) ≡ false }
    ensures { Answers (said result) (applied op (view left.now) (view right.now) at.now) }
{
    match computed(alloc, op, left, right) {
        Ok(value) => Ok(value),
        Err(Halt::Memory) => Err(Stop::Memory),
        Err(Halt::Refused(refusal)) => Err(Stop::Fault(refusal_fault(alloc, op, at, refusal)?)),
    }
}

fn refusal_fault(alloc: Global, op: Op, at: &Place, refusal: Refusal) -> Result<Fault, Memory>
    ensures { IfOk result (λ f. f ≡ refusal_fault op at.now refusal) }
{
    let written = Text::from_str(alloc, op.symbol())?;
    let at = at.copy(alloc)?;
    Fault::new(alloc, at, what(refusal, written))
}

fn what(refusal: Refusal, written: Text) -> What
    ensures { result ≡ refused refusal written }
{
    match refusal {
        Refusal::Operand => What::BadOperand(written),
        Refusal::Range => What::NumberRange(written),
        Refusal::Zero => What::ZeroDivisor(written),
    }
}

fn computed(alloc: Global, op: Op, left: &Value, right: &Value) -> Result<Value, Halt>
    ensures { Gives result (computed op (view left.now) (view right.now)) }
{
    match op {
        Op::Add => sum(alloc, left, right),
        Op::Subtract => difference(alloc, left, right),
        Op::Multiply => product(left, right),
        Op::Divide => divided(left, right),
        Op::Modulo => modulo(left, right),
        Op::Append => appended(alloc, left, right),
        Op::Equal => Ok(Value::Flag(equal(left, right))),
        Op::NotEqual => Ok(Value::Flag(!equal(left, right))),
        Op::Less => match order(left, right) {
            Some(ordering) => Ok(Value::Flag(ordering.is_lt())),
            None => Err(Halt::Refused(Refusal::Operand)),
        },
        Op::Greater => match order(left, right) {
            Some(ordering) => Ok(Value::Flag(ordering.is_gt())),
            None => Err(Halt::Refused(Refusal::Operand)),
        },
        Op::AtMost => match order(left, right) {
            Some(ordering) => Ok(Value::Flag(ordering.is_le())),
            None => Err(Halt::Refused(Refusal::Operand)),
        },
        Op::AtLeast => match order(left, right) {
            Some(ordering) => Ok(Value::Flag(ordering.is_ge())),
            None => Err(Halt::Refused(Refusal::Operand)),
        },
        Op::Member => Ok(Value::Flag(is_in(left, right))),
        Op::Negate => numbers::negated(left),
        Op::Access => accessed(alloc, left, right),
    }
}

fn sum(alloc: Global, left: &Value, right: &Value) -> Result<Value, Halt>
    ensures { Gives result (sum (view left.now) (view right.now)) }
{
    match (left, right) {
        (Value::Int(a), Value::Int(b)) => numbers::sum(*a, *b),
        (Value::List(a), b) => Ok(Value::List(extended(alloc, a.as_slice(), b)?)),
        (Value::Hash(a), Value::Hash(b)) => Ok(Value::Hash(merged(alloc, a, b)?)),
        _ => Err(Halt::Refused(Refusal::Operand)),
    }
}

fn difference(alloc: Global, left: &Value, right: &Value) -> Result<Value, Halt>
    ensures { Gives result (difference (view left.now) (view right.now)) }
{
    match (left, right) {
        (Value::Int(a), Value::Int(b)) => numbers::difference(*a, *b),
        (Value::List(a), b) => Ok(Value::List(without(alloc, a.as_slice(), b)?)),
        (Value::Hash(a), b) => Ok(Value::Hash(without_keys(alloc, a, b)?)),
        _ => Err(Halt::Refused(Refusal::Operand)),
    }
}

fn product(left: &Value, right: &Value) -> Result<Value, Halt>
    ensures { Gives result (of_integers product (view left.now) (view right.now)) }
{
    match (left, right) {
        (Value::Int(a), Value::Int(b)) => numbers::product(*a, *b),
        _ => Err(Halt::Refused(Refusal::Operand)),
    }
}

fn divided(left: &Value, right: &Value) -> Result<Value, Halt>
    ensures { Gives result (of_integers divided (view left.now) (view right.now)) }
{
    match (left, right) {
        (Value::Int(a), Value::Int(b)) => numbers::divided(*a, *b),
        _ => Err(Halt::Refused(Refusal::Operand)),
    }
}

fn modulo(left: &Value, right: &Value) -> Result<Value, Halt>
    ensures { Gives result (of_integers modulo (view left.now) (view right.now)) }
{
    match (left, right) {
        (Value::Int(a), Value::Int(b)) => numbers::modulo(*a, *b),
        _ => Err(Halt::Refused(Refusal::Operand)),
    }
}

fn appended(alloc: Global, left: &Value, right: &Value) -> Result<Value, Halt>
    ensures { Gives result (appended (view left.now) (view right.now)) }
{
    match left {
        Value::List(items) => Ok(Value::List(with_member(alloc, items.as_slice(), right)?)),
        _ => Err(Halt::Refused(Refusal::Operand)),
    }
}
