//! Integers of 64 bits.
ghost use Rattle.std.specs.Prelude.{◌≡◌, ◌≢◌, ◌<◌, ◌^◌, ◌+ℤ◌, ◌-ℤ◌, neg_ℤ, pos, negsuc, unsigned_abs};
ghost use Rattle.pp_values.specs.Views.{view};
ghost use Rattle.pp_ops.specs.Numbers.{in_range, ranged, quotient, distance, remainder, product, divided, modulo, negated};
ghost use Rattle.pp_ops.specs.Refusals.{Gives};

use crate::refusal::{Halt, Refusal};
use pp_values::Value;

fn ranged(number: Option<i64>) -> Result<Value, Halt>
    ensures { Gives result (ranged number) }
{
    match number {
        Some(number) => Ok(Value::Int(number)),
        None => Err(Halt::Refused(Refusal::Range)),
    }
}

#[tactic(auto, using(crate::proofs::Ranges::range_told))]
pub fn sum(a: i64, b: i64) -> Result<Value, Halt>
    ensures { Gives result (in_range (a +ℤ b)) }
{
    ranged(a.checked_add(b))
}

#[tactic(auto, using(crate::proofs::Ranges::range_told))]
pub fn difference(a: i64, b: i64) -> Result<Value, Halt>
    ensures { Gives result (in_range (a -ℤ b)) }
{
    ranged(a.checked_sub(b))
}

#[tactic(auto, using(crate::proofs::Ranges::range_told))]
pub fn product(a: i64, b: i64) -> Result<Value, Halt>
    ensures { Gives result (product a b) }
{
    ranged(a.checked_mul(b))
}

#[tactic(auto, using(crate::proofs::Ranges::range_told))]
fn opposite(number: i64) -> Result<Value, Halt>
    ensures { Gives result (in_range (neg_ℤ number)) }
{
    ranged(number.checked_neg())
}

pub fn negated(value: &Value) -> Result<Value, Halt>
    ensures { Gives result (negated (view value.now)) }
{
    match value {
        Value::Int(number) => opposite(*number),
        _ => Err(Halt::Refused(Refusal::Operand)),
    }
}

pub fn divided(a: i64, b: i64) -> Result<Value, Halt>
    ensures { Gives result (divided a b) }
{
    if b == 0 {
        return Err(Halt::Refused(Refusal::Zero));
    }
    ranged(quotient(a, b))
}

pub fn modulo(a: i64, b: i64) -> Result<Value, Halt>
    ensures { Gives result (modulo a b) }
{
    if b == 0 {
        return Err(Halt::Refused(Refusal::Zero));
    }
    Ok(Value::Int(remainder(a, b)))
}

/// The quotient, rounded down, where it has 64 bits.
fn quotient(a: i64, b: i64) -> Option<i64>
    requires { b ≢ pos 0 }
    ensures { ranged result ≡ in_range (quotient a b) }
{
    if (a < 0) == (b < 0) {
        return from_zero_up(a.unsigned_abs() / b.unsigned_abs());
    }
    if a == 0 {
        return Some(0);
    }
    Some(from_zero_down((a.unsigned_abs() - 1) / b.unsigned_abs()))
}

fn from_zero_up(steps: u64) -> Option<i64>
    ensures { ranged result ≡ in_range (pos steps) }
{
    i64::try_from(steps).ok()
}

fn from_zero_down(steps: u64) -> i64
    requires { steps < 2 ^ 63 }
    ensures { result ≡ negsuc steps }
{
    -1 - (steps as i64)
}

/// What is left by the quotient that is rounded down.
fn remainder(a: i64, b: i64) -> i64
    requires { b ≢ pos 0 }
    ensures { result ≡ remainder a b }
{
    let rest = distance(a, b);
    if b < 0 { -(rest as i64) } else { rest as i64 }
}

/// How far the remainder is from 0.
fn distance(a: i64, b: i64) -> u64
    requires { b ≢ pos 0 }
    ensures value { result ≡ distance a b }
    ensures less { result < unsigned_abs b }
{
    let size = b.unsigned_abs();
    if (a < 0) == (b < 0) {
        return a.unsigned_abs() % size;
    }
    if a == 0 {
        return 0;
    }
    size - 1 - (a.unsigned_abs() - 1) % size
}
