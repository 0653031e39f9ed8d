//! Access step by step.
ghost use Rattle.std.specs.Prelude.{◌≡◌};
ghost use Rattle.pp_values.specs.Answers.{in_turn};
ghost use Rattle.pp_values.specs.Views.{view, views};
ghost use Rattle.pp_funcs.specs.Digging.{Finds, further, dig};
ghost use Rattle.pp_funcs.specs.Refusals.{Gives};

use crate::refusal::{Halt, Refusal};
use pp_ops::{copy_or_undef, member_at};
use pp_values::Value;
use std::alloc::Global;

pub fn dig(alloc: Global, args: &[Value]) -> Result<Value, Halt>
    ensures { Gives result (dig (views args.now)) }
{
    match args {
        [whole, keys @ ..] => match find_within(whole, keys) {
            Ok(value) => Ok(copy_or_undef(alloc, value)?),
            Err(refusal) => Err(Halt::Refused(refusal)),
        },
        _ => Err(Halt::Refused(Refusal::Arguments)),
    }
}

/// The value that the keys lead to, if there is one.
fn find_within<'a>(whole: &'a Value, keys: &[Value]) -> Result<Option<&'a Value>, Refusal>
    ensures { Finds result (in_turn further (view whole.now) (views keys.now)) }
{
    let mut value = whole;
    for key in keys {
        match step(value, key) {
            Ok(Some(next)) => value = next,
            Ok(None) => return Ok(None),
            Err(refusal) => return Err(refusal),
        }
    }
    Ok(Some(value))
}

/// The value that one key leads to, if there is one.
fn step<'a>(value: &'a Value, key: &Value) -> Result<Option<&'a Value>, Refusal>
    ensures { Finds result (further (view value.now) (view key.now)) }
{
    match (value, key) {
        (Value::Undef, _) => Ok(None),
        (Value::List(items), Value::Int(at)) => Ok(member_at(items.as_slice(), *at)),
        (Value::Hash(pairs), key) => Ok(pairs.get(key)),
        _ => Err(Refusal::Arguments),
    }
}
