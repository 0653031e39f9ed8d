//! The keys and the values of a hash.
ghost use Rattle.std.specs.Prelude.{◌≡◌, IfOk, map};
ghost use Rattle.pp_values.specs.Views.{view, views, pair_views};
ghost use Rattle.pp_funcs.specs.Lists.{keys, values};
ghost use Rattle.pp_funcs.specs.Refusals.{Gives, of_one};

use crate::refusal::{Halt, Refusal};
use pp_values::{Memory, Value, Values, copy};
use std::alloc::Global;

pub fn keys(alloc: Global, args: &[Value]) -> Result<Value, Halt>
    ensures { Gives result (of_one keys (views args.now)) }
{
    match args {
        [value] => keys_in(alloc, value),
        _ => Err(Halt::Refused(Refusal::Arguments)),
    }
}

fn keys_in(alloc: Global, value: &Value) -> Result<Value, Halt>
    ensures { Gives result (keys (view value.now)) }
{
    match value {
        Value::Hash(pairs) => Ok(Value::List(keys_of(alloc, pairs.as_slice())?)),
        _ => Err(Halt::Refused(Refusal::Arguments)),
    }
}

pub fn values(alloc: Global, args: &[Value]) -> Result<Value, Halt>
    ensures { Gives result (of_one values (views args.now)) }
{
    match args {
        [value] => values_in(alloc, value),
        _ => Err(Halt::Refused(Refusal::Arguments)),
    }
}

fn values_in(alloc: Global, value: &Value) -> Result<Value, Halt>
    ensures { Gives result (values (view value.now)) }
{
    match value {
        Value::Hash(pairs) => Ok(Value::List(values_of(alloc, pairs.as_slice())?)),
        _ => Err(Halt::Refused(Refusal::Arguments)),
    }
}

fn keys_of(alloc: Global, pairs: &[(Value, Value)]) -> Result<Values, Memory>
    ensures { IfOk result (λ l. l ≡ map (λ p. p.0) (pair_views pairs.now)) }
{
    let mut out = Values::new(alloc);
    for (key, _) in pairs {
        out.push(copy(alloc, key)?)?;
    }
    Ok(out)
}

fn values_of(alloc: Global, pairs: &[(Value, Value)]) -> Result<Values, Memory>
    ensures { IfOk result (λ l. l ≡ map (λ p. p.1) (pair_views pairs.now)) }
{
    let mut out = Values::new(alloc);
    for (_, value) in pairs {
        out.push(copy(alloc, value)?)?;
    }
    Ok(out)
}
