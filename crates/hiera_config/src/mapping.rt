//! The values for which a mapped path stands.
ghost use Rattle.std.specs.Prelude.{◌≡◌, ◌∷◌, [], IfOk, map, option_map, Some};
ghost use Rattle.pp_values.specs.Views.{view, views, pair_views};
ghost use Rattle.hiera_config.specs.Variables.{mapped_values, pair_list};

use pp_values::{Memory, Value, Values, copy, copy_values};
use std::alloc::Global;

/// The values for each of which there is a path, where the variable has this value.
pub fn mapped_values(alloc: Global, value: Option<&Value>) -> Result<Vec<Value>, Memory>
    ensures { IfOk result (λ v. views v.items ≡ mapped_values (option_map (λ v. view v.now) value.entry)) }
{
    match value {
        Some(value) => values_in(alloc, value),
        None => Ok(Vec::new(alloc)),
    }
}

fn values_in(alloc: Global, value: &Value) -> Result<Vec<Value>, Memory>
    ensures { IfOk result (λ v. views v.items ≡ mapped_values (Some (view value.now))) }
{
    match value {
        Value::Undef => Ok(Vec::new(alloc)),
        Value::List(items) => Ok(copy_values(alloc, items)?.into_vec()),
        Value::Hash(pairs) => pair_lists(alloc, pairs.as_slice()),
        _ => single(alloc, value),
    }
}

fn single(alloc: Global, value: &Value) -> Result<Vec<Value>, Memory>
    ensures { IfOk result (λ v. views v.items ≡ view value.now ∷ []) }
{
    let mut values = Vec::new(alloc);
    values.push(copy(alloc, value)?)?;
    Ok(values)
}

/// Each key with its value, as lists of two.
fn pair_lists(alloc: Global, pairs: &[(Value, Value)]) -> Result<Vec<Value>, Memory>
    ensures { IfOk result (λ v. views v.items ≡ map pair_list (pair_views pairs.now)) }
{
    let mut values = Vec::new(alloc);
    for (key, value) in pairs {
        values.push(pair_list(alloc, key, value)?)?;
    }
    Ok(values)
}

fn pair_list(alloc: Global, key: &Value, value: &Value) -> Result<Value, Memory>
    ensures { IfOk result (λ v. view v ≡ pair_list (view key.now, view value.now)) }
{
    let mut pair = Values::new(alloc);
    pair.push(copy(alloc, key)?)?;
    pair.push(copy(alloc, value)?)?;
    Ok(Value::List(pair))
}
