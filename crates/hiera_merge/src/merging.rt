//! The four merges.
ghost use Rattle.std.specs.Prelude.{◌≡◌, ◌∷◌, IfOk, option_map};
ghost use Rattle.std.specs.List.{list_any, list_all};
ghost use Rattle.pp_values.specs.Views.{view, views};
ghost use Rattle.hiera_merge.specs.Merges.{is_hash, is_collection, takes, merge_all, merged};

use crate::deepening::deep_merge;
use crate::hashing::hash_merge;
use crate::merge::Merge;
use crate::uniting::united;
use pp_values::{Memory, Value};
use std::alloc::Global;

/// The values that sources have for one key as one value: the highest, and those of lower sources from the highest
/// down. None where the merge does not take values of these kinds. Parts of the values may move.
pub fn merged(
    alloc: Global,
    merge: Merge,
    high: Value,
    lower: Vec<Value>,
) -> Result<Option<Value>, Memory>
    ensures { IfOk result (λ o. option_map view o ≡ merged merge (view high) (views lower.items)) }
{
    if !takes(merge, &high, lower.as_slice()) {
        return Ok(None);
    }
    Ok(Some(merge_all(alloc, merge, high, lower)?))
}

fn takes(merge: Merge, high: &Value, lower: &[Value]) -> bool
    ensures { result ≡ takes merge (view high.now ∷ views lower.now) }
{
    match merge {
        Merge::First => true,
        Merge::Unique => !(is_hash(high) || has_hash(lower)),
        Merge::Hash => is_hash(high) && are_hashes(lower),
        Merge::Deep => is_collection(high) && are_collections(lower),
    }
}

fn merge_all(alloc: Global, merge: Merge, high: Value, lower: Vec<Value>) -> Result<Value, Memory>
    ensures { IfOk result (λ v. view v ≡ merge_all merge (view high) (views lower.items)) }
{
    match merge {
        Merge::First => Ok(high),
        Merge::Unique => Ok(Value::List(united(alloc, &high, lower.as_slice())?)),
        Merge::Hash => Ok(Value::Hash(hash_merge(alloc, &high, lower.as_slice())?)),
        Merge::Deep => deep_merge(alloc, high, lower),
    }
}

pub fn is_hash(value: &Value) -> bool
    ensures { result ≡ is_hash (view value.now) }
{
    matches!(value, Value::Hash(_))
}

fn is_collection(value: &Value) -> bool
    ensures { result ≡ is_collection (view value.now) }
{
    matches!(value, Value::List(_) | Value::Hash(_))
}

fn has_hash(values: &[Value]) -> bool
    ensures { result ≡ list_any is_hash (views values.now) }
{
    for value in values {
        if is_hash(value) {
            return true;
        }
    }
    false
}

fn are_hashes(values: &[Value]) -> bool
    ensures { result ≡ list_all is_hash (views values.now) }
{
    for value in values {
        if !is_hash(value) {
            return false;
        }
    }
    true
}

fn are_collections(values: &[Value]) -> bool
    ensures { result ≡ list_all is_collection (views values.now) }
{
    for value in values {
        if !is_collection(value) {
            return false;
        }
    }
    true
}
