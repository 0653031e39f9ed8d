//! Facts: a hash whose keys are texts that rise in byte order, at every level, with no reference and no data type
//! within.
ghost use Rattle.std.specs.Prelude.{◌≡◌, option_map, IfOk};
ghost use Rattle.pp_values.specs.Datum.{data_of, entries_of};
ghost use Rattle.pp_values.specs.Facts.{is_next_above, is_fact, are_members, are_pairs, are_facts};
ghost use Rattle.pp_values.specs.Views.{view, views, pair_views};
ghost use Rattle.serde_json.specs.View.{view as json_view};
ghost use Rattle.journal_reading.specs.SiteReading.{facts_said};

use json_values::{FormStop, from_form};
use pp_values::{Memory, Text, Value};
use serde_json::Value as Json;
use std::alloc::Global;

/// The facts whose form this is.
pub fn facts_said(alloc: Global, json: &Json) -> Result<Option<Value>, Memory>
    ensures { IfOk result (λ o. option_map view o ≡ facts_said (json_view json.now)) }
{
    match from_form(alloc, json) {
        Ok(value) => {
            if are_facts(&value) {
                Ok(Some(value))
            } else {
                Ok(None)
            }
        }
        Err(FormStop::NoForm) => Ok(None),
        Err(FormStop::Memory) => Err(Memory),
    }
}

fn are_facts(value: &Value) -> bool
    ensures { result ≡ are_facts (view value.now) }
{
    let Value::Hash(pairs) = value else {
        return false;
    };
    are_pairs(pairs.as_slice())
}

#[cycle(is_fact)]
fn is_fact(value: &Value) -> bool
    ensures { result ≡ is_fact (view value.now) }
{
    match value {
        Value::Undef => true,
        Value::Flag(_) => true,
        Value::Int(_) => true,
        Value::Text(_) => true,
        Value::List(items) => are_members(items.as_slice()),
        Value::Hash(pairs) => are_pairs(pairs.as_slice()),
        Value::Ref(_) => false,
        Value::Kind(_) => false,
        Value::Default => false,
    }
}

#[cycle(is_fact)]
fn are_members(items: &[Value]) -> bool
    ensures { result ≡ are_members (data_of (views items.now)) }
{
    for item in items {
        if !is_fact(item) {
            return false;
        }
    }
    true
}

#[cycle(is_fact)]
fn are_pairs(pairs: &[(Value, Value)]) -> bool
    ensures { result ≡ are_pairs (entries_of (pair_views pairs.now)) }
{
    let mut left = pairs;
    while let [(key, value), after @ ..] = left {
        let Value::Text(name) = key else {
            return false;
        };
        if !is_fact(value) || !is_next_above(name, after) {
            return false;
        }
        left = after;
    }
    true
}

/// Whether the first of the keys, if there is one, is a text above this one.
fn is_next_above(name: &Text, pairs: &[(Value, Value)]) -> bool
    ensures { result ≡ is_next_above name.now (entries_of (pair_views pairs.now)) }
{
    let [(key, _), ..] = pairs else {
        return true;
    };
    let Value::Text(next) = key else {
        return false;
    };
    name.compare(next).is_lt()
}
