//! Plain values, of which documents have a form.
ghost use Rattle.std.specs.Prelude.{◌≡◌};
ghost use Rattle.pp_values.specs.Datum.{data_of, entries_of};
ghost use Rattle.pp_values.specs.Plain.{is_plain_value, are_plain_values, are_plain_pairs};
ghost use Rattle.pp_values.specs.Views.{view, views, pair_views};

use crate::value::Value;

/// Whether no data type and no `default` is within the value.
#[cycle(is_plain_value)]
pub fn is_plain_value(value: &Value) -> bool
    ensures { result ≡ is_plain_value (view value.now) }
{
    match value {
        Value::Undef => true,
        Value::Flag(_) => true,
        Value::Int(_) => true,
        Value::Text(_) => true,
        Value::List(items) => are_plain_values(items.as_slice()),
        Value::Hash(pairs) => are_plain_pairs(pairs.as_slice()),
        Value::Ref(_) => true,
        Value::Kind(_) => false,
        Value::Default => false,
    }
}

#[cycle(is_plain_value)]
fn are_plain_values(items: &[Value]) -> bool
    ensures { result ≡ are_plain_values (data_of (views items.now)) }
{
    for item in items {
        if !is_plain_value(item) {
            return false;
        }
    }
    true
}

#[cycle(is_plain_value)]
fn are_plain_pairs(pairs: &[(Value, Value)]) -> bool
    ensures { result ≡ are_plain_pairs (entries_of (pair_views pairs.now)) }
{
    for (key, value) in pairs {
        if !is_plain_value(key) || !is_plain_value(value) {
            return false;
        }
    }
    true
}
