//! Which values are data.
ghost use Rattle.std.specs.Prelude.{◌≡◌};
ghost use Rattle.pp_values.specs.Datum.{data_of, entries_of};
ghost use Rattle.pp_values.specs.Views.{view, views, pair_views};
ghost use Rattle.pp_types.specs.Accepts.{is_data, are_data, are_data_by_texts};

use pp_values::Value;

/// Whether the value is Undef, a truth value, an integer, a text, a list of data, or a hash of data whose keys are
/// texts.
#[cycle(is_data)]
pub fn is_data(value: &Value) -> bool
    ensures { result ≡ is_data (view value.now) }
{
    match value {
        Value::Undef => true,
        Value::Flag(_) => true,
        Value::Int(_) => true,
        Value::Text(_) => true,
        Value::List(items) => are_data(items.as_slice()),
        Value::Hash(pairs) => are_data_by_texts(pairs.as_slice()),
        _ => false,
    }
}

#[cycle(is_data)]
fn are_data(items: &[Value]) -> bool
    ensures { result ≡ are_data (data_of (views items.now)) }
{
    for item in items {
        if !is_data(item) {
            return false;
        }
    }
    true
}

#[cycle(is_data)]
fn are_data_by_texts(pairs: &[(Value, Value)]) -> bool
    ensures { result ≡ are_data_by_texts (entries_of (pair_views pairs.now)) }
{
    for (key, value) in pairs {
        if !matches!(key, Value::Text(_)) || !is_data(value) {
            return false;
        }
    }
    true
}
