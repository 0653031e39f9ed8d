//! Values in which nothing is interpolated.
ghost use Rattle.std.specs.Prelude.{◌≡◌};
ghost use Rattle.pp_values.specs.Datum.{data_of, entries_of};
ghost use Rattle.pp_values.specs.Views.{view, views, pair_views};
ghost use Rattle.hiera_config.specs.FileOptions.{is_table};
ghost use Rattle.hiera_config.specs.Literals.{is_literal, are_literal, are_literal_pairs};

use crate::interpolation::interpolates;
use pp_values::Value;

/// Whether no text within the value interpolates anything.
#[cycle(is_literal)]
pub fn is_literal(value: &Value) -> bool
    ensures { result ≡ is_literal (view value.now) }
{
    match value {
        Value::Text(text) => !interpolates(text.as_str()),
        Value::List(items) => are_literal(items.as_slice()),
        Value::Hash(pairs) => are_literal_pairs(pairs.as_slice()),
        _ => true,
    }
}

#[cycle(is_literal)]
fn are_literal(items: &[Value]) -> bool
    ensures { result ≡ are_literal (data_of (views items.now)) }
{
    for item in items {
        if !is_literal(item) {
            return false;
        }
    }
    true
}

#[cycle(is_literal)]
fn are_literal_pairs(pairs: &[(Value, Value)]) -> bool
    ensures { result ≡ are_literal_pairs (entries_of (pair_views pairs.now)) }
{
    for (key, value) in pairs {
        if !is_literal(key) || !is_literal(value) {
            return false;
        }
    }
    true
}

/// Whether it is a hash in which nothing is interpolated.
pub fn is_table(value: &Value) -> bool
    ensures { result ≡ is_table (view value.now) }
{
    match value {
        Value::Hash(_) => is_literal(value),
        _ => false,
    }
}
