//! The keys of a hash.
ghost use Rattle.std.specs.Prelude.{◌≡◌, IfOk};
ghost use Rattle.pp_values.specs.Keys.{is_key, same_key};
ghost use Rattle.pp_values.specs.Views.{view};

use crate::value::Value;

/// Whether the value can be a key of a hash: an integer or a text.
pub fn is_key(value: &Value) -> bool
    ensures { result ≡ is_key (view value.now) }
{
    matches!(value, Value::Int(_) | Value::Text(_))
}

/// Whether two keys are the same, letter by letter. Other values are no keys, and the same as none.
pub fn same_key(a: &Value, b: &Value) -> bool
    ensures { result ≡ same_key (view a.now) (view b.now) }
{
    match (a, b) {
        (Value::Int(a), Value::Int(b)) => a == b,
        (Value::Text(a), Value::Text(b)) => a == b,
        _ => false,
    }
}
