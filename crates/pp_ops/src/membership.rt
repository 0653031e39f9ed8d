//! The operator `in`.
ghost use Rattle.std.specs.Prelude.{◌≡◌, map};
ghost use Rattle.std.specs.Char.{to_ascii_lowercase};
ghost use Rattle.std.specs.List.{list_any};
ghost use Rattle.pp_values.specs.Equal.{equal};
ghost use Rattle.pp_values.specs.Views.{view, views, pair_views};
ghost use Rattle.pp_ops.specs.Members.{is_in, is_in_text, begins, occurs};

use pp_values::{Text, Value, equal};

/// Whether a value is within another: a text in a text, a member in a list, or a key in a hash.
///
/// A data type on the left, which asks for what it accepts, is the caller's.
pub fn is_in(value: &Value, whole: &Value) -> bool
    ensures { result ≡ is_in (view value.now) (view whole.now) }
{
    match whole {
        Value::Text(text) => is_in_text(value, text),
        Value::List(items) => has_equal(items.as_slice(), value),
        Value::Hash(pairs) => has_key(pairs.as_slice(), value),
        _ => false,
    }
}

fn is_in_text(value: &Value, whole: &Text) -> bool
    ensures { result ≡ is_in_text (view value.now) whole.now }
{
    match value {
        Value::Text(text) => occurs(text.as_str().as_bytes(), whole.as_str().as_bytes()),
        _ => false,
    }
}

fn has_equal(items: &[Value], value: &Value) -> bool
    ensures { result ≡ list_any (equal (view value.now)) (views items.now) }
{
    for item in items {
        if equal(value, item) {
            return true;
        }
    }
    false
}

fn has_key(pairs: &[(Value, Value)], value: &Value) -> bool
    ensures { result ≡ list_any (λ p. equal (view value.now) p.0) (pair_views pairs.now) }
{
    for (key, _) in pairs {
        if equal(value, key) {
            return true;
        }
    }
    false
}

/// Whether the text begins at some place of the other, with ASCII letters folded.
fn occurs(text: &[u8], whole: &[u8]) -> bool
    ensures { result ≡ occurs (map to_ascii_lowercase text.now) (map to_ascii_lowercase whole.now) }
{
    let mut rest = whole;
    while let [_, after @ ..] = rest {
        if begins(rest, text) {
            return true;
        }
        rest = after;
    }
    begins(rest, text)
}

/// Whether the text begins with the other, with ASCII letters folded.
fn begins(text: &[u8], front: &[u8]) -> bool
    ensures { result ≡ begins (map to_ascii_lowercase front.now) (map to_ascii_lowercase text.now) }
{
    for (i, byte) in front.iter().enumerate() {
        if i >= text.len() {
            return false;
        }
        if text[i].to_ascii_lowercase() != byte.to_ascii_lowercase() {
            return false;
        }
    }
    true
}
