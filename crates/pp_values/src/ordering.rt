//! The order of values.
ghost use Rattle.std.specs.Prelude.{◌≡◌, map};
ghost use Rattle.std.specs.Char.{to_ascii_lowercase};
ghost use Rattle.std.specs.Ordering.{nat_cmp};
ghost use Rattle.std.specs.Cmp.Lexicographic.{slice_cmp};
ghost use Rattle.pp_values.specs.Order.{order};
ghost use Rattle.pp_values.specs.Views.{view};

use crate::value::Value;
use std::cmp::Ordering;

/// The order of two integers, or of two texts with their ASCII letters folded; other values have none.
pub fn order(a: &Value, b: &Value) -> Option<Ordering>
    ensures { result ≡ order (view a.now) (view b.now) }
{
    match (a, b) {
        (Value::Int(a), Value::Int(b)) => Some(a.cmp(b)),
        (Value::Text(a), Value::Text(b)) => Some(compare_folded(
            a.as_str().as_bytes(),
            b.as_str().as_bytes(),
        )),
        _ => None,
    }
}

/// The order of the bytes, with ASCII letters folded.
fn compare_folded(a: &[u8], b: &[u8]) -> Ordering
    ensures { result ≡ slice_cmp nat_cmp (map to_ascii_lowercase a.now) (map to_ascii_lowercase b.now) }
{
    for (i, byte) in a.iter().enumerate() {
        if i >= b.len() {
            return Ordering::Greater;
        }
        match byte.to_ascii_lowercase().cmp(&b[i].to_ascii_lowercase()) {
            Ordering::Equal => {}
            unequal => return unequal,
        }
    }
    if a.len() < b.len() {
        Ordering::Less
    } else {
        Ordering::Equal
    }
}
