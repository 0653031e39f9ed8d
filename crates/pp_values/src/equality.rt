//! The language's `==`.
ghost use Rattle.std.specs.Prelude.{◌≡◌, map, option_map};
ghost use Rattle.std.specs.Char.{to_ascii_lowercase};
ghost use Rattle.std.specs.Str.{str_eq_ignore_ascii_case};
ghost use Rattle.std.specs.Cmp.Lexicographic.{pointwise};
ghost use Rattle.pp_values.specs.Datum.{entries_of};
ghost use Rattle.pp_values.specs.Equal.{equal, is_within};
ghost use Rattle.pp_values.specs.Views.{view, views, pair_views};

use crate::pairs::Pairs;
use crate::text::Text;
use crate::type_equality::same_type;
use crate::value::Value;

/// The language's `==`: texts fold ASCII letters, hashes compare as maps, values of unlike kinds are unequal.
#[cycle(equal)]
pub fn equal(a: &Value, b: &Value) -> bool
    ensures { result ≡ equal (view a.now) (view b.now) }
{
    match (a, b) {
        (Value::Undef, Value::Undef) => true,
        (Value::Flag(a), Value::Flag(b)) => a == b,
        (Value::Int(a), Value::Int(b)) => a == b,
        (Value::Text(a), Value::Text(b)) => equal_texts(a, b),
        (Value::List(a), Value::List(b)) => equal_items(a.as_slice(), b.as_slice()),
        (Value::Hash(a), Value::Hash(b)) => a.len() == b.len() && is_within(a.as_slice(), b),
        (Value::Ref(a), Value::Ref(b)) => a.get() == b.get(),
        (Value::Kind(a), Value::Kind(b)) => same_type(a.as_type(), b.as_type()),
        (Value::Default, Value::Default) => true,
        _ => false,
    }
}

fn equal_texts(a: &Text, b: &Text) -> bool
    ensures { result ≡ str_eq_ignore_ascii_case a.now b.now }
{
    a.as_str().eq_ignore_ascii_case(b.as_str())
}

#[cycle(equal)]
fn equal_items(a: &[Value], b: &[Value]) -> bool
    ensures { result ≡ pointwise equal (views a.now) (views b.now) }
{
    for (i, item) in a.iter().enumerate() {
        if i >= b.len() || !equal(item, &b[i]) {
            return false;
        }
    }
    a.len() == b.len()
}

/// Whether each key of `a` has an equal value in `b`.
#[cycle(equal)]
fn is_within(a: &[(Value, Value)], b: &Pairs) -> bool
    ensures { result ≡ is_within (entries_of (pair_views a.now)) b.now }
{
    for (place, (key, value)) in a.iter().enumerate() {
        match b.get_near(place, key) {
            Some(other) => {
                if !equal(value, other) {
                    return false;
                }
            }
            None => return false,
        }
    }
    true
}
