//! Exact sameness of values.
ghost use Rattle.std.specs.Prelude.{◌≡◌};
ghost use Rattle.std.specs.Cmp.Lexicographic.{pointwise};
ghost use Rattle.pp_values.specs.Views.{view, views, pair_views};
ghost use Rattle.pp_ops.specs.Same.{same, same_pair};

use pp_values::{Value, same_type};

/// Whether two values are the same in every part: texts letter by letter, hashes with their pairs in one order.
#[cycle(same)]
pub fn is_same(a: &Value, b: &Value) -> bool
    ensures { result ≡ same (view a.now) (view b.now) }
{
    match (a, b) {
        (Value::Undef, Value::Undef) => true,
        (Value::Flag(a), Value::Flag(b)) => a == b,
        (Value::Int(a), Value::Int(b)) => a == b,
        (Value::Text(a), Value::Text(b)) => a == b,
        (Value::List(a), Value::List(b)) => are_same(a.as_slice(), b.as_slice()),
        (Value::Hash(a), Value::Hash(b)) => have_same(a.as_slice(), b.as_slice()),
        (Value::Ref(a), Value::Ref(b)) => a.get() == b.get(),
        (Value::Kind(a), Value::Kind(b)) => same_type(a.as_type(), b.as_type()),
        (Value::Default, Value::Default) => true,
        _ => false,
    }
}

#[cycle(same)]
fn are_same(a: &[Value], b: &[Value]) -> bool
    ensures { result ≡ pointwise same (views a.now) (views b.now) }
{
    for (i, item) in a.iter().enumerate() {
        if i >= b.len() || !is_same(item, &b[i]) {
            return false;
        }
    }
    a.len() == b.len()
}

#[cycle(same)]
fn have_same(a: &[(Value, Value)], b: &[(Value, Value)]) -> bool
    ensures { result ≡ pointwise same_pair (pair_views a.now) (pair_views b.now) }
{
    for (i, (key, value)) in a.iter().enumerate() {
        if i >= b.len() || !is_same(key, &b[i].0) || !is_same(value, &b[i].1) {
            return false;
        }
    }
    a.len() == b.len()
}
