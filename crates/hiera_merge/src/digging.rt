//! Parts of a value by a dotted key.
ghost use Rattle.std.specs.Prelude.{◌≡◌, IfOk, map, option_map, option_and_then, slice_get};
ghost use Rattle.pp_values.specs.Datum.{text};
ghost use Rattle.pp_values.specs.Keys.{same_key, value_at};
ghost use Rattle.pp_values.specs.Views.{view, views, pair_views};
ghost use Rattle.hiera_merge.specs.Digging.{parts, root, steps, place_of, place_from, member, dug};

use pp_values::Value;
use std::alloc::{AllocError, Global};

/// The parts of a key between its dots: the root key, which may be empty, and the steps behind it.
pub fn parts(alloc: Global, key: &str) -> Result<Vec<&str>, AllocError>
    ensures { IfOk result (λ v. map (λ x. x.now) v.items ≡ parts key.now) }
{
    key.split('.').collect(alloc)
}

/// The root key among the parts.
pub fn root<'a>(parts: &[&'a str]) -> &'a str
    ensures { result.now ≡ root (map (λ x. x.now) parts.now) }
{
    match parts {
        [root, ..] => root,
        [] => "",
    }
}

/// The steps among the parts.
pub fn steps<'p, 'a>(parts: &'p [&'a str]) -> &'p [&'a str]
    ensures { map (λ x. x.now) result.now ≡ steps (map (λ x. x.now) parts.now) }
{
    match parts {
        [_root, steps @ ..] => steps,
        [] => parts,
    }
}

/// What the steps lead to within the value, if there is something.
pub fn dig<'a>(value: &'a Value, steps: &[&str]) -> Option<&'a Value>
    ensures { option_map (λ v. view v.now) result ≡ dug (map (λ x. x.now) steps.now) (view value.now) }
{
    let mut found = value;
    for step in steps {
        found = member(found, step)?;
    }
    Some(found)
}

/// The value that a hash has for this key as a text, or a list at the place that these decimal digits spell.
pub fn member<'a>(value: &'a Value, step: &str) -> Option<&'a Value>
    ensures { option_map (λ v. view v.now) result ≡ member step.now (view value.now) }
{
    match value {
        Value::Hash(pairs) => value_of(pairs.as_slice(), step),
        Value::List(items) => item_at(items.as_slice(), step),
        _ => None,
    }
}

fn value_of<'a>(pairs: &'a [(Value, Value)], name: &str) -> Option<&'a Value>
    ensures { option_map (λ v. view v.now) result ≡ value_at (text name.now) (pair_views pairs.now) }
{
    for (key, value) in pairs {
        if is_text(key, name) {
            return Some(value);
        }
    }
    None
}

pub fn is_text(key: &Value, name: &str) -> bool
    ensures { result ≡ same_key (text name.now) (view key.now) }
{
    match key {
        Value::Text(text) => name == text.as_str(),
        _ => false,
    }
}

fn item_at<'a>(items: &'a [Value], step: &str) -> Option<&'a Value>
    ensures { option_map (λ v. view v.now) result
        ≡ option_and_then (slice_get (views items.now)) (place_of step.now) }
{
    if step.is_empty() {
        return None;
    }
    item_from(items, step.as_bytes())
}

/// The member at the place that these digits spell. It stops where the digits so far lead past the last member.
#[tactic(auto, using(crate::proofs::Places::at_end))]
fn item_from<'a>(items: &'a [Value], digits: &[u8]) -> Option<&'a Value>
    ensures { option_map (λ v. view v.now) result
        ≡ option_and_then (slice_get (views items.now)) (place_from 0 digits.now) }
{
    let count = items.len() as u128;
    let mut place: u128 = 0;
    let mut left = digits;
    while let [digit, after @ ..] = left {
        if place >= count {
            return None;
        }
        if !digit.is_ascii_digit() {
            return None;
        }
        place = place * 10 + u128::from(digit - b'0');
        left = after;
    }
    if place >= count {
        return None;
    }
    item(items, place as usize)
}

fn item(items: &[Value], place: usize) -> Option<&Value>
    ensures { option_map (λ v. view v.now) result ≡ slice_get (views items.now) place }
{
    items.get(place)
}
