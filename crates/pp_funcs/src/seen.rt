//! Values by their texts, so that one that is exactly the same is found without going over all.
ghost use Rattle.std.specs.Prelude.{◌≡◌, ℕ, [], cond, List, IfOk, OnOk};
ghost use Rattle.std.specs.List.{list_any};
ghost use Rattle.std.specs.Str.{bytes_eq};
ghost use Rattle.pp_ops.specs.Same.{same};
ghost use Rattle.pp_values.specs.Views.{view};
ghost use Rattle.pp_funcs.specs.Lists.{behind};
ghost use Rattle.pp_funcs.specs.Seen.{under, Adds, Looks};

use pp_ops::is_same;
use pp_values::{Memory, Text, Value, text_of};
use std::alloc::Global;
use std::collections::BTreeMap;

/// Values that were seen already, under their texts. Values that are exactly the same have the same text.
pub type Seen<'a> = BTreeMap<Text, Vec<&'a Value>>;

/// Whether no value that is exactly the same was seen yet; then it has been seen from now on.
pub fn is_new<'a>(alloc: Global, seen: &mut Seen<'a>, value: &'a Value) -> Result<bool, Memory>
    ensures { IfOk result (λ is_new. Looks (view value.now) is_new seen.old seen.new) }
{
    let text = text_of(alloc, value)?;
    if is_among(seen, &text, value) {
        return Ok(false);
    }
    add(alloc, seen, text, value)?;
    Ok(true)
}

fn is_among(seen: &Seen<'_>, text: &Text, value: &Value) -> bool
    ensures { result ≡ list_any (same (view value.now)) (under text.now seen.now) }
{
    match seen.get(text) {
        Some(alike) => has_same(alike.as_slice(), value),
        None => false,
    }
}

fn has_same(alike: &[&Value], value: &Value) -> bool
    ensures { result ≡ list_any (same (view value.now)) (behind alike.now) }
{
    for other in alike {
        if is_same(value, other) {
            return true;
        }
    }
    false
}

fn add<'a>(alloc: Global, seen: &mut Seen<'a>, text: Text, value: &'a Value) -> Result<(), Memory>
    ensures { OnOk result (Adds text (view value.now) seen.old seen.new) }
{
    let mut alike = taken(alloc, seen, &text);
    alike.push(value)?;
    drop(seen.insert(text, alike)?);
    Ok(())
}

/// Takes out what was seen under a text.
fn taken<'a>(alloc: Global, seen: &mut Seen<'a>, text: &Text) -> Vec<&'a Value>
    ensures value { behind result.items ≡ under text.now seen.old }
    ensures rest { (t : List ℕ) → under t seen.new ≡ cond (bytes_eq text.now t) [] (under t seen.old) }
{
    match seen.remove(text) {
        Some(alike) => alike,
        None => Vec::new(alloc),
    }
}
