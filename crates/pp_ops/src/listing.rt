//! Lists under operators.
ghost use Rattle.std.specs.Prelude.{◌≡◌, ◌++◌, [], ◌∷◌, IfOk, OnOk, map};
ghost use Rattle.std.specs.List.{list_any};
ghost use Rattle.pp_values.specs.Views.{view, views, pair_views};
ghost use Rattle.pp_ops.specs.Lists.{pair_list, as_members, taken_off, without};
ghost use Rattle.pp_ops.specs.Same.{same};

use crate::sameness::is_same;
use pp_values::{Memory, Value, Values, copy};
use std::alloc::Global;

/// A list, and behind it the members of another, the pairs of a hash as lists of two, or one more member.
pub fn extended(alloc: Global, front: &[Value], more: &Value) -> Result<Values, Memory>
    ensures { IfOk result (λ l. l ≡ views front.now ++ as_members (view more.now)) }
{
    match more {
        Value::List(items) => joined(alloc, front, items.as_slice()),
        Value::Hash(pairs) => with_pairs(alloc, front, pairs.as_slice()),
        _ => with_member(alloc, front, more),
    }
}

/// Two lists joined.
fn joined(alloc: Global, front: &[Value], back: &[Value]) -> Result<Values, Memory>
    ensures { IfOk result (λ l. l ≡ views front.now ++ views back.now) }
{
    let mut items = Values::new(alloc);
    add_copies(alloc, &mut items, front)?;
    add_copies(alloc, &mut items, back)?;
    Ok(items)
}

/// A list, and behind it the pairs of a hash as lists of two.
fn with_pairs(alloc: Global, front: &[Value], pairs: &[(Value, Value)]) -> Result<Values, Memory>
    ensures { IfOk result (λ l. l ≡ views front.now ++ map pair_list (pair_views pairs.now)) }
{
    let mut items = Values::new(alloc);
    add_copies(alloc, &mut items, front)?;
    add_pairs(alloc, &mut items, pairs)?;
    Ok(items)
}

/// A list, and behind it one more member.
pub fn with_member(alloc: Global, front: &[Value], member: &Value) -> Result<Values, Memory>
    ensures { IfOk result (λ l. l ≡ views front.now ++ view member.now ∷ []) }
{
    let mut items = Values::new(alloc);
    add_copies(alloc, &mut items, front)?;
    items.push(copy(alloc, member)?)?;
    Ok(items)
}

/// The members of a list that the value does not take off: it is a list of them, or one of them.
pub fn without(alloc: Global, items: &[Value], gone: &Value) -> Result<Values, Memory>
    ensures { IfOk result (λ l. l ≡ without (taken_off (view gone.now)) (views items.now)) }
{
    let mut kept = Values::new(alloc);
    for item in items {
        if !takes_off(gone, item) {
            kept.push(copy(alloc, item)?)?;
        }
    }
    Ok(kept)
}

fn takes_off(gone: &Value, item: &Value) -> bool
    ensures { result ≡ list_any (same (view item.now)) (taken_off (view gone.now)) }
{
    match gone {
        Value::List(others) => has_same(others.as_slice(), item),
        _ => is_same(item, gone),
    }
}

/// Whether some value of the list is exactly the same as this one.
pub fn has_same(items: &[Value], value: &Value) -> bool
    ensures { result ≡ list_any (same (view value.now)) (views items.now) }
{
    for item in items {
        if is_same(value, item) {
            return true;
        }
    }
    false
}

/// Appends copies of these values.
pub fn add_copies(alloc: Global, out: &mut Values, items: &[Value]) -> Result<(), Memory>
    ensures { OnOk result (out.new ≡ out.old ++ views items.now) }
{
    for item in items {
        out.push(copy(alloc, item)?)?;
    }
    Ok(())
}

fn add_pairs(alloc: Global, out: &mut Values, pairs: &[(Value, Value)]) -> Result<(), Memory>
    ensures { OnOk result (out.new ≡ out.old ++ map pair_list (pair_views pairs.now)) }
{
    for (key, value) in pairs {
        out.push(Value::List(two(alloc, key, value)?))?;
    }
    Ok(())
}

fn two(alloc: Global, first: &Value, second: &Value) -> Result<Values, Memory>
    ensures { IfOk result (λ l. l ≡ view first.now ∷ view second.now ∷ []) }
{
    let mut items = Values::new(alloc);
    items.push(copy(alloc, first)?)?;
    items.push(copy(alloc, second)?)?;
    Ok(items)
}
