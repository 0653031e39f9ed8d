//! Hashes under operators.
ghost use Rattle.std.specs.Prelude.{◌≡◌, ◌++◌, ◌∷◌, [], IfOk, OnOk, IsTrue};
ghost use Rattle.std.specs.List.{list_any};
ghost use Rattle.pp_values.specs.Keys.{are_distinct, same_key};
ghost use Rattle.pp_values.specs.Views.{view, views, pair_views};
ghost use Rattle.pp_ops.specs.Hashes.{merged, overridden, added, named, without_keys};
ghost use Rattle.pp_ops.specs.Indexes.{told, overridden_by, added_by};

use crate::key_index::Keyed;
use pp_values::{Memory, Pairs, Value, copy, same_key};
use std::alloc::Global;

/// Both hashes: the right one wins, the keys of the left one keep their places, and new ones follow.
#[tactic(auto, using(crate::proofs::Merges::are_distinct_merged))]
pub fn merged(alloc: Global, left: &Pairs, right: &Pairs) -> Result<Pairs, Memory>
    ensures { IfOk result (λ l. l ≡ merged left.now right.now) }
{
    let mut items = Vec::new(alloc);
    add_overridden(alloc, &mut items, left.as_slice(), right)?;
    add_new(alloc, &mut items, right.as_slice(), left)?;
    Pairs::from_vec(items)
}

#[tactic(auto, using(crate::proofs::Indexed::same_overridden))]
fn add_overridden(
    alloc: Global,
    out: &mut Vec<(Value, Value)>,
    pairs: &[(Value, Value)],
    others: &Pairs,
) -> Result<(), Memory>
    ensures { OnOk result (pair_views out.new.items
        ≡ pair_views out.old.items ++ overridden others.now (pair_views pairs.now)) }
{
    let others = Keyed::new(alloc, others, pairs.len())?;
    add_overridden_by(alloc, out, pairs, &others)
}

fn add_overridden_by(
    alloc: Global,
    out: &mut Vec<(Value, Value)>,
    pairs: &[(Value, Value)],
    others: &Keyed<'_>,
) -> Result<(), Memory>
    ensures { OnOk result (pair_views out.new.items
        ≡ pair_views out.old.items ++ overridden_by (told others.now) (pair_views pairs.now)) }
{
    for (key, value) in pairs {
        match others.get(key) {
            Some(other) => add_pair(alloc, out, key, other)?,
            None => add_pair(alloc, out, key, value)?,
        }
    }
    Ok(())
}

#[tactic(auto, using(crate::proofs::Indexed::same_added))]
fn add_new(
    alloc: Global,
    out: &mut Vec<(Value, Value)>,
    pairs: &[(Value, Value)],
    had: &Pairs,
) -> Result<(), Memory>
    ensures { OnOk result (pair_views out.new.items
        ≡ pair_views out.old.items ++ added had.now (pair_views pairs.now)) }
{
    let had = Keyed::new(alloc, had, pairs.len())?;
    add_new_by(alloc, out, pairs, &had)
}

fn add_new_by(
    alloc: Global,
    out: &mut Vec<(Value, Value)>,
    pairs: &[(Value, Value)],
    had: &Keyed<'_>,
) -> Result<(), Memory>
    ensures { OnOk result (pair_views out.new.items
        ≡ pair_views out.old.items ++ added_by (told had.now) (pair_views pairs.now)) }
{
    for (key, value) in pairs {
        if had.get(key).is_none() {
            add_pair(alloc, out, key, value)?;
        }
    }
    Ok(())
}

fn add_pair(
    alloc: Global,
    out: &mut Vec<(Value, Value)>,
    key: &Value,
    value: &Value,
) -> Result<(), Memory>
    ensures { OnOk result (pair_views out.new.items ≡ pair_views out.old.items ++ (view key.now, view value.now) ∷ []) }
{
    out.push(copy_pair(alloc, key, value)?)?;
    Ok(())
}

fn copy_pair(alloc: Global, key: &Value, value: &Value) -> Result<(Value, Value), Memory>
    ensures { IfOk result (λ p. (view p.0 ≡ view key.now) × (view p.1 ≡ view value.now)) }
{
    let key = copy(alloc, key)?;
    let value = copy(alloc, value)?;
    Ok((key, value))
}

/// The pairs of a hash whose keys the value does not name: it is a hash with them, a list of them, or one of them.
#[tactic(auto, using(crate::proofs::Merges::distinct_without))]
pub fn without_keys(alloc: Global, pairs: &Pairs, gone: &Value) -> Result<Pairs, Memory>
    ensures { IfOk result (λ l. l ≡ without_keys (named (view gone.now)) pairs.now) }
{
    let mut items = Vec::new(alloc);
    add_unnamed(alloc, &mut items, pairs.as_slice(), gone)?;
    Pairs::from_vec(items)
}

fn add_unnamed(
    alloc: Global,
    out: &mut Vec<(Value, Value)>,
    pairs: &[(Value, Value)],
    gone: &Value,
) -> Result<(), Memory>
    ensures { OnOk result (pair_views out.new.items
        ≡ pair_views out.old.items ++ without_keys (named (view gone.now)) (pair_views pairs.now)) }
{
    for (key, value) in pairs {
        if !names(gone, key) {
            add_pair(alloc, out, key, value)?;
        }
    }
    Ok(())
}

fn names(gone: &Value, key: &Value) -> bool
    ensures { result ≡ list_any (same_key (view key.now)) (named (view gone.now)) }
{
    match gone {
        Value::Hash(pairs) => pairs.get(key).is_some(),
        Value::List(items) => is_listed(items.as_slice(), key),
        _ => same_key(key, gone),
    }
}

fn is_listed(items: &[Value], key: &Value) -> bool
    ensures { result ≡ list_any (same_key (view key.now)) (views items.now) }
{
    for item in items {
        if same_key(key, item) {
            return true;
        }
    }
    false
}
