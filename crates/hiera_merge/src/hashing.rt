//! Hashes joined one level deep.
ghost use Rattle.std.specs.Prelude.{◌≡◌, ◌∷◌, IfOk, OnOk};
ghost use Rattle.pp_values.specs.Views.{view, views};
ghost use Rattle.hiera_merge.specs.Merges.{pairs_in, with_pairs, hash_merge};

use crate::keyed_pairs::KeyedPairs;
use pp_values::{Memory, Pairs, Value, copy};
use std::alloc::Global;

/// Up to how many pairs each is put after a look at all that are there.
const PAIRS_WITHOUT_TABLE: usize = 16;

/// The pairs of these hashes. The lower's keys stand first, in their places, and the higher's values win.
pub fn hash_merge(alloc: Global, high: &Value, lower: &[Value]) -> Result<Pairs, Memory>
    ensures { IfOk result (λ ps. ps ≡ hash_merge (view high.now ∷ views lower.now)) }
{
    if count_of(high).saturating_add(count_of_all(lower)) <= PAIRS_WITHOUT_TABLE {
        few_merged(alloc, high, lower)
    } else {
        many_merged(alloc, high, lower)
    }
}

/// How many pairs a hash has. It chooses between two ways to one answer, so no clause speaks of it.
fn count_of(value: &Value) -> usize {
    match value {
        Value::Hash(pairs) => pairs.len(),
        _ => 0,
    }
}

fn count_of_all(values: &[Value]) -> usize {
    let mut count: usize = 0;
    for value in values {
        count = count.saturating_add(count_of(value));
    }
    count
}

fn few_merged(alloc: Global, high: &Value, lower: &[Value]) -> Result<Pairs, Memory>
    ensures { IfOk result (λ ps. ps ≡ hash_merge (view high.now ∷ views lower.now)) }
{
    let mut out = merged_lower(alloc, lower)?;
    put_over(alloc, &mut out, high)?;
    Ok(out)
}

fn merged_lower(alloc: Global, lower: &[Value]) -> Result<Pairs, Memory>
    ensures { IfOk result (λ ps. ps ≡ hash_merge (views lower.now)) }
{
    let mut out = Pairs::new(alloc);
    let mut count = lower.len();
    while count > 0 {
        count -= 1;
        put_over(alloc, &mut out, &lower[count])?;
    }
    Ok(out)
}

fn put_over(alloc: Global, out: &mut Pairs, high: &Value) -> Result<(), Memory>
    ensures { OnOk result (out.new ≡ with_pairs (pairs_in (view high.now)) out.old) }
{
    match high {
        Value::Hash(pairs) => put_each(alloc, out, pairs),
        _ => Ok(()),
    }
}

fn put_each(alloc: Global, out: &mut Pairs, pairs: &Pairs) -> Result<(), Memory>
    ensures { OnOk result (out.new ≡ with_pairs pairs.now out.old) }
{
    for (key, value) in pairs.as_slice() {
        let key = copy(alloc, key)?;
        let value = copy(alloc, value)?;
        out.put(key, value)?;
    }
    Ok(())
}

/// Of many pairs, a table tells where each key stands.
fn many_merged(alloc: Global, high: &Value, lower: &[Value]) -> Result<Pairs, Memory>
    ensures { IfOk result (λ ps. ps ≡ hash_merge (view high.now ∷ views lower.now)) }
{
    let below = keyed_lower(alloc, lower)?;
    keyed_over(alloc, below, high)?.into_pairs()
}

fn keyed_lower(alloc: Global, lower: &[Value]) -> Result<KeyedPairs, Memory>
    ensures { IfOk result (λ ps. ps ≡ hash_merge (views lower.now)) }
{
    let mut out = KeyedPairs::new(alloc);
    let mut count = lower.len();
    while count > 0 {
        count -= 1;
        out = keyed_over(alloc, out, &lower[count])?;
    }
    Ok(out)
}

fn keyed_over(alloc: Global, out: KeyedPairs, high: &Value) -> Result<KeyedPairs, Memory>
    ensures { IfOk result (λ ps. ps ≡ with_pairs (pairs_in (view high.now)) out) }
{
    match high {
        Value::Hash(pairs) => keyed_each(alloc, out, pairs),
        _ => Ok(out),
    }
}

fn keyed_each(alloc: Global, out: KeyedPairs, pairs: &Pairs) -> Result<KeyedPairs, Memory>
    ensures { IfOk result (λ ps. ps ≡ with_pairs pairs.now out) }
{
    let mut keyed = out;
    for (key, value) in pairs.as_slice() {
        let key = copy(alloc, key)?;
        let value = copy(alloc, value)?;
        keyed = keyed.with(alloc, key, value)?;
    }
    Ok(keyed)
}
