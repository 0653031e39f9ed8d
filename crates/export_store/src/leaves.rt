//! Leaves in the order of their rows.
ghost use Rattle.std.specs.Prelude.{◌≡◌, ◌+◌, ◌++◌, ◌≤◌, List, length, take, drop, IfOk, OnOk, IsTrue, false, true, option_copied};
ghost use Rattle.std.specs.List.{All};
ghost use Rattle.std.specs.Arc.{arc_value};
ghost use Rattle.std.specs.FinMap.{find, put, is_sorted};
ghost use Rattle.std.specs.FinMap.Entries.{below_all};
ghost use Rattle.pp_values.specs.Rising.{text_cmp};
ghost use Rattle.export_store.specs.Rows.{EntryOf, entries_of, others};
ghost use Rattle.export_store.specs.Levels.{leaves_entries, is_above, Around, IsLeaf, Fits};

use crate::leaf::Leaf;
use crate::row::Row;
use crate::rows::{lie_below, value_of, with_row, without_row};
use pp_values::{Memory, Text};
use std::alloc::Global;
use std::sync::Arc;

/// At which leaf the key's row stands or belongs, found by halving: the first one whose last key isn't below it, or else
/// the last one.
fn leaf_at<V: Drop>(leaves: &[Arc<Leaf<V>>], key: &Text) -> usize
    requires leaves { All IsLeaf leaves.now }
    requires sorted { IsTrue (is_sorted text_cmp (leaves_entries leaves.now)) }
    ensures bound { result ≤ length leaves.now }
    ensures around { Around key.now (leaves_entries (take result leaves.now)) (leaves_entries (drop (result + 1) leaves.now)) }
{
    if leaves.len() == 0 {
        return 0;
    }
    let mut low = 0;
    let mut high = leaves.len() - 1;
    while low < high {
        let middle = low + (high - low) / 2;
        let leaf: &Leaf<V> = &leaves[middle];
        if lie_below(&leaf.rows, key) {
            low = middle + 1;
        } else {
            high = middle;
        }
    }
    low
}

/// Whether the last row of the last leaf has a key below this one.
pub fn leaves_lie_below<V: Drop>(leaves: &[Arc<Leaf<V>>], key: &Text) -> bool
    requires some { 1 ≤ length leaves.now }
    requires leaves { All IsLeaf leaves.now }
    requires sorted { IsTrue (is_sorted text_cmp (leaves_entries leaves.now)) }
    ensures yes { result ≡ true → IsTrue (is_above key.now (leaves_entries leaves.now)) }
    ensures no { result ≡ false → (more : List (EntryOf V))
        → IsTrue (is_sorted text_cmp (leaves_entries leaves.now ++ more)) → IsTrue (below_all text_cmp key.now more) }
{
    let last: &Leaf<V> = &leaves[leaves.len() - 1];
    lie_below(&last.rows, key)
}

/// The leaves with the new row at its place, instead of one of the same key. All but one of them are shared.
pub fn with_leaves<V: Drop>(
    alloc: Global,
    leaves: &[Arc<Leaf<V>>],
    new: Row<V>,
) -> Result<Vec<Arc<Leaf<V>>>, Memory>
    requires leaves { All IsLeaf leaves.now }
    requires sorted { IsTrue (is_sorted text_cmp (leaves_entries leaves.now)) }
    ensures entries { IfOk result (λ v. leaves_entries v.items
        ≡ put text_cmp new.key (arc_value new.value) (leaves_entries leaves.now)) }
    ensures leaves { IfOk result (λ v. All IsLeaf v.items) }
    ensures count { IfOk result (λ v. length v.items ≤ length leaves.now + 2) }
    ensures some { IfOk result (λ v. 1 ≤ length v.items) }
{
    let index = leaf_at(leaves, &new.key);
    let rows = rows_with(alloc, leaves, index, new)?;
    let mut items = Vec::new(alloc);
    push_leaves(&mut items, &leaves[..index])?;
    put_rows(alloc, &mut items, rows)?;
    push_leaves(&mut items, behind(leaves, index))?;
    Ok(items)
}

/// The leaves without the key's row. All but one of them are shared.
pub fn without_leaves<V: Drop>(
    alloc: Global,
    leaves: &[Arc<Leaf<V>>],
    key: &Text,
) -> Result<Vec<Arc<Leaf<V>>>, Memory>
    requires leaves { All IsLeaf leaves.now }
    requires sorted { IsTrue (is_sorted text_cmp (leaves_entries leaves.now)) }
    ensures entries { IfOk result (λ v. leaves_entries v.items ≡ others key.now (leaves_entries leaves.now)) }
    ensures leaves { IfOk result (λ v. All IsLeaf v.items) }
    ensures count { IfOk result (λ v. length v.items ≤ length leaves.now + 1) }
{
    let index = leaf_at(leaves, key);
    let rows = rows_without(alloc, leaves, index, key)?;
    let mut items = Vec::new(alloc);
    push_leaves(&mut items, &leaves[..index])?;
    put_rest(alloc, &mut items, rows)?;
    push_leaves(&mut items, behind(leaves, index))?;
    Ok(items)
}

/// The key's value, if it has one.
pub fn value_in_leaves<'a, V: Drop>(leaves: &'a [Arc<Leaf<V>>], key: &Text) -> Option<&'a V>
    requires leaves { All IsLeaf leaves.now }
    requires sorted { IsTrue (is_sorted text_cmp (leaves_entries leaves.now)) }
    ensures { option_copied result ≡ find text_cmp key.now (leaves_entries leaves.now) }
{
    let index = leaf_at(leaves, key);
    if index < leaves.len() {
        let leaf: &Leaf<V> = &leaves[index];
        return value_of(&leaf.rows, key);
    }
    None
}

/// The rows of the leaf at a place, if there is one, with the new one at its place.
fn rows_with<V: Drop>(
    alloc: Global,
    leaves: &[Arc<Leaf<V>>],
    index: usize,
    new: Row<V>,
) -> Result<Vec<Arc<Row<V>>>, Memory>
    requires leaves { All IsLeaf leaves.now }
    requires sorted { IsTrue (is_sorted text_cmp (leaves_entries leaves.now)) }
    ensures entries { IfOk result (λ v. entries_of v.items
        ≡ put text_cmp new.key (arc_value new.value) (leaves_entries (take 1 (drop index leaves.now)))) }
    ensures some { IfOk result (λ v. 1 ≤ length v.items) }
    ensures few { IfOk result (λ v. length v.items ≤ 65) }
{
    if index < leaves.len() {
        let leaf: &Leaf<V> = &leaves[index];
        let rows = with_row(alloc, &leaf.rows, new)?;
        return Ok(rows);
    }
    let none = Vec::new(alloc);
    let rows = with_row(alloc, &none, new)?;
    Ok(rows)
}

/// The rows of the leaf at a place, if there is one, but for the key's.
fn rows_without<V: Drop>(
    alloc: Global,
    leaves: &[Arc<Leaf<V>>],
    index: usize,
    key: &Text,
) -> Result<Vec<Arc<Row<V>>>, Memory>
    requires { All IsLeaf leaves.now }
    ensures entries { IfOk result (λ v. entries_of v.items
        ≡ others key.now (leaves_entries (take 1 (drop index leaves.now)))) }
    ensures few { IfOk result (λ v. length v.items ≤ 64) }
{
    if index < leaves.len() {
        let leaf: &Leaf<V> = &leaves[index];
        let rows = without_row(alloc, &leaf.rows, key)?;
        return Ok(rows);
    }
    Ok(Vec::new(alloc))
}

/// Appends leaves that are shared with another run.
fn push_leaves<V: Drop>(items: &mut Vec<Arc<Leaf<V>>>, more: &[Arc<Leaf<V>>]) -> Result<(), Memory>
    ensures entries { OnOk result (leaves_entries items.new.items
        ≡ leaves_entries items.old.items ++ leaves_entries more.now) }
    ensures leaves { OnOk result (All IsLeaf items.old.items → All IsLeaf more.now → All IsLeaf items.new.items) }
    ensures count { OnOk result (length items.new.items ≡ length items.old.items + length more.now) }
{
    for leaf in more {
        items.push(leaf.clone()?)?;
    }
    Ok(())
}

/// Appends rows as one leaf, or as two halves.
fn put_rows<V: Drop>(
    alloc: Global,
    items: &mut Vec<Arc<Leaf<V>>>,
    rows: Vec<Arc<Row<V>>>,
) -> Result<(), Memory>
    requires some { 1 ≤ length rows.items }
    requires few { length rows.items ≤ 65 }
    ensures entries { OnOk result (leaves_entries items.new.items
        ≡ leaves_entries items.old.items ++ entries_of rows.items) }
    ensures leaves { OnOk result (All IsLeaf items.old.items → All IsLeaf items.new.items) }
    ensures count { OnOk result (length items.new.items ≤ length items.old.items + 2) }
    ensures some { OnOk result (1 ≤ length items.new.items) }
{
    if rows.len() <= 64 {
        put_leaf(alloc, items, rows)?;
        return Ok(());
    }
    let mut rows = rows;
    let half = rows.split_off(32)?;
    put_leaf(alloc, items, rows)?;
    put_leaf(alloc, items, half)?;
    Ok(())
}

/// Appends rows as one leaf, if there are any.
fn put_rest<V: Drop>(
    alloc: Global,
    items: &mut Vec<Arc<Leaf<V>>>,
    rows: Vec<Arc<Row<V>>>,
) -> Result<(), Memory>
    requires { length rows.items ≤ 64 }
    ensures entries { OnOk result (leaves_entries items.new.items
        ≡ leaves_entries items.old.items ++ entries_of rows.items) }
    ensures leaves { OnOk result (All IsLeaf items.old.items → All IsLeaf items.new.items) }
    ensures count { OnOk result (length items.new.items ≤ length items.old.items + 1) }
{
    if rows.len() == 0 {
        return Ok(());
    }
    put_leaf(alloc, items, rows)?;
    Ok(())
}

/// Appends rows as one leaf.
fn put_leaf<V: Drop>(
    alloc: Global,
    items: &mut Vec<Arc<Leaf<V>>>,
    rows: Vec<Arc<Row<V>>>,
) -> Result<(), Memory>
    requires { Fits rows.items }
    ensures entries { OnOk result (leaves_entries items.new.items
        ≡ leaves_entries items.old.items ++ entries_of rows.items) }
    ensures leaves { OnOk result (All IsLeaf items.old.items → All IsLeaf items.new.items) }
    ensures count { OnOk result (length items.new.items ≡ length items.old.items + 1) }
{
    items.push(Arc::new(alloc, Leaf { rows })?)?;
    Ok(())
}

/// What stands behind a place.
fn behind<V: Drop>(leaves: &[Arc<Leaf<V>>], index: usize) -> &[Arc<Leaf<V>>]
    requires { index ≤ length leaves.now }
    ensures { result.now ≡ drop (index + 1) leaves.now }
{
    if index < leaves.len() {
        &leaves[index + 1..]
    } else {
        &[]
    }
}
