//! Runs in the order of their rows.
ghost use Rattle.std.specs.Prelude.{◌≡◌, ◌+◌, ◌++◌, ◌≤◌, length, take, drop, IfOk, OnOk, IsTrue, option_copied};
ghost use Rattle.std.specs.List.{All};
ghost use Rattle.std.specs.Arc.{arc_value};
ghost use Rattle.std.specs.FinMap.{find, put, is_sorted};
ghost use Rattle.pp_values.specs.Rising.{text_cmp};
ghost use Rattle.export_store.specs.Rows.{others};
ghost use Rattle.export_store.specs.Levels.{leaves_entries, runs_entries, Around, IsLeaf, IsRun, Fits};

use crate::leaf::Leaf;
use crate::leaves::{leaves_lie_below, value_in_leaves, with_leaves, without_leaves};
use crate::row::Row;
use crate::run::Run;
use pp_values::{Memory, Text};
use std::alloc::Global;
use std::sync::Arc;

/// At which run the key's row stands or belongs, found by halving: the first one whose last key isn't below it, or else
/// the last one.
fn run_at<V: Drop>(runs: &[Arc<Run<V>>], key: &Text) -> usize
    requires runs { All IsRun runs.now }
    requires sorted { IsTrue (is_sorted text_cmp (runs_entries runs.now)) }
    ensures bound { result ≤ length runs.now }
    ensures around { Around key.now (runs_entries (take result runs.now)) (runs_entries (drop (result + 1) runs.now)) }
{
    if runs.len() == 0 {
        return 0;
    }
    let mut low = 0;
    let mut high = runs.len() - 1;
    while low < high {
        let middle = low + (high - low) / 2;
        let run: &Run<V> = &runs[middle];
        if leaves_lie_below(&run.leaves, key) {
            low = middle + 1;
        } else {
            high = middle;
        }
    }
    low
}

/// The runs with the new row at its place, instead of one of the same key. All but one of them are shared, and of that
/// one all leaves but one.
pub fn with_runs<V: Drop>(
    alloc: Global,
    runs: &[Arc<Run<V>>],
    new: Row<V>,
) -> Result<Vec<Arc<Run<V>>>, Memory>
    requires runs { All IsRun runs.now }
    requires sorted { IsTrue (is_sorted text_cmp (runs_entries runs.now)) }
    ensures entries { IfOk result (λ v. runs_entries v.items
        ≡ put text_cmp new.key (arc_value new.value) (runs_entries runs.now)) }
    ensures runs { IfOk result (λ v. All IsRun v.items) }
{
    let index = run_at(runs, &new.key);
    let leaves = leaves_with(alloc, runs, index, new)?;
    let mut items = Vec::new(alloc);
    push_runs(&mut items, &runs[..index])?;
    put_leaves(alloc, &mut items, leaves)?;
    push_runs(&mut items, behind(runs, index))?;
    Ok(items)
}

/// The runs without the key's row. All but one of them are shared, and of that one all leaves but one.
pub fn without_runs<V: Drop>(
    alloc: Global,
    runs: &[Arc<Run<V>>],
    key: &Text,
) -> Result<Vec<Arc<Run<V>>>, Memory>
    requires runs { All IsRun runs.now }
    requires sorted { IsTrue (is_sorted text_cmp (runs_entries runs.now)) }
    ensures entries { IfOk result (λ v. runs_entries v.items ≡ others key.now (runs_entries runs.now)) }
    ensures runs { IfOk result (λ v. All IsRun v.items) }
{
    let index = run_at(runs, key);
    let leaves = leaves_without(alloc, runs, index, key)?;
    let mut items = Vec::new(alloc);
    push_runs(&mut items, &runs[..index])?;
    put_rest(alloc, &mut items, leaves)?;
    push_runs(&mut items, behind(runs, index))?;
    Ok(items)
}

/// The key's value, if it has one.
pub fn value_in_runs<'a, V: Drop>(runs: &'a [Arc<Run<V>>], key: &Text) -> Option<&'a V>
    requires runs { All IsRun runs.now }
    requires sorted { IsTrue (is_sorted text_cmp (runs_entries runs.now)) }
    ensures { option_copied result ≡ find text_cmp key.now (runs_entries runs.now) }
{
    let index = run_at(runs, key);
    if index < runs.len() {
        let run: &Run<V> = &runs[index];
        return value_in_leaves(&run.leaves, key);
    }
    None
}

/// The leaves of the run at a place, if there is one, with the new row at its place.
fn leaves_with<V: Drop>(
    alloc: Global,
    runs: &[Arc<Run<V>>],
    index: usize,
    new: Row<V>,
) -> Result<Vec<Arc<Leaf<V>>>, Memory>
    requires runs { All IsRun runs.now }
    requires sorted { IsTrue (is_sorted text_cmp (runs_entries runs.now)) }
    ensures entries { IfOk result (λ v. leaves_entries v.items
        ≡ put text_cmp new.key (arc_value new.value) (runs_entries (take 1 (drop index runs.now)))) }
    ensures leaves { IfOk result (λ v. All IsLeaf v.items) }
    ensures some { IfOk result (λ v. 1 ≤ length v.items) }
    ensures few { IfOk result (λ v. length v.items ≤ 66) }
{
    if index < runs.len() {
        let run: &Run<V> = &runs[index];
        let leaves = with_leaves(alloc, &run.leaves, new)?;
        return Ok(leaves);
    }
    let none = Vec::new(alloc);
    let leaves = with_leaves(alloc, &none, new)?;
    Ok(leaves)
}

/// The leaves of the run at a place, if there is one, without the key's row.
fn leaves_without<V: Drop>(
    alloc: Global,
    runs: &[Arc<Run<V>>],
    index: usize,
    key: &Text,
) -> Result<Vec<Arc<Leaf<V>>>, Memory>
    requires runs { All IsRun runs.now }
    requires sorted { IsTrue (is_sorted text_cmp (runs_entries runs.now)) }
    ensures entries { IfOk result (λ v. leaves_entries v.items
        ≡ others key.now (runs_entries (take 1 (drop index runs.now)))) }
    ensures leaves { IfOk result (λ v. All IsLeaf v.items) }
    ensures few { IfOk result (λ v. length v.items ≤ 66) }
{
    if index < runs.len() {
        let run: &Run<V> = &runs[index];
        let leaves = without_leaves(alloc, &run.leaves, key)?;
        return Ok(leaves);
    }
    Ok(Vec::new(alloc))
}

/// Appends runs that are shared with another table.
fn push_runs<V: Drop>(items: &mut Vec<Arc<Run<V>>>, more: &[Arc<Run<V>>]) -> Result<(), Memory>
    ensures entries { OnOk result (runs_entries items.new.items
        ≡ runs_entries items.old.items ++ runs_entries more.now) }
    ensures runs { OnOk result (All IsRun items.old.items → All IsRun more.now → All IsRun items.new.items) }
{
    for run in more {
        items.push(run.clone()?)?;
    }
    Ok(())
}

/// Appends leaves as one run, or as two halves.
fn put_leaves<V: Drop>(
    alloc: Global,
    items: &mut Vec<Arc<Run<V>>>,
    leaves: Vec<Arc<Leaf<V>>>,
) -> Result<(), Memory>
    requires some { 1 ≤ length leaves.items }
    requires few { length leaves.items ≤ 66 }
    requires leaves { All IsLeaf leaves.items }
    ensures entries { OnOk result (runs_entries items.new.items
        ≡ runs_entries items.old.items ++ leaves_entries leaves.items) }
    ensures runs { OnOk result (All IsRun items.old.items → All IsRun items.new.items) }
{
    if leaves.len() <= 64 {
        put_run(alloc, items, leaves)?;
        return Ok(());
    }
    let mut leaves = leaves;
    let half = leaves.split_off(32)?;
    put_run(alloc, items, leaves)?;
    put_run(alloc, items, half)?;
    Ok(())
}

/// Appends leaves as one run or as two halves, if there are any.
fn put_rest<V: Drop>(
    alloc: Global,
    items: &mut Vec<Arc<Run<V>>>,
    leaves: Vec<Arc<Leaf<V>>>,
) -> Result<(), Memory>
    requires few { length leaves.items ≤ 66 }
    requires leaves { All IsLeaf leaves.items }
    ensures entries { OnOk result (runs_entries items.new.items
        ≡ runs_entries items.old.items ++ leaves_entries leaves.items) }
    ensures runs { OnOk result (All IsRun items.old.items → All IsRun items.new.items) }
{
    if leaves.len() == 0 {
        return Ok(());
    }
    put_leaves(alloc, items, leaves)?;
    Ok(())
}

/// Appends leaves as one run.
fn put_run<V: Drop>(
    alloc: Global,
    items: &mut Vec<Arc<Run<V>>>,
    leaves: Vec<Arc<Leaf<V>>>,
) -> Result<(), Memory>
    requires fits { Fits leaves.items }
    requires leaves { All IsLeaf leaves.items }
    ensures entries { OnOk result (runs_entries items.new.items
        ≡ runs_entries items.old.items ++ leaves_entries leaves.items) }
    ensures runs { OnOk result (All IsRun items.old.items → All IsRun items.new.items) }
{
    items.push(Arc::new(alloc, Run { leaves })?)?;
    Ok(())
}

/// What stands behind a place.
fn behind<V: Drop>(runs: &[Arc<Run<V>>], index: usize) -> &[Arc<Run<V>>]
    requires { index ≤ length runs.now }
    ensures { result.now ≡ drop (index + 1) runs.now }
{
    if index < runs.len() {
        &runs[index + 1..]
    } else {
        &[]
    }
}
