//! Steps are done one after another, and each one that is done no longer holds others back.
ghost use Rattle.std.specs.Prelude.{◌≡◌, ◌+◌, ◌<◌, ◌≤◌, ◌^◌, ℕ, true, false, [], ◌∷◌, ◌++◌, not, length, slice_index, slice_index_or, slice_set, IfOk, OnOk};
ghost use Rattle.std.specs.List.{All, Contains, count_by};
ghost use Rattle.rel_graph.specs.Pairs.{AllBelow};
ghost use Rattle.rel_graph.specs.Releases.{times, targets, waiting, weight, Released};
ghost use Rattle.rel_graph.specs.Steps.{IsListing, Pending, AreTargets, AreCounted, AreReady};

use crate::arrows::is_listing;
use std::alloc::{AllocError, Global};
use std::collections::BTreeSet;

/// How many arrows lead to each step.
pub fn waits_of(
    alloc: Global,
    steps: usize,
    arrows: &[(usize, usize)],
) -> Result<Vec<usize>, AllocError>
    requires below { AllBelow arrows.now steps }
    requires few { length arrows.now < 2 ^ 64 }
    ensures long { IfOk result (λ v. length v.items ≡ steps) }
    ensures counted { IfOk result (λ v. (x : ℕ) → x < steps → slice_index v.items x ≡ waiting [] arrows.now x) }
{
    let mut waits = vec![in alloc; 0; steps]?;
    for arrow in arrows {
        waits[arrow.1] += 1;
    }
    Ok(waits)
}

/// The steps that wait for nothing.
pub fn free_of(alloc: Global, waits: &[usize]) -> Result<Vec<usize>, AllocError>
    ensures sound { IfOk result (λ f. (v : ℕ) → Contains f.items v →
        (v < length waits.now) × (slice_index waits.now v ≡ 0)) }
    ensures all { IfOk result (λ f. (v : ℕ) → v < length waits.now → slice_index waits.now v ≡ 0 → Contains f.items v) }
{
    let mut free = Vec::new(alloc);
    for step in 0..waits.len() {
        if waits[step] == 0 {
            free.push(step)?;
        }
    }
    Ok(free)
}

/// Takes one from the count of each target, and appends those that wait for nothing more.
fn release(targets: &[usize], waits: &mut [usize], free: &mut Vec<usize>) -> Result<(), AllocError>
    requires within { All (λ t. t < length waits.old) targets.now }
    requires enough { (v : ℕ) → v < length waits.old → times targets.now v ≤ slice_index waits.old v }
    ensures { OnOk result (Released targets.now waits.old waits.new free.old.items free.new.items) }
{
    for target in targets {
        let left = waits[*target] - 1;
        waits[*target] = left;
        if left == 0 {
            free.push(*target)?;
        }
    }
    Ok(())
}

/// Does a step, and appends those that wait for nothing more.
pub fn finish(
    arrows: &[(usize, usize)],
    out: &[Vec<usize>],
    step: usize,
    done: &mut [bool],
    waits: &mut [usize],
    free: &mut Vec<usize>,
) -> Result<(), AllocError>
    requires below { AllBelow arrows.now (length out.now) }
    requires out { AreTargets arrows.now out.now }
    requires step { step < length out.now }
    requires marks { length done.old ≡ length out.now }
    requires counts { length waits.old ≡ length out.now }
    requires enough { (v : ℕ) → v < length out.now → times (targets arrows.now step) v ≤ slice_index waits.old v }
    ensures done { done.new ≡ slice_set done.old step true }
    ensures released { OnOk result (
        Released (targets arrows.now step) waits.old waits.new free.old.items free.new.items) }
{
    done[step] = true;
    release(out[step].as_slice(), waits, free)
}

/// Does a step that waits for nothing, unless it was done. Where it lists a resource, it is ready instead.
fn pass(
    arrows: &[(usize, usize)],
    out: &[Vec<usize>],
    step: usize,
    done: &mut [bool],
    waits: &mut [usize],
    free: &mut Vec<usize>,
    ready: &mut BTreeSet<usize>,
) -> Result<(), AllocError>
    requires below { AllBelow arrows.now (length out.now) }
    requires out { AreTargets arrows.now out.now }
    requires counted { AreCounted arrows.now (length out.now) done.old waits.old
        (Pending (free.old.items ++ step ∷ []) ready.old.keys) }
    requires ready { AreReady done.old ready.old.keys }
    ensures counted { OnOk result (AreCounted arrows.now (length out.now) done.new waits.new
        (Pending free.new.items ready.new.keys)) }
    ensures ready { OnOk result (AreReady done.new ready.new.keys) }
    ensures listings { OnOk result (
        (v : ℕ) → IsListing v → slice_index_or done.new v false ≡ slice_index_or done.old v false) }
    ensures lighter { OnOk result (
        weight (count_by not done.new) (length arrows.now) + length free.new.items ≤
        weight (count_by not done.old) (length arrows.now) + length free.old.items) }
{
    if done[step] {
        return Ok(());
    }
    if is_listing(step) {
        ready.insert(step)?;
        return Ok(());
    }
    finish(arrows, out, step, done, waits, free)?;
    Ok(())
}

/// Does all that is free, and all that this sets free, and so on, until nothing is left but to list what is ready.
pub fn settle(
    arrows: &[(usize, usize)],
    out: &[Vec<usize>],
    done: &mut [bool],
    waits: &mut [usize],
    free: &mut Vec<usize>,
    ready: &mut BTreeSet<usize>,
) -> Result<(), AllocError>
    requires below { AllBelow arrows.now (length out.now) }
    requires out { AreTargets arrows.now out.now }
    requires counted { AreCounted arrows.now (length out.now) done.old waits.old
        (Pending free.old.items ready.old.keys) }
    requires ready { AreReady done.old ready.old.keys }
    ensures free { OnOk result (free.new.items ≡ []) }
    ensures counted { OnOk result (AreCounted arrows.now (length out.now) done.new waits.new
        (Pending [] ready.new.keys)) }
    ensures ready { OnOk result (AreReady done.new ready.new.keys) }
    ensures listings { OnOk result (
        (v : ℕ) → IsListing v → slice_index_or done.new v false ≡ slice_index_or done.old v false) }
{
    while let Some(step) = free.pop() {
        pass(arrows, out, step, done, waits, free, ready)?;
    }
    Ok(())
}
