//! What resources stand directly before, each one found once, however often it is asked.
ghost use Rattle.std.specs.Prelude.{◌≡◌, ◌+◌, ◌<◌, ◌≤◌, ◌++◌, ℕ, Bool, List, [], ◌∷◌, not, length, map, IfOk, OnOk};
ghost use Rattle.std.specs.List.{All, Contains, count_by};
ghost use Rattle.rel_graph.specs.Before.{Belongs, Direct};
ghost use Rattle.rel_graph.specs.Chains.{Paired};
ghost use Rattle.rel_graph.specs.Marks.{Marked};
ghost use Rattle.rel_graph.specs.Pairs.{AllBelow};
ghost use Rattle.rel_graph.specs.Releases.{weight};
ghost use Rattle.rel_graph.specs.Steps.{AreTargets};
ghost use Rattle.rel_graph.specs.Visits.{IsClosed, AreNew, Reaching, AreVisited};
ghost use Rattle.rel_graph.specs.Ways.{AreWays};

use crate::ways::Ways;
use std::alloc::{AllocError, Global};

/// Appends the targets.
fn append(ahead: &mut Vec<usize>, targets: &[usize]) -> Result<(), AllocError>
    ensures { OnOk result (ahead.new.items ≡ ahead.old.items ++ targets.now) }
{
    for target in targets {
        ahead.push(*target)?;
    }
    Ok(())
}

/// Marks what was ahead, unless it is marked: then all that pairs lead to from it is ahead.
fn go_on(
    pairs: &[(u32, u32)],
    out: &[Vec<usize>],
    at: usize,
    marks: &mut [bool],
    ahead: &mut Vec<usize>,
    found: &mut Vec<usize>,
) -> Result<(), AllocError>
    requires below { AllBelow pairs.now (length marks.old) }
    requires long { length out.now ≡ length marks.old }
    requires out { AreTargets pairs.now out.now }
    requires at { at < length marks.old }
    ensures reaching { OnOk result ((before : List Bool) (start : List ℕ) →
        Reaching pairs.now before start marks.old (ahead.old.items ++ at ∷ []) found.old.items →
        Reaching pairs.now before start marks.new ahead.new.items found.new.items) }
    ensures lighter { OnOk result (
        weight (count_by not marks.new) (length pairs.now) + length ahead.new.items ≤
        weight (count_by not marks.old) (length pairs.now) + length ahead.old.items) }
{
    if marks[at] {
        return Ok(());
    }
    marks[at] = true;
    found.push(at)?;
    append(ahead, out[at].as_slice())?;
    Ok(())
}

/// Marks the start, and all that pairs lead to from there, and tells what was not marked before.
fn reach(
    alloc: Global,
    pairs: &[(u32, u32)],
    out: &[Vec<usize>],
    start: Vec<usize>,
    marks: &mut [bool],
) -> Result<Vec<usize>, AllocError>
    requires below { AllBelow pairs.now (length marks.old) }
    requires long { length out.now ≡ length marks.old }
    requires out { AreTargets pairs.now out.now }
    requires start { (v : ℕ) → Contains start.items v → v < length marks.old }
    requires closed { IsClosed pairs.now marks.old }
    ensures { IfOk result (λ f. Reaching pairs.now marks.old start.items marks.new [] f.items) }
{
    let mut ahead = start;
    let mut found = Vec::new(alloc);
    while let Some(at) = ahead.pop() {
        go_on(pairs, out, at, marks, &mut ahead, &mut found)?;
    }
    Ok(found)
}

/// All that pairs lead to directly from what was found.
fn targets_from(
    alloc: Global,
    pairs: &[(u32, u32)],
    out: &[Vec<usize>],
    found: &[usize],
) -> Result<Vec<usize>, AllocError>
    requires out { AreTargets pairs.now out.now }
    requires found { All (λ x. x < length out.now) found.now }
    ensures all { IfOk result (λ t. (x y : ℕ) → Contains found.now x → Paired pairs.now x y → Contains t.items y) }
    ensures sound { IfOk result (λ t. (y : ℕ) → Contains t.items y →
        (x : ℕ) × Contains found.now x × Paired pairs.now x y) }
{
    let mut targets = Vec::new(alloc);
    for at in found {
        append(&mut targets, out[*at].as_slice())?;
    }
    Ok(targets)
}

/// Finds what the start stands directly before, but for what was found before.
pub fn visit(
    alloc: Global,
    ways: &Ways,
    start: Vec<usize>,
    outer: &mut [bool],
    inner: &mut [bool],
) -> Result<Vec<usize>, AllocError>
    requires ways { AreWays (length outer.old) ways.now }
    requires long { length inner.old ≡ length outer.old }
    requires start { (v : ℕ) → Contains start.items v → v < length outer.old }
    requires visited { AreVisited ways.now outer.old inner.old }
    ensures long { OnOk result (length outer.new ≡ length outer.old) }
    ensures visited { OnOk result (AreVisited ways.now outer.new inner.new) }
    ensures news { IfOk result (λ f. AreNew inner.old inner.new f.items) }
    ensures all { OnOk result ((s x : ℕ) → Contains start.items s →
        Direct ways.now.containers.items ways.now.edges.items s x → Marked inner.new x) }
    ensures sound { IfOk result (λ f. (x : ℕ) → Contains f.items x →
        (s : ℕ) × Contains start.items s × Direct ways.now.containers.items ways.now.edges.items s x) }
{
    let found = reach(
        alloc,
        ways.outward.as_slice(),
        ways.up.as_slice(),
        start,
        outer,
    )?;
    let targets = targets_from(
        alloc,
        ways.edges.as_slice(),
        ways.across.as_slice(),
        found.as_slice(),
    )?;
    let below = reach(
        alloc,
        ways.containers.as_slice(),
        ways.down.as_slice(),
        targets,
        inner,
    )?;
    Ok(below)
}
