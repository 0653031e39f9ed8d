//! The cycle that is told.
ghost use Rattle.std.specs.Prelude.{◌≡◌, ◌↔◌, ◌⊎◌, ℕ, ◌<◌, Some, length, IsTrue, IfOk, OnOk, IfNone, IfSome};
ghost use Rattle.std.specs.List.{All, Contains};
ghost use Rattle.rel_graph.specs.Before.{Direct, Before};
ghost use Rattle.rel_graph.specs.Cycles.{IsCycle, HasNoCycle, NoneBelow};
ghost use Rattle.rel_graph.specs.Distances.{AreDistances, IsBestCycle, IsStep, IsLeastOf, distance};
ghost use Rattle.rel_graph.specs.Marks.{Marked};
ghost use Rattle.rel_graph.specs.Pairs.{AllBelow};
ghost use Rattle.rel_graph.specs.Spans.{span};
ghost use Rattle.rel_graph.specs.Visits.{AreVisited};
ghost use Rattle.rel_graph.specs.Ways.{AreWays};

use crate::distances::distances;
use crate::points::laid_out;
use crate::spans::{is_line, span};
use crate::visits::visit;
use crate::ways::{Ways, ways_of};
use std::alloc::{AllocError, Global};

fn is_far(number: Option<u32>, left: u32) -> bool
    ensures { IsTrue result ↔ (number ≡ Some left) }
{
    match number {
        Some(between) => between == left,
        None => false,
    }
}

/// The least of these that is so far from the goal.
fn least_of(found: &[usize], numbers: &[Option<u32>], left: u32) -> usize
    requires found { All (λ x. x < length numbers.now) found.now }
    requires some { (x : ℕ) × Contains found.now x × (distance numbers.now x ≡ Some left) }
    ensures { IsLeastOf found.now numbers.now left result }
{
    let mut least = numbers.len();
    for at in found {
        if *at < least && is_far(numbers[*at], left) {
            least = *at;
        }
    }
    least
}

/// The least index that a resource stands directly before and that is so far from the goal. What was found before is
/// farther away.
fn next_towards(
    alloc: Global,
    ways: &Ways,
    numbers: &[Option<u32>],
    from: u32,
    left: u32,
    outer: &mut [bool],
    inner: &mut [bool],
) -> Result<usize, AllocError>
    requires ways { AreWays (length outer.old) ways.now }
    requires long { length inner.old ≡ length outer.old }
    requires numbers { length numbers.now ≡ length outer.old }
    requires from { from < length outer.old }
    requires visited { AreVisited ways.now outer.old inner.old }
    requires farther { (x : ℕ) → Marked inner.old x → ¬ (distance numbers.now x ≡ Some left) }
    requires some { (x : ℕ) × Direct ways.now.containers.items ways.now.edges.items from x ×
        (distance numbers.now x ≡ Some left) }
    ensures step { IfOk result (IsStep (Direct ways.now.containers.items ways.now.edges.items) numbers.now from left) }
    ensures outer { OnOk result (length outer.new ≡ length outer.old) }
    ensures inner { OnOk result (length inner.new ≡ length inner.old) }
    ensures visited { OnOk result (AreVisited ways.now outer.new inner.new) }
    ensures found { OnOk result ((x : ℕ) → Marked inner.new x →
        Marked inner.old x ⊎ Direct ways.now.containers.items ways.now.edges.items from x) }
{
    let mut start = Vec::new(alloc);
    start.push(from as usize)?;
    let found = visit(alloc, ways, start, outer, inner)?;
    Ok(least_of(found.as_slice(), numbers, left))
}

/// The least of the shortest cycles from the goal on.
fn trace(
    alloc: Global,
    containers: &[(u32, u32)],
    edges: &[(u32, u32)],
    count: u32,
    numbers: &[Option<u32>],
    goal: u32,
    between: u32,
) -> Result<Vec<u32>, AllocError>
    requires below { AllBelow containers.now count }
    requires edges_below { AllBelow edges.now count }
    requires goal { goal < count }
    requires long { length numbers.now ≡ count }
    requires distances { AreDistances (Direct containers.now edges.now) goal numbers.now }
    requires far { distance numbers.now goal ≡ Some between }
    ensures { IfOk result (λ v. IsBestCycle (Direct containers.now edges.now) goal between v.items) }
{
    let ways = ways_of(alloc, containers, edges, count)?;
    let mut outer = vec![in alloc; false; count as usize]?;
    let mut inner = vec![in alloc; false; count as usize]?;
    let mut cycle = Vec::new(alloc);
    cycle.push(goal)?;
    let mut at = goal;
    let mut left = between;
    while left > 0 {
        left -= 1;
        let next = next_towards(alloc, &ways, numbers, at, left, &mut outer, &mut inner)?;
        at = next as u32;
        cycle.push(at)?;
    }
    Ok(cycle)
}

/// Whether a line shows that this resource does not come before itself.
fn is_apart(spans: &[(usize, usize)], at: u32) -> bool
    ensures { IsTrue result ↔ (span spans.now at).0 < (span spans.now at).1 }
{
    let found = span(spans, at);
    found.0 < found.1
}

/// The cycle, where no lesser resource comes before itself, or none where this one does not.
fn cycle_from(
    alloc: Global,
    containers: &[(u32, u32)],
    edges: &[(u32, u32)],
    count: u32,
    start: u32,
) -> Result<Option<Vec<u32>>, AllocError>
    requires below { AllBelow containers.now count }
    requires edges_below { AllBelow edges.now count }
    requires start { start < count }
    ensures none { IfOk result (λ o. IfNone o (¬ (Before containers.now edges.now start start))) }
    ensures some { IfOk result (λ o. IfSome o (λ v.
        NoneBelow (Direct containers.now edges.now) start → IsCycle (Direct containers.now edges.now) v.items)) }
{
    let numbers = distances(alloc, containers, edges, count, start)?;
    match numbers[start as usize] {
        Some(between) => {
            let cycle = trace(
                alloc,
                containers,
                edges,
                count,
                numbers.as_slice(),
                start,
                between,
            )?;
            Ok(Some(cycle))
        }
        None => Ok(None),
    }
}

/// The cycle that is told, or none where no resource comes before itself. Where a line shows that a resource doesn't, no
/// cycle is looked for from there.
pub fn first_cycle(
    alloc: Global,
    containers: &[(u32, u32)],
    edges: &[(u32, u32)],
    count: u32,
) -> Result<Option<Vec<u32>>, AllocError>
    requires below { AllBelow containers.now count }
    requires edges_below { AllBelow edges.now count }
    ensures none { IfOk result (λ o. IfNone o (HasNoCycle (Direct containers.now edges.now))) }
    ensures some { IfOk result (λ o. IfSome o (λ v. IsCycle (Direct containers.now edges.now) v.items)) }
{
    let spans = laid_out(alloc, containers, edges, count)?;
    let lined_up = is_line(0, spans.as_slice(), containers, edges);
    for start in 0..count {
        if lined_up && is_apart(spans.as_slice(), start) {
            continue;
        }
        if let Some(cycle) = cycle_from(alloc, containers, edges, count, start)? {
            return Ok(Some(cycle));
        }
    }
    Ok(None)
}
