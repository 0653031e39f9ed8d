//! Resources are listed one after another, as they become ready.
ghost use Rattle.std.specs.Prelude.{◌≡◌, ◌<◌, ◌^◌, length, IfOk};
ghost use Rattle.rel_graph.specs.Before.{Direct};
ghost use Rattle.rel_graph.specs.Chains.{Paired};
ghost use Rattle.rel_graph.specs.Cycles.{HasNoCycle};
ghost use Rattle.rel_graph.specs.Listing.{Listing, IsStuck};
ghost use Rattle.rel_graph.specs.Pairs.{AllBelow};
ghost use Rattle.rel_graph.specs.Steps.{begin_of, AreArrows, AreTargets};

use crate::arrows::{arrows_of, begin, listed_by, targets_of};
use crate::listed::Listed;
use crate::releasing::{finish, free_of, settle, waits_of};
use std::alloc::{AllocError, Global};
use std::collections::BTreeSet;

/// Lists what is ready, the least index first, as the arrows tell.
fn list_steps(
    alloc: Global,
    containers: &[(u32, u32)],
    edges: &[(u32, u32)],
    count: u32,
    arrows: &[(usize, usize)],
    out: &[Vec<usize>],
) -> Result<Listed, AllocError>
    requires below { AllBelow containers.now count }
    requires edges_below { AllBelow edges.now count }
    requires contains { HasNoCycle (Paired containers.now) }
    requires arrows { AreArrows containers.now edges.now count arrows.now }
    requires arrows_below { AllBelow arrows.now (length out.now) }
    requires few { length arrows.now < 2 ^ 64 }
    requires steps { length out.now ≡ begin_of count }
    requires out { AreTargets arrows.now out.now }
    ensures listing { IfOk result (λ v. Listing (Direct containers.now edges.now) count v.left.items v.order.items) }
    ensures stuck { IfOk result (λ v. IsStuck (Direct containers.now edges.now) v.left.items) }
{
    let mut waits = waits_of(alloc, out.len(), arrows)?;
    let mut free = free_of(alloc, waits.as_slice())?;
    let mut done = vec![in alloc; false; out.len()]?;
    let mut ready = BTreeSet::new(alloc);
    let mut left = vec![in alloc; true; count as usize]?;
    let mut order = Vec::new(alloc);
    loop {
        settle(arrows, out, &mut done, &mut waits, &mut free, &mut ready)?;
        match ready.pop_first() {
            Some(step) => {
                let next = listed_by(step);
                order.push(next)?;
                left[next as usize] = false;
                finish(arrows, out, step, &mut done, &mut waits, &mut free)?;
            }
            None => return Ok(Listed { order, left }),
        }
    }
}

/// Lists what is ready, the least index first, until nothing is. Nothing stands inside itself.
pub fn list_ready(
    alloc: Global,
    containers: &[(u32, u32)],
    edges: &[(u32, u32)],
    count: u32,
) -> Result<Listed, AllocError>
    requires below { AllBelow containers.now count }
    requires edges_below { AllBelow edges.now count }
    requires contains { HasNoCycle (Paired containers.now) }
    ensures listing { IfOk result (λ v. Listing (Direct containers.now edges.now) count v.left.items v.order.items) }
    ensures stuck { IfOk result (λ v. IsStuck (Direct containers.now edges.now) v.left.items) }
{
    let arrows = arrows_of(alloc, containers, edges, count)?;
    let out = targets_of(alloc, begin(count), arrows.as_slice())?;
    list_steps(
        alloc,
        containers,
        edges,
        count,
        arrows.as_slice(),
        out.as_slice(),
    )
}
