//! The arrows between nodes, two for each resource: where it begins and where it ends.
ghost use Rattle.std.specs.Prelude.{◌≡◌, ◌<◌, ℕ, List, [], length, get_or, IfOk, OnOk};
ghost use Rattle.std.specs.declared.alloc.Global.{Global};
ghost use Rattle.std.specs.declared.vec.Vec.{Vec};
ghost use Rattle.rel_graph.specs.Pairs.{AllBelow};
ghost use Rattle.agent_marks.specs.Nodes.{begin_of, end_of, AreArrows, targets};

use std::alloc::{AllocError, Global};
use std::mem;

/// The node at which a resource begins.
pub fn begin(at: u32) -> usize
    ensures { result ≡ begin_of at }
{
    at as usize + at as usize
}

/// The node at which it ends.
pub fn end(at: u32) -> usize
    ensures { result ≡ end_of at }
{
    at as usize + at as usize + 1
}

/// From a container's begin to a member's, from a member's end to its container's, and from the end of what comes
/// earlier to the begin of what comes later.
pub fn arrows_of(
    alloc: Global,
    containers: &[(u32, u32)],
    edges: &[(u32, u32)],
) -> Result<Vec<(usize, usize)>, AllocError>
    ensures { IfOk result (λ v. AreArrows 0 containers.now edges.now v.items) }
{
    let mut arrows = Vec::new(alloc);
    for pair in containers {
        arrows.push((begin(pair.0), begin(pair.1)))?;
        arrows.push((end(pair.1), end(pair.0)))?;
    }
    for edge in edges {
        arrows.push((end(edge.0), begin(edge.1)))?;
    }
    Ok(arrows)
}

/// Puts an arrow from the begin to the end of each resource behind the others.
pub fn put_through(count: u32, arrows: &mut Vec<(usize, usize)>) -> Result<(), AllocError>
    ensures { OnOk result ((containers edges : List (ℕ × ℕ)) → AreArrows 0 containers edges arrows.old.items →
        AreArrows count containers edges arrows.new.items) }
{
    for at in 0..count {
        arrows.push((begin(at), end(at)))?;
    }
    Ok(())
}

fn no_targets(alloc: Global, nodes: usize) -> Result<Vec<Vec<usize>>, AllocError>
    ensures long { IfOk result (λ v. length v.items ≡ nodes) }
    ensures none { IfOk result (λ v. (u : ℕ) (d : Vec ℕ Global) → u < nodes → (get_or v.items u d).items ≡ []) }
{
    let mut out = Vec::new(alloc);
    for _node in 0..nodes {
        out.push(Vec::new(alloc))?;
    }
    Ok(out)
}

/// Where the arrows of each node lead.
pub fn targets_of(
    alloc: Global,
    nodes: usize,
    arrows: &[(usize, usize)],
) -> Result<Vec<Vec<usize>>, AllocError>
    requires { AllBelow arrows.now nodes }
    ensures long { IfOk result (λ v. length v.items ≡ nodes) }
    ensures out { IfOk result (λ v. (u : ℕ) (d : Vec ℕ Global) → u < nodes → (get_or v.items u d).items ≡ targets arrows.now u) }
{
    let mut out = no_targets(alloc, nodes)?;
    for arrow in arrows {
        let mut held = mem::replace(&mut out[arrow.0], Vec::new(alloc));
        held.push(arrow.1)?;
        out[arrow.0] = held;
    }
    Ok(out)
}
