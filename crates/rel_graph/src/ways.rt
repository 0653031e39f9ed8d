//! Where containment and relationships lead from each resource.
ghost use Rattle.std.specs.Prelude.{◌≡◌, length, map, IfOk};
ghost use Rattle.rel_graph.specs.Pairs.{AllBelow, flip};
ghost use Rattle.rel_graph.specs.Steps.{AreTargets};
ghost use Rattle.rel_graph.specs.Ways.{AreWays};

use crate::arrows::targets_of;
use std::alloc::{AllocError, Global};

/// Pairs, and for each resource where they lead from it.
#[derive(Drop)]
pub struct Ways {
    pub containers: Vec<(u32, u32)>,
    pub outward: Vec<(u32, u32)>,
    pub edges: Vec<(u32, u32)>,
    /// To what contains it directly.
    pub up: Vec<Vec<usize>>,
    pub across: Vec<Vec<usize>>,
    /// To what it contains directly.
    pub down: Vec<Vec<usize>>,
}

/// The pairs the other way round.
pub fn flipped(alloc: Global, pairs: &[(u32, u32)]) -> Result<Vec<(u32, u32)>, AllocError>
    ensures { IfOk result (λ v. v.items ≡ map flip pairs.now) }
{
    pairs.iter().map(|pair| (pair.1, pair.0)).collect(alloc)
}

fn widened(alloc: Global, pairs: &[(u32, u32)]) -> Result<Vec<(usize, usize)>, AllocError>
    ensures { IfOk result (λ v. v.items ≡ pairs.now) }
{
    let mut wide = Vec::new(alloc);
    for pair in pairs {
        wide.push((pair.0 as usize, pair.1 as usize))?;
    }
    Ok(wide)
}

fn table(alloc: Global, count: u32, pairs: &[(u32, u32)]) -> Result<Vec<Vec<usize>>, AllocError>
    requires { AllBelow pairs.now count }
    ensures long { IfOk result (λ v. length v.items ≡ count) }
    ensures out { IfOk result (λ v. AreTargets pairs.now v.items) }
{
    let wide = widened(alloc, pairs)?;
    let out = targets_of(alloc, count as usize, wide.as_slice())?;
    Ok(out)
}

/// Where these pairs lead.
pub fn ways_of(
    alloc: Global,
    containers: &[(u32, u32)],
    edges: &[(u32, u32)],
    count: u32,
) -> Result<Ways, AllocError>
    requires below { AllBelow containers.now count }
    requires edges_below { AllBelow edges.now count }
    ensures ways { IfOk result (AreWays count) }
    ensures containers { IfOk result (λ w. w.containers.items ≡ containers.now) }
    ensures edges { IfOk result (λ w. w.edges.items ≡ edges.now) }
{
    let outward = flipped(alloc, containers)?;
    let up = table(alloc, count, outward.as_slice())?;
    let across = table(alloc, count, edges)?;
    let down = table(alloc, count, containers)?;
    let containers = Vec::from_slice(alloc, containers)?;
    let edges = Vec::from_slice(alloc, edges)?;
    Ok(Ways {
        containers,
        outward,
        edges,
        up,
        across,
        down,
    })
}
