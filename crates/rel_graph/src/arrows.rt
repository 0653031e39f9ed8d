//! The steps of resources, three for each, and the arrows between them: which step waits for which.
ghost use Rattle.std.specs.Prelude.{◌≡◌, ◌↔◌, ◌<◌, ◌^◌, ℕ, List, [], length, get_or, IsTrue, IfOk, OnOk};
ghost use Rattle.std.specs.declared.vec.Vec.{Vec};
ghost use Rattle.std.specs.declared.alloc.Global.{Global};
ghost use Rattle.rel_graph.specs.Pairs.{AllBelow};
ghost use Rattle.rel_graph.specs.Releases.{targets};
ghost use Rattle.rel_graph.specs.Steps.{begin_of, listing_of, end_of, IsListing, AreArrows};

use std::alloc::{AllocError, Global};
use std::mem;

/// A resource begins.
pub fn begin(at: u32) -> usize
    ensures { result ≡ begin_of at }
{
    at as usize * 3
}

/// It is listed.
pub fn listing(at: u32) -> usize
    ensures { result ≡ listing_of at }
{
    at as usize * 3 + 1
}

/// It ends.
pub fn end(at: u32) -> usize
    ensures { result ≡ end_of at }
{
    at as usize * 3 + 2
}

/// Whether a resource is listed by this step.
pub fn is_listing(step: usize) -> bool
    ensures { IsTrue result ↔ IsListing step }
{
    step % 3 == 1
}

/// The resource that is listed by this step.
pub fn listed_by(step: usize) -> u32
    requires { (x : ℕ) × (x < 2 ^ 32) × (step ≡ listing_of x) }
    ensures { step ≡ listing_of result }
{
    (step / 3) as u32
}

/// Each resource begins, then is listed, then ends.
fn put_resources(arrows: &mut Vec<(usize, usize)>, count: u32) -> Result<(), AllocError>
    requires { arrows.old.items ≡ [] }
    ensures { OnOk result (AreArrows [] [] count arrows.new.items) }
{
    for at in 0..count {
        arrows.push((begin(at), listing(at)))?;
        arrows.push((listing(at), end(at)))?;
    }
    Ok(())
}

/// What is contained begins after its container and ends before it.
fn put_containers(
    arrows: &mut Vec<(usize, usize)>,
    containers: &[(u32, u32)],
) -> Result<(), AllocError>
    ensures { OnOk result ((count : ℕ) →
        AreArrows [] [] count arrows.old.items → AreArrows containers.now [] count arrows.new.items) }
{
    for pair in containers {
        arrows.push((begin(pair.0), begin(pair.1)))?;
        arrows.push((end(pair.1), end(pair.0)))?;
    }
    Ok(())
}

/// What comes later begins after what comes earlier has ended.
fn put_edges(arrows: &mut Vec<(usize, usize)>, edges: &[(u32, u32)]) -> Result<(), AllocError>
    ensures { OnOk result ((containers : List (ℕ × ℕ)) (count : ℕ) →
        AreArrows containers [] count arrows.old.items → AreArrows containers edges.now count arrows.new.items) }
{
    for edge in edges {
        arrows.push((end(edge.0), begin(edge.1)))?;
    }
    Ok(())
}

/// All arrows.
pub fn arrows_of(
    alloc: Global,
    containers: &[(u32, u32)],
    edges: &[(u32, u32)],
    count: u32,
) -> Result<Vec<(usize, usize)>, AllocError>
    ensures { IfOk result (λ v. AreArrows containers.now edges.now count v.items) }
{
    let mut arrows = Vec::new(alloc);
    put_resources(&mut arrows, count)?;
    put_containers(&mut arrows, containers)?;
    put_edges(&mut arrows, edges)?;
    Ok(arrows)
}

fn no_targets(alloc: Global, steps: usize) -> Result<Vec<Vec<usize>>, AllocError>
    ensures long { IfOk result (λ v. length v.items ≡ steps) }
    ensures none { IfOk result (λ v. (u : ℕ) (d : Vec ℕ Global) → u < steps → (get_or v.items u d).items ≡ []) }
{
    let mut out = Vec::new(alloc);
    for _step in 0..steps {
        out.push(Vec::new(alloc))?;
    }
    Ok(out)
}

/// Where the arrows from each step lead.
pub fn targets_of(
    alloc: Global,
    steps: usize,
    arrows: &[(usize, usize)],
) -> Result<Vec<Vec<usize>>, AllocError>
    requires { AllBelow arrows.now steps }
    ensures long { IfOk result (λ v. length v.items ≡ steps) }
    ensures out { IfOk result (λ v. (u : ℕ) (d : Vec ℕ Global) → u < steps →
        (get_or v.items u d).items ≡ targets arrows.now u) }
{
    let mut out = no_targets(alloc, steps)?;
    for arrow in arrows {
        let mut held = mem::replace(&mut out[arrow.0], Vec::new(alloc));
        held.push(arrow.1)?;
        out[arrow.0] = held;
    }
    Ok(out)
}
