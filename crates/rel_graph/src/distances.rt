//! How far resources stand before one of them.
ghost use Rattle.std.specs.Prelude.{◌≡◌, ℕ, ◌<◌, Some, length, IfOk};
ghost use Rattle.std.specs.List.{All, Contains};
ghost use Rattle.rel_graph.specs.Before.{Direct};
ghost use Rattle.rel_graph.specs.Distances.{AreDistances, distance};
ghost use Rattle.rel_graph.specs.Pairs.{AllBelow};

use crate::visits::visit;
use crate::ways::{flipped, ways_of};
use std::alloc::{AllocError, Global};

/// Gives the level to what was found.
fn number_all(numbers: &mut [Option<u32>], found: &[usize], level: u32)
    requires { All (λ x. x < length numbers.old) found.now }
    ensures given { (x : ℕ) → Contains found.now x → distance numbers.new x ≡ Some level }
    ensures kept { (x : ℕ) → ¬ (Contains found.now x) → distance numbers.new x ≡ distance numbers.old x }
{
    for at in found {
        numbers[*at] = Some(level);
    }
}

/// How many resources stand between each one and the goal on a shortest chain. The search goes back from the goal, and
/// ends when it comes to it again.
pub fn distances(
    alloc: Global,
    containers: &[(u32, u32)],
    edges: &[(u32, u32)],
    count: u32,
    goal: u32,
) -> Result<Vec<Option<u32>>, AllocError>
    requires below { AllBelow containers.now count }
    requires edges_below { AllBelow edges.now count }
    requires goal { goal < count }
    ensures long { IfOk result (λ v. length v.items ≡ count) }
    ensures distances { IfOk result (λ v. AreDistances (Direct containers.now edges.now) goal v.items) }
{
    let back = flipped(alloc, edges)?;
    let ways = ways_of(alloc, containers, back.as_slice(), count)?;
    let mut numbers = vec![in alloc; None; count as usize]?;
    let mut outer = vec![in alloc; false; count as usize]?;
    let mut inner = vec![in alloc; false; count as usize]?;
    let mut front = Vec::new(alloc);
    front.push(goal as usize)?;
    let mut level = 0;
    loop {
        let found = visit(alloc, &ways, front, &mut outer, &mut inner)?;
        if found.is_empty() {
            return Ok(numbers);
        }
        number_all(&mut numbers, found.as_slice(), level);
        if numbers[goal as usize].is_some() {
            return Ok(numbers);
        }
        front = found;
        level += 1;
    }
}
