//! Which resources of a catalog contain which, and which come before which.
ghost use Rattle.std.specs.Prelude.{◌≡◌, ◌<◌, ◌^◌, ◌++◌, length, map, IfOk, OnOk};
ghost use Rattle.rel_graph.specs.CatalogPairs.{containment as contained, relations as related};
ghost use Rattle.rel_graph.specs.Graphs.{containment_pair};
ghost use Rattle.agent_transaction.specs.Runs.{signal_of, signalling as signalling_meant};

use pp_values::Memory;
use rel_graph::{Containers, Containment};
use res_core::{Edge, Held};
use std::alloc::Global;

/// Puts what contains the resource of this index behind the other pairs.
fn put_pairs(member: u32, containers: &[u32], pairs: &mut Vec<(u32, u32)>) -> Result<(), Memory>
    ensures { OnOk result (pairs.new.items ≡ pairs.old.items ++ map (λ c. (c, member)) containers.now) }
{
    for container in containers {
        pairs.push((*container, member))?;
    }
    Ok(())
}

/// Each container with what stands directly inside it.
pub fn containment(alloc: Global, resources: &[Held]) -> Result<Vec<(u32, u32)>, Memory>
    requires { length resources.now < 2 ^ 32 }
    ensures { IfOk result (λ v. v.items ≡ contained resources.now) }
{
    let mut pairs = Vec::new(alloc);
    for (index, held) in resources.iter().enumerate() {
        put_pairs(index as u32, held.inside.as_slice(), &mut pairs)?;
    }
    Ok(pairs)
}

pub fn containers(alloc: Global, pairs: &[(u32, u32)]) -> Result<Containers, Memory>
    ensures { IfOk result (λ l. map containment_pair l ≡ pairs.now) }
{
    let mut items = Vec::new(alloc);
    for pair in pairs {
        items.push(Containment {
            container: pair.0,
            member: pair.1,
        })?;
    }
    Ok(Containers::from_vec(items))
}

/// Each resource with those that it comes before by an edge.
pub fn relations(alloc: Global, edges: &[Edge]) -> Result<Vec<(u32, u32)>, Memory>
    ensures { IfOk result (λ v. v.items ≡ related edges.now) }
{
    let mut pairs = Vec::new(alloc);
    for edge in edges {
        pairs.push((edge.from, edge.to))?;
    }
    Ok(pairs)
}

/// Puts an edge by which a change is signalled behind the other pairs.
fn put_signal(edge: &Edge, pairs: &mut Vec<(u32, u32)>) -> Result<(), Memory>
    ensures { OnOk result (pairs.new.items ≡ pairs.old.items ++ signal_of edge.now) }
{
    if edge.signal {
        pairs.push((edge.from, edge.to))?;
    }
    Ok(())
}

/// Each resource with those that it signals by an edge.
pub fn signalling(alloc: Global, edges: &[Edge]) -> Result<Vec<(u32, u32)>, Memory>
    ensures { IfOk result (λ v. v.items ≡ signalling_meant edges.now) }
{
    let mut pairs = Vec::new(alloc);
    let mut left = edges;
    while let [edge, after @ ..] = left {
        put_signal(edge, &mut pairs)?;
        left = after;
    }
    Ok(pairs)
}
