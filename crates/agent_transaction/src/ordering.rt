//! The order of the turns.
ghost use Rattle.std.specs.Prelude.{◌≡◌, ℕ, List, length, map, ◌++◌, IfOk, OnOk, option_copied, slice_get};
ghost use Rattle.rel_graph.specs.CatalogPairs.{containment, relations};
ghost use Rattle.rel_graph.specs.Graphs.{containment_pair};
ghost use Rattle.rel_graph.specs.Pairs.{AllBelow};
ghost use Rattle.res_core.specs.Catalogs.{reference_of as reference_meant};
ghost use Rattle.agent_transaction.specs.Catalogs.{reference_at as reference_meant_at, references_at as references_meant};
ghost use Rattle.agent_transaction.specs.Preparing.{StopTells, OrderGives};

use crate::run_stop::RunStop;
use pp_values::{Memory, Reference, Refs};
use rel_graph::{Containers, GraphStop, Order, OrderStop, build};
use res_core::{EdgeList, Held};
use std::alloc::Global;

fn reference_of(alloc: Global, held: &Held) -> Result<Reference, Memory>
    ensures { IfOk result (λ r. r ≡ reference_meant held.now) }
{
    let resource = held.item.as_resource();
    Ok(Reference {
        kind: resource.kind.copy(alloc)?,
        title: resource.title.copy(alloc)?,
    })
}

fn held_at(resources: &[Held], index: u32) -> Option<&Held>
    ensures { option_copied result ≡ slice_get resources.now index }
{
    resources.get(index as usize)
}

/// Puts the reference of the resource at this index behind the others.
fn put_reference(
    alloc: Global,
    resources: &[Held],
    index: u32,
    references: &mut Vec<Reference>,
) -> Result<(), Memory>
    ensures { OnOk result (references.new.items ≡ references.old.items ++ reference_meant_at resources.now index) }
{
    match held_at(resources, index) {
        Some(held) => references.push(reference_of(alloc, held)?)?,
        None => {}
    }
    Ok(())
}

fn references_at(alloc: Global, resources: &[Held], indexes: &[u32]) -> Result<Refs, Memory>
    ensures { IfOk result (λ l. l ≡ references_meant resources.now indexes.now) }
{
    let mut items = Vec::new(alloc);
    let mut left = indexes;
    while let [index, after @ ..] = left {
        put_reference(alloc, resources, *index, &mut items)?;
        left = after;
    }
    Ok(Refs::from_vec(items))
}

fn cycle_told(alloc: Global, resources: &[Held], cycle: &[u32]) -> RunStop
    ensures { StopTells resources.now cycle.now result }
{
    match references_at(alloc, resources, cycle) {
        Ok(references) => RunStop::Cycle(references),
        Err(Memory) => RunStop::Memory,
    }
}

/// The order in which the resources have their turns, or the cycle that stands in its way.
pub fn order_of(
    alloc: Global,
    count: u32,
    resources: &[Held],
    containers: &Containers,
    edges: &EdgeList,
) -> Result<Order, RunStop>
    requires count { count ≡ length resources.now }
    requires containers { map containment_pair containers.now ≡ containment resources.now }
    requires below { AllBelow (containment resources.now) count }
    requires edges_below { AllBelow (relations edges.now) count }
    ensures { OrderGives resources.now edges.now result }
{
    match build(alloc, count, containers, edges) {
        Ok(graph) => match graph.order(alloc) {
            Ok(order) => Ok(order),
            Err(OrderStop::Cycle(cycle)) => Err(cycle_told(alloc, resources, cycle.as_slice())),
            Err(OrderStop::Memory) => Err(RunStop::Memory),
        },
        Err(GraphStop::Contains(cycle)) => Err(cycle_told(alloc, resources, cycle.as_slice())),
        Err(GraphStop::Memory) => Err(RunStop::Memory),
    }
}
