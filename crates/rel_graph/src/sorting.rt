//! The order, or the cycle that stands in its way.
ghost use Rattle.rel_graph.specs.Chains.{Paired};
ghost use Rattle.rel_graph.specs.Cycles.{HasNoCycle};
ghost use Rattle.rel_graph.specs.Pairs.{AllBelow};
ghost use Rattle.rel_graph.specs.Stops.{Sorts};

use crate::cycles::first_cycle;
use crate::listing::list_ready;
use crate::stops::OrderStop;
use res_core::Indexes;
use std::alloc::Global;

/// The cycle, or else the order. Nothing stands inside itself.
pub fn sort(
    alloc: Global,
    containers: &[(u32, u32)],
    edges: &[(u32, u32)],
    count: u32,
) -> Result<Indexes, OrderStop>
    requires below { AllBelow containers.now count }
    requires edges_below { AllBelow edges.now count }
    requires contains { HasNoCycle (Paired containers.now) }
    ensures { Sorts containers.now edges.now count result }
{
    match first_cycle(alloc, containers, edges, count)? {
        Some(cycle) => Err(OrderStop::Cycle(Indexes::from_vec(cycle))),
        None => {
            let listed = list_ready(alloc, containers, edges, count)?;
            Ok(Indexes::from_vec(listed.order))
        }
    }
}
