use crate::shapes::{Shape, edges_of};
use rel_graph::{Containers, GraphStop, OrderStop, are_below, build};
use std::alloc::Global;

/// How many are ordered, where there is an order and memory for it.
pub fn ordered(alloc: Global, shape: Shape, count: u32) -> Option<usize> {
    let containers = Containers::new(alloc);
    let edges = edges_of(alloc, shape, count).ok()?;
    if !are_below(count, &containers, &edges) {
        return None;
    }
    let graph = match build(alloc, count, &containers, &edges) {
        Ok(graph) => graph,
        Err(GraphStop::Contains(_cycle)) => return None,
        Err(GraphStop::Memory) => return None,
    };
    match graph.order(alloc) {
        Ok(order) => Some(order.len()),
        Err(OrderStop::Cycle(_cycle)) => None,
        Err(OrderStop::Memory) => None,
    }
}
