//! The order of resources by containment and relationships, and cycles of these.
#![tactic(auto)]

mod arrows;
mod containment;
mod cycles;
mod distances;
mod graph;
mod laws;
mod listed;
mod listing;
mod points;
mod ranges;
mod releasing;
mod sorting;
mod spans;
mod stops;
mod visits;
mod ways;

pub use containment::{Containers, Containment};
pub use graph::{Edges, Graph, Order, build};
pub use laws::{
    a_greater_count_finds_the_same, a_greater_count_finds_the_same_way, an_order_has_no_cycle,
    the_cycle_is_computed, the_way_is_the_shortest, there_is_an_order, there_is_one_cycle,
    there_is_one_order,
};
pub use ranges::are_below;
pub use stops::{GraphStop, OrderStop};
