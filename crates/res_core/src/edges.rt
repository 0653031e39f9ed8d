use crate::edge::Edge;
use pp_values::Items;

/// A list of edges.
pub type EdgeList = Items<Edge>;
