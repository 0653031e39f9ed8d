//! Whether indexes are those of resources.
ghost use Rattle.std.specs.Prelude.{◌≡◌, ◌↔◌, true, map, IsTrue};
ghost use Rattle.rel_graph.specs.Graphs.{containment_pair, edge_pair};
ghost use Rattle.rel_graph.specs.Pairs.{AllBelow, AreBelow};

use crate::containment::{Containers, Containment};
use crate::graph::Edges;
use res_core::Edge;

fn containment_below(count: u32, containers: &[Containment]) -> bool
    ensures { IsTrue result ↔ AllBelow (map containment_pair containers.now) count }
{
    for it in containers {
        if it.container >= count || it.member >= count {
            return false;
        }
    }
    true
}

fn edges_below(count: u32, edges: &[Edge]) -> bool
    ensures { IsTrue result ↔ AllBelow (map edge_pair edges.now) count }
{
    for edge in edges {
        if edge.from >= count || edge.to >= count {
            return false;
        }
    }
    true
}

/// What `build` asks for: whether all indexes are below the count.
pub fn are_below(count: u32, containers: &Containers, edges: &Edges) -> bool
    ensures { IsTrue result ↔ AreBelow count (map containment_pair containers.now) (map edge_pair edges.now) }
{
    containment_below(count, containers.as_slice()) && edges_below(count, edges.as_slice())
}
