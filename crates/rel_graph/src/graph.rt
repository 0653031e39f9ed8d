ghost use Rattle.std.specs.Prelude.{◌≡◌, true, false, map, IfOk, MatchResult};
ghost use Rattle.rel_graph.specs.Before.{Direct, SomeBeforeItself};
ghost use Rattle.rel_graph.specs.Chains.{Paired};
ghost use Rattle.rel_graph.specs.Cycles.{HasNoCycle};
ghost use Rattle.rel_graph.specs.Graphs.{IsCyclic, containment_pair, edge_pair};
ghost use Rattle.rel_graph.specs.Pairs.{AllBelow};
ghost use Rattle.rel_graph.specs.Stops.{IsContainedStop, Builds, Sorts};

use crate::containment::{Containers, Containment};
use crate::cycles::first_cycle;
use crate::points::laid_out;
use crate::sorting::sort;
use crate::spans::is_line;
use crate::stops::{GraphStop, OrderStop};
use res_core::{Edge, EdgeList, Indexes};
use std::alloc::{AllocError, Global};
use std::marker::Model;

/// Which resources come before which, each one once, however many edges join two of them.
pub type Edges = EdgeList;

/// All resources by their indexes.
pub type Order = Indexes;

/// So many resources, which of them contain which, and which come before which.
#[derive(Drop)]
pub struct Graph {
    count: u32,
    containers: Vec<(u32, u32)>,
    edges: Vec<(u32, u32)>,
    cyclic: bool,
}

impl Model for Graph {
    ghost use Rattle.rel_graph.specs.Graphs.{Relations, AreRelations};

    ghost Value = { Relations };

    ghost view = { λ g. record { count = g.count; containers = g.containers.items; edges = g.edges.items } };

    ghost invariant = { λ g. AreRelations g.count g.containers.items g.edges.items g.cyclic };
}

fn containment_pairs(
    alloc: Global,
    containers: &[Containment],
) -> Result<Vec<(u32, u32)>, AllocError>
    ensures { IfOk result (λ v. v.items ≡ map containment_pair containers.now) }
{
    containers
        .iter()
        .map(|it| (it.container, it.member))
        .collect(alloc)
}

fn edge_pairs(alloc: Global, edges: &[Edge]) -> Result<Vec<(u32, u32)>, AllocError>
    ensures { IfOk result (λ v. v.items ≡ map edge_pair edges.now) }
{
    edges.iter().map(|edge| (edge.from, edge.to)).collect(alloc)
}

/// Refuses containment that leads from a resource back to itself.
fn check_containment(alloc: Global, containers: &[(u32, u32)], count: u32) -> Result<(), GraphStop>
    requires { AllBelow containers.now count }
    ensures { MatchResult result (λ _. HasNoCycle (Paired containers.now)) (IsContainedStop (Paired containers.now)) }
{
    match first_cycle(alloc, &[], containers, count)? {
        Some(cycle) => Err(GraphStop::Contains(Indexes::from_vec(cycle))),
        None => Ok(()),
    }
}

/// Whether some resource comes before itself.
fn is_cyclic(
    alloc: Global,
    containers: &[(u32, u32)],
    edges: &[(u32, u32)],
    count: u32,
) -> Result<bool, AllocError>
    requires below { AllBelow containers.now count }
    requires edges_below { AllBelow edges.now count }
    ensures no { IfOk result (λ b. b ≡ false → HasNoCycle (Direct containers.now edges.now)) }
    ensures yes { IfOk result (λ b. b ≡ true → SomeBeforeItself containers.now edges.now) }
{
    match first_cycle(alloc, containers, edges, count)? {
        Some(_cycle) => Ok(true),
        None => Ok(false),
    }
}

/// Whether some resource comes before itself, where none stands inside itself. Cycles are looked for only where the
/// resources can't be laid out on a line with a gap.
fn cyclic_of(
    alloc: Global,
    containers: &[(u32, u32)],
    edges: &[(u32, u32)],
    count: u32,
) -> Result<bool, GraphStop>
    requires below { AllBelow containers.now count }
    requires edges_below { AllBelow edges.now count }
    ensures { MatchResult result (IsCyclic containers.now edges.now) (IsContainedStop (Paired containers.now)) }
{
    let spans = laid_out(alloc, containers, edges, count)?;
    if is_line(1, spans.as_slice(), containers, edges) {
        return Ok(false);
    }
    check_containment(alloc, containers, count)?;
    let cyclic = is_cyclic(alloc, containers, edges, count)?;
    Ok(cyclic)
}

/// A graph, unless containment leads from a resource back to itself. Of the edges the pairs alone count here, and not
/// which of them signal.
pub fn build(
    alloc: Global,
    count: u32,
    containers: &Containers,
    edges: &Edges,
) -> Result<Graph, GraphStop>
    requires below { AllBelow (map containment_pair containers.now) count }
    requires edges_below { AllBelow (map edge_pair edges.now) count }
    ensures { Builds count (map containment_pair containers.now) (map edge_pair edges.now) result }
{
    let containers = containment_pairs(alloc, containers.as_slice())?;
    let edges = edge_pairs(alloc, edges.as_slice())?;
    let cyclic = cyclic_of(alloc, containers.as_slice(), edges.as_slice(), count)?;
    Ok(Graph {
        count,
        containers,
        edges,
        cyclic,
    })
}

impl Graph {
    /// Whether some resource comes before itself.
    pub fn has_cycle(&self) -> bool
        ensures no { result ≡ false → HasNoCycle (Direct self.now.containers self.now.edges) }
        ensures yes { result ≡ true → SomeBeforeItself self.now.containers self.now.edges }
    {
        self.cyclic
    }

    /// All resources, each after those that come before it, and where several could be next the one with the least
    /// index.
    pub fn order(&self, alloc: Global) -> Result<Order, OrderStop>
        ensures { Sorts self.now.containers self.now.edges self.now.count result }
    {
        sort(
            alloc,
            self.containers.as_slice(),
            self.edges.as_slice(),
            self.count,
        )
    }
}
