//! The order of resources, and which cycle is told, on tables of graphs. There is one order and one cycle that is told, and
//! so these are worked examples of their definitions.
use pp_values::Memory;
use rel_graph::{Containers, Containment, Edges, GraphStop, OrderStop, are_below, build};
use res_core::{Edge, Indexes};
use std::alloc::Global;
use std::test::Fail;

/// So many resources, pairs (container, member) and pairs (earlier, later), and what comes of them.
struct Row {
    word: &'static str,
    count: u32,
    containers: &'static [(u32, u32)],
    edges: &'static [(u32, u32)],
    gives: Gives,
}

enum Gives {
    Order(&'static [u32]),
    Cycle(&'static [u32]),
    Contains(&'static [u32]),
}

fn containers_of(alloc: Global, pairs: &[(u32, u32)]) -> Result<Containers, Memory> {
    let mut containers = Containers::new(alloc);
    for pair in pairs {
        containers.push(Containment {
            container: pair.0,
            member: pair.1,
        })?;
    }
    Ok(containers)
}

// Every second one signals, which changes no order.
fn edges_of(alloc: Global, pairs: &[(u32, u32)]) -> Result<Edges, Memory> {
    let mut edges = Edges::new(alloc);
    let mut signal = false;
    for pair in pairs {
        edges.push(Edge {
            from: pair.0,
            to: pair.1,
            signal,
        })?;
        signal = !signal;
    }
    Ok(edges)
}

fn is_list(found: &Indexes, wanted: &[u32]) -> bool {
    found.as_slice() == wanted
}

/// Whether the graph gives what the row says, and tells of a cycle where there is one.
fn holds(alloc: Global, row: &Row) -> Result<bool, Memory> {
    let containers = containers_of(alloc, row.containers)?;
    let edges = edges_of(alloc, row.edges)?;
    if !are_below(row.count, &containers, &edges) {
        return Ok(false);
    }
    let graph = match build(alloc, row.count, &containers, &edges) {
        Ok(graph) => graph,
        Err(GraphStop::Memory) => return Err(Memory),
        Err(GraphStop::Contains(cycle)) => {
            return Ok(match row.gives {
                Gives::Contains(wanted) => is_list(&cycle, wanted),
                Gives::Order(_wanted) => false,
                Gives::Cycle(_wanted) => false,
            });
        }
    };
    match graph.order(alloc) {
        Ok(order) => Ok(match row.gives {
            Gives::Order(wanted) => is_list(&order, wanted) && !graph.has_cycle(),
            Gives::Cycle(_wanted) => false,
            Gives::Contains(_wanted) => false,
        }),
        Err(OrderStop::Cycle(cycle)) => Ok(match row.gives {
            Gives::Cycle(wanted) => is_list(&cycle, wanted) && graph.has_cycle(),
            Gives::Order(_wanted) => false,
            Gives::Contains(_wanted) => false,
        }),
        Err(OrderStop::Memory) => Err(Memory),
    }
}

const ORDERS: &[Row] = &[
    Row {
        word: "nothing",
        count: 0,
        containers: &[],
        edges: &[],
        gives: Gives::Order(&[]),
    },
    Row {
        word: "no edges",
        count: 3,
        containers: &[],
        edges: &[],
        gives: Gives::Order(&[0, 1, 2]),
    },
    Row {
        word: "a chain",
        count: 3,
        containers: &[],
        edges: &[(0, 1), (1, 2)],
        gives: Gives::Order(&[0, 1, 2]),
    },
    Row {
        word: "a chain backwards",
        count: 3,
        containers: &[],
        edges: &[(2, 1), (1, 0)],
        gives: Gives::Order(&[2, 1, 0]),
    },
    Row {
        word: "a diamond",
        count: 4,
        containers: &[],
        edges: &[(3, 1), (3, 2), (1, 0), (2, 0)],
        gives: Gives::Order(&[3, 1, 2, 0]),
    },
    // what a later one frees comes at once, where its index is less
    Row {
        word: "freed by a later one",
        count: 4,
        containers: &[],
        edges: &[(2, 0)],
        gives: Gives::Order(&[1, 2, 0, 3]),
    },
    Row {
        word: "an edge twice",
        count: 2,
        containers: &[],
        edges: &[(1, 0), (1, 0)],
        gives: Gives::Order(&[1, 0]),
    },
    // 1 is in 0, and 3 in 2: what is in 2 waits for what is in 0, and so do the two themselves
    Row {
        word: "members on the left",
        count: 4,
        containers: &[(3, 1)],
        edges: &[(3, 0)],
        gives: Gives::Order(&[1, 2, 3, 0]),
    },
    Row {
        word: "members on the right",
        count: 4,
        containers: &[(0, 1)],
        edges: &[(3, 0)],
        gives: Gives::Order(&[2, 3, 0, 1]),
    },
    Row {
        word: "members on both",
        count: 4,
        containers: &[(0, 1), (2, 3)],
        edges: &[(2, 0)],
        gives: Gives::Order(&[2, 3, 0, 1]),
    },
    Row {
        word: "nested members",
        count: 5,
        containers: &[(3, 4), (4, 2), (1, 0)],
        edges: &[(3, 1)],
        gives: Gives::Order(&[2, 3, 4, 0, 1]),
    },
    Row {
        word: "members two deep on the right",
        count: 5,
        containers: &[(0, 1), (1, 2)],
        edges: &[(4, 0)],
        gives: Gives::Order(&[3, 4, 0, 1, 2]),
    },
    Row {
        word: "a member before another",
        count: 3,
        containers: &[(0, 1), (0, 2)],
        edges: &[(2, 1)],
        gives: Gives::Order(&[0, 2, 1]),
    },
    Row {
        word: "in two containers",
        count: 4,
        containers: &[(0, 2), (1, 2)],
        edges: &[(3, 0)],
        gives: Gives::Order(&[1, 3, 0, 2]),
    },
];

const CYCLES: &[Row] = &[
    Row {
        word: "a self edge",
        count: 2,
        containers: &[],
        edges: &[(1, 1)],
        gives: Gives::Cycle(&[1]),
    },
    // `class a { notify { 'f': } } include a; Class['a'] -> Notify['f']` leaves `Notify[f] -> Notify[f]`
    Row {
        word: "a container before its member",
        count: 3,
        containers: &[(1, 2)],
        edges: &[(1, 2)],
        gives: Gives::Cycle(&[2]),
    },
    Row {
        word: "a member before its container",
        count: 3,
        containers: &[(1, 2)],
        edges: &[(2, 1)],
        gives: Gives::Cycle(&[2]),
    },
    Row {
        word: "two",
        count: 2,
        containers: &[],
        edges: &[(1, 0), (0, 1)],
        gives: Gives::Cycle(&[0, 1]),
    },
    Row {
        word: "behind a chain",
        count: 4,
        containers: &[],
        edges: &[(0, 1), (1, 3), (3, 2), (2, 3)],
        gives: Gives::Cycle(&[2, 3]),
    },
    Row {
        word: "the least start, not the shortest cycle",
        count: 5,
        containers: &[],
        edges: &[(3, 3), (0, 1), (1, 2), (2, 0)],
        gives: Gives::Cycle(&[0, 1, 2]),
    },
    Row {
        word: "the shortest from there",
        count: 4,
        containers: &[],
        edges: &[(0, 1), (1, 2), (2, 0), (0, 3), (3, 0)],
        gives: Gives::Cycle(&[0, 3]),
    },
    Row {
        word: "the least of the shortest",
        count: 5,
        containers: &[],
        edges: &[(0, 4), (4, 0), (0, 2), (2, 0), (0, 3), (3, 0)],
        gives: Gives::Cycle(&[0, 2]),
    },
    Row {
        word: "the least further on",
        count: 5,
        containers: &[],
        edges: &[(0, 1), (1, 4), (1, 3), (4, 0), (3, 0)],
        gives: Gives::Cycle(&[0, 1, 3]),
    },
    Row {
        word: "through containers",
        count: 4,
        containers: &[(0, 1), (2, 3)],
        edges: &[(0, 2), (3, 1)],
        gives: Gives::Cycle(&[1, 3]),
    },
    Row {
        word: "containment itself",
        count: 3,
        containers: &[(2, 2)],
        edges: &[],
        gives: Gives::Contains(&[2]),
    },
    Row {
        word: "containment of two",
        count: 3,
        containers: &[(2, 1), (1, 2)],
        edges: &[(0, 0)],
        gives: Gives::Contains(&[1, 2]),
    },
    Row {
        word: "containment from the least start",
        count: 5,
        containers: &[(4, 4), (1, 2), (2, 3), (3, 1)],
        edges: &[],
        gives: Gives::Contains(&[1, 2, 3]),
    },
    Row {
        word: "containment, the shortest",
        count: 4,
        containers: &[(0, 1), (1, 2), (2, 0), (3, 0), (0, 3)],
        edges: &[],
        gives: Gives::Contains(&[0, 3]),
    },
    Row {
        word: "containment, the least",
        count: 4,
        containers: &[(0, 3), (3, 0), (0, 1), (1, 0)],
        edges: &[],
        gives: Gives::Contains(&[0, 1]),
    },
    Row {
        word: "containment of three",
        count: 4,
        containers: &[(3, 1), (1, 2), (2, 3), (0, 1)],
        edges: &[],
        gives: Gives::Contains(&[1, 2, 3]),
    },
];

#[test]
fn orders(rt: HostRuntime) -> Result<(), Fail> {
    for row in ORDERS.iter() {
        let word = row.word;
        assert!(rt; holds(rt.alloc(), row)?, "{word}");
    }
    Ok(())
}

#[test]
fn cycles(rt: HostRuntime) -> Result<(), Fail> {
    for row in CYCLES.iter() {
        let word = row.word;
        assert!(rt; holds(rt.alloc(), row)?, "{word}");
    }
    Ok(())
}

/// How many resources stand beside each other or within each other, each pair made of an index and the next one.
const MANY: u32 = 5_000;

/// A graph of many resources, by which of the two of a pair comes first.
struct Shape {
    word: &'static str,
    containers: Side,
    edges: Side,
    /// Whether an edge leads from the last resource to the first.
    closed: bool,
    cyclic: bool,
}

#[derive(Clone, Copy)]
enum Side {
    None,
    /// The lesser index.
    Lesser,
    /// The greater index.
    Greater,
    /// The lesser one where it is even.
    Turns,
    /// The first of all.
    First,
}

const SHAPES: &[Shape] = &[
    Shape {
        word: "each in the one before",
        containers: Side::Lesser,
        edges: Side::None,
        closed: false,
        cyclic: false,
    },
    Shape {
        word: "each in the one behind",
        containers: Side::Greater,
        edges: Side::None,
        closed: false,
        cyclic: false,
    },
    Shape {
        word: "one after another in the first",
        containers: Side::First,
        edges: Side::None,
        closed: false,
        cyclic: false,
    },
    Shape {
        word: "backwards",
        containers: Side::None,
        edges: Side::Greater,
        closed: false,
        cyclic: false,
    },
    Shape {
        word: "in turns",
        containers: Side::None,
        edges: Side::Turns,
        closed: false,
        cyclic: false,
    },
    Shape {
        word: "the first before all that is in it",
        containers: Side::First,
        edges: Side::First,
        closed: false,
        cyclic: true,
    },
    Shape {
        word: "a ring",
        containers: Side::None,
        edges: Side::Turns,
        closed: true,
        cyclic: false,
    },
    Shape {
        word: "a ring one way",
        containers: Side::None,
        edges: Side::Lesser,
        closed: true,
        cyclic: true,
    },
];

fn pair(side: Side, at: u32) -> Option<(u32, u32)> {
    let next = at.saturating_add(1);
    match side {
        Side::None => None,
        Side::Lesser => Some((at, next)),
        Side::Greater => Some((next, at)),
        Side::Turns => {
            if at % 2 == 0 {
                return Some((at, next));
            }
            Some((next, at))
        }
        Side::First => Some((0, next)),
    }
}

fn many_containers(alloc: Global, side: Side) -> Result<Containers, Memory> {
    let mut containers = Containers::new(alloc);
    for at in 0..MANY - 1 {
        if let Some((container, member)) = pair(side, at) {
            containers.push(Containment { container, member })?;
        }
    }
    Ok(containers)
}

fn many_edges(alloc: Global, side: Side, closed: bool) -> Result<Edges, Memory> {
    let mut edges = Edges::new(alloc);
    for at in 0..MANY - 1 {
        if let Some((from, to)) = pair(side, at) {
            edges.push(Edge {
                from,
                to,
                signal: false,
            })?;
        }
    }
    if closed {
        edges.push(Edge {
            from: MANY - 1,
            to: 0,
            signal: false,
        })?;
    }
    Ok(edges)
}

/// Whether it is told as it should be whether some resource of the shape comes before itself.
fn is_cyclic_as_told(alloc: Global, shape: &Shape) -> Result<bool, Memory> {
    let containers = many_containers(alloc, shape.containers)?;
    let edges = many_edges(alloc, shape.edges, shape.closed)?;
    if !are_below(MANY, &containers, &edges) {
        return Ok(false);
    }
    match build(alloc, MANY, &containers, &edges) {
        Ok(graph) => Ok(graph.has_cycle() == shape.cyclic),
        Err(GraphStop::Memory) => Err(Memory),
        Err(GraphStop::Contains(_cycle)) => Ok(false),
    }
}

#[test]
fn many(rt: HostRuntime) -> Result<(), Fail> {
    for shape in SHAPES.iter() {
        let word = shape.word;
        assert!(rt; is_cyclic_as_told(rt.alloc(), shape)?, "{word}");
    }
    Ok(())
}

fn is_of_the_last_two(cycle: &Indexes) -> bool {
    is_list(cycle, &[MANY - 2, MANY - 1])
}

/// Whether it is told that the last two contain each other, beside a long chain of containment.
fn contains_at_the_end(alloc: Global, side: Side) -> Result<bool, Memory> {
    let mut containers = many_containers(alloc, side)?;
    for (container, member) in [(MANY - 1, MANY - 2), (MANY - 2, MANY - 1)] {
        containers.push(Containment { container, member })?;
    }
    let edges = Edges::new(alloc);
    if !are_below(MANY, &containers, &edges) {
        return Ok(false);
    }
    match build(alloc, MANY, &containers, &edges) {
        Ok(_graph) => Ok(false),
        Err(GraphStop::Contains(cycle)) => Ok(is_of_the_last_two(&cycle)),
        Err(GraphStop::Memory) => Err(Memory),
    }
}

/// Whether it is told that the last two come before each other, beside a long chain of containment and one of edges.
fn comes_before_at_the_end(alloc: Global, inside: Side, side: Side) -> Result<bool, Memory> {
    let containers = many_containers(alloc, inside)?;
    let mut edges = many_edges(alloc, side, false)?;
    for (from, to) in [(MANY - 1, MANY - 2), (MANY - 2, MANY - 1)] {
        edges.push(Edge {
            from,
            to,
            signal: false,
        })?;
    }
    if !are_below(MANY, &containers, &edges) {
        return Ok(false);
    }
    let graph = match build(alloc, MANY, &containers, &edges) {
        Ok(graph) => graph,
        Err(GraphStop::Memory) => return Err(Memory),
        Err(GraphStop::Contains(_cycle)) => return Ok(false),
    };
    match graph.order(alloc) {
        Ok(_order) => Ok(false),
        Err(OrderStop::Cycle(cycle)) => Ok(is_of_the_last_two(&cycle)),
        Err(OrderStop::Memory) => Err(Memory),
    }
}

// Each took minutes or more when every index before the cycle's was searched from.
#[test]
fn cycles_at_the_end(rt: HostRuntime) -> Result<(), Fail> {
    assert!(rt;
        contains_at_the_end(rt.alloc(), Side::Lesser)?,
        "each in the one before"
    );
    assert!(rt;
        contains_at_the_end(rt.alloc(), Side::Greater)?,
        "each in the one behind"
    );
    assert!(rt;
        comes_before_at_the_end(rt.alloc(), Side::None, Side::Lesser)?,
        "forwards"
    );
    assert!(rt;
        comes_before_at_the_end(rt.alloc(), Side::None, Side::Greater)?,
        "backwards"
    );
    Ok(())
}
