use rel_graph::Edges;
use res_core::Edge;
use std::alloc::{AllocError, Global};

/// Which edges there are.
#[derive(Clone, Copy)]
pub enum Shape {
    /// Each before the one with the index below.
    Chain,
    /// The last one before all others.
    Star,
    /// Each before one of those below it, by a linear congruential generator.
    Random,
}

/// The edges of the shape between so many resources. None leads to a greater index, so there is an order.
pub fn edges_of(alloc: Global, shape: Shape, count: u32) -> Result<Edges, AllocError> {
    let mut edges = Edges::new(alloc);
    let mut seed: u64 = 1;
    for from in 1..count {
        seed = seed
            .wrapping_mul(6364136223846793005)
            .wrapping_add(1442695040888963407);
        let edge = match shape {
            Shape::Chain => Edge {
                from,
                to: from - 1,
                signal: false,
            },
            Shape::Star => Edge {
                from: count - 1,
                to: from - 1,
                signal: false,
            },
            Shape::Random => Edge {
                from,
                to: ((seed >> 33) % u64::from(from)) as u32,
                signal: false,
            },
        };
        edges.push(edge)?;
    }
    Ok(edges)
}
