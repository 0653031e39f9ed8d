ghost use Rattle.std.specs.Prelude.{◌≡◌, ◌<◌, IfOk};
ghost use Rattle.std.specs.List.{All};
ghost use Rattle.rel_graph.specs.Before.{Before};
ghost use Rattle.rel_graph.specs.Pairs.{AllBelow};
ghost use Rattle.agent_marks.specs.Levels.{AreLevels, level_of};

use crate::arrows::{arrows_of, begin, put_through, targets_of};
use crate::leveling::{rise_by, settle, starts_of};
use crate::sequence::sequence;
use pp_values::Memory;
use std::alloc::Global;
use std::marker::Model;

/// Levels of resources: how many of those that count stand at most behind one another before it.
///
/// A contract sees the levels of the nodes.
#[derive(Drop)]
pub struct Levels {
    nodes: Vec<u32>,
}

impl Model for Levels {
    ghost use Rattle.std.specs.Prelude.{ℕ, List};

    ghost Value = { List ℕ };

    ghost view = { λ l. l.nodes.items };
}

impl Levels {
    /// The levels by what comes before what, where these resources count.
    pub fn new(
        alloc: Global,
        count: u32,
        containers: &[(u32, u32)],
        edges: &[(u32, u32)],
        counted: &[u32],
    ) -> Result<Levels, Memory>
        requires below { AllBelow containers.now count }
        requires edges_below { AllBelow edges.now count }
        requires counted { All (λ x. x < count) counted.now }
        ensures { IfOk result (AreLevels (Before containers.now edges.now) count counted.now) }
    {
        let mut arrows = arrows_of(alloc, containers, edges)?;
        put_through(count, &mut arrows)?;
        let nodes = count as usize + count as usize;
        let table = targets_of(alloc, nodes, arrows.as_slice())?;
        let starts = starts_of(alloc, nodes, counted)?;
        let mut levels = vec![in alloc; 0; nodes]?;
        let order = sequence(alloc, nodes, &table)?;
        rise_by(
            arrows.as_slice(),
            order.as_slice(),
            &starts,
            &table,
            &mut levels,
        )?;
        settle(arrows.as_slice(), &starts, &table, &mut levels)?;
        Ok(Levels { nodes: levels })
    }

    /// The level of the resource at this index.
    pub fn level(&self, at: u32) -> u32
        ensures { result ≡ level_of self.now at }
    {
        match self.nodes.get(begin(at)) {
            Some(level) => *level,
            None => 0,
        }
    }
}
