ghost use Rattle.std.specs.Prelude.{◌≡◌, ◌⊎◌, ◌↔◌, ◌<◌, ℕ, true, IfOk};
ghost use Rattle.rel_graph.specs.Before.{Before, Direct};
ghost use Rattle.rel_graph.specs.Pairs.{AllBelow};
ghost use Rattle.agent_marks.specs.Spreads.{IsMarked, Leads, IsNew, IsEmpty, nodes_of};

use crate::arrows::{arrows_of, begin, end, put_through, targets_of};
use crate::spreading::reach;
use std::alloc::{AllocError, Global};
use std::marker::Model;

/// Resources that are marked: with each that a mark is set on, those that it leads to. Marks take no memory.
///
/// A contract sees where marks lead, and which resources are marked.
#[derive(Drop)]
pub struct Marks {
    count: u32,
    arrows: Vec<(usize, usize)>,
    table: Vec<Vec<usize>>,
    nodes: Vec<bool>,
    stack: Vec<usize>,
}

impl Model for Marks {
    ghost use Rattle.std.specs.Prelude.{vec_capacity};
    ghost use Rattle.agent_marks.specs.Spreads.{Marking, IsMarking};

    ghost Value = { Marking };

    ghost view = { λ m. record { count = m.count; arrows = m.arrows.items; nodes = m.nodes.items } };

    ghost invariant = { λ m. IsMarking m.count m.arrows.items m.table.items m.nodes.items m.stack.items (vec_capacity m.stack) };
}

impl Marks {
    /// A mark is to spread to all that come after a resource.
    pub fn after(
        alloc: Global,
        count: u32,
        containers: &[(u32, u32)],
        edges: &[(u32, u32)],
    ) -> Result<Marks, AllocError>
        requires below { AllBelow containers.now count }
        requires edges_below { AllBelow edges.now count }
        ensures { IfOk result (IsNew count (Before containers.now edges.now)) }
    {
        let mut arrows = arrows_of(alloc, containers, edges)?;
        put_through(count, &mut arrows)?;
        let marks = Marks::new(alloc, count, arrows)?;
        Ok(marks)
    }

    /// A mark is to spread to those that a resource comes directly before.
    pub fn directly_after(
        alloc: Global,
        count: u32,
        containers: &[(u32, u32)],
        edges: &[(u32, u32)],
    ) -> Result<Marks, AllocError>
        requires below { AllBelow containers.now count }
        requires edges_below { AllBelow edges.now count }
        ensures { IfOk result (IsNew count (Direct containers.now edges.now)) }
    {
        let arrows = arrows_of(alloc, containers, edges)?;
        let marks = Marks::new(alloc, count, arrows)?;
        Ok(marks)
    }

    fn new(alloc: Global, count: u32, arrows: Vec<(usize, usize)>) -> Result<Marks, AllocError>
        requires { AllBelow arrows.items (nodes_of count) }
        ensures { IfOk result (IsEmpty count arrows.items) }
    {
        let nodes = count as usize + count as usize;
        let table = targets_of(alloc, nodes, arrows.as_slice())?;
        let marks = vec![in alloc; false; nodes]?;
        let stack = Vec::with_capacity(alloc, nodes)?;
        Ok(Marks {
            count,
            arrows,
            table,
            nodes: marks,
            stack,
        })
    }

    /// Marks what the resource leads to.
    pub fn mark(&mut self, at: u32)
        requires { at < self.old.count }
        ensures leads { (x y : ℕ) → Leads self.new x y ↔ Leads self.old x y }
        ensures count { self.new.count ≡ self.old.count }
        ensures marked { (x : ℕ) → IsMarked self.new x ↔ (IsMarked self.old x ⊎ Leads self.old at x) }
    {
        reach(
            self.arrows.as_slice(),
            &self.table,
            end(at),
            &mut self.nodes,
            &mut self.stack,
        );
    }

    pub fn is_marked(&self, at: u32) -> bool
        ensures { (result ≡ true) ↔ IsMarked self.now at }
    {
        match self.nodes.get(begin(at)) {
            Some(mark) => *mark,
            None => false,
        }
    }
}
