ghost use Rattle.std.specs.Prelude.{◌≡◌, ◌∷◌, [], ◌++◌, filter, map, IfOk, IsTrue, OnOk};
ghost use Rattle.rel_graph.specs.Graphs.{edge_pair};
ghost use Rattle.rel_graph.specs.Pairs.{AllBelow};
ghost use Rattle.catalog_finish.specs.EdgeTables.{signals as signals_meant, with_edge, edges_from, joined, edges_of};
ghost use Rattle.res_core.specs.Catalogs.{edge_cmp, is_between, is_ordered};

use pp_values::Memory;
use res_core::{Edge, EdgeList};
use std::alloc::Global;
use std::collections::BTreeMap;
use std::marker::Model;

/// Which resources come before which, by their indexes, each pair once, and whether it signals.
#[derive(Drop)]
pub struct EdgeTable {
    signals: BTreeMap<(u32, u32), bool>,
}

impl Model for EdgeTable {
    ghost use Rattle.std.specs.Prelude.{List};
    ghost use Rattle.catalog_finish.specs.EdgeTables.{Entry};

    ghost Value = { List Entry };

    ghost view = { λ t. t.signals.entries };
}

impl EdgeTable {
    pub fn new(alloc: Global) -> EdgeTable
        ensures { result ≡ [] }
    {
        EdgeTable {
            signals: BTreeMap::new(alloc),
        }
    }

    fn signals(&self, from: u32, to: u32) -> bool
        ensures { result ≡ signals_meant self.now (from, to) }
    {
        match self.signals.get(&(from, to)) {
            Some(signal) => *signal,
            None => false,
        }
    }

    fn put(&mut self, from: u32, to: u32, signal: bool) -> Result<(), Memory>
        ensures { OnOk result (self.new ≡ with_edge self.old from to signal) }
    {
        let signal = signal || self.signals(from, to);
        self.signals.insert((from, to), signal)?;
        Ok(())
    }

    fn put_from(&mut self, from: u32, right: &[u32], signal: bool) -> Result<(), Memory>
        ensures { OnOk result (self.new ≡ edges_from self.old from right.now signal) }
    {
        for to in right {
            self.put(from, *to, signal)?;
        }
        Ok(())
    }

    /// Puts an edge from each of these to each of those.
    pub fn join(&mut self, left: &[u32], right: &[u32], signal: bool) -> Result<(), Memory>
        ensures { OnOk result (self.new ≡ joined self.old left.now right.now signal) }
    {
        for from in left {
            self.put_from(*from, right, signal)?;
        }
        Ok(())
    }

    /// The edges between resources, of which there are so many.
    pub fn into_edges(self, alloc: Global, count: u32) -> Result<EdgeList, Memory>
        ensures edges { IfOk result (λ l. l ≡ edges_of count self) }
        ensures below { IfOk result (λ l. AllBelow (map edge_pair l) count) }
        ensures ordered { IfOk result (λ l. IsTrue (is_ordered edge_cmp l)) }
    {
        let EdgeTable { signals } = self;
        let mut items = Vec::new(alloc);
        for ((from, to), signal) in signals {
            put_between(count, Edge { from, to, signal }, &mut items)?;
        }
        Ok(EdgeList::from_vec(items))
    }
}

/// Puts an edge behind the others, where it is one between resources.
fn put_between(count: u32, edge: Edge, items: &mut Vec<Edge>) -> Result<(), Memory>
    ensures { OnOk result (items.new.items ≡ items.old.items ++ filter (is_between count) (edge ∷ [])) }
{
    if edge.from < count && edge.to < count {
        items.push(edge)?;
    }
    Ok(())
}
