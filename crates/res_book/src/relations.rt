ghost use Rattle.std.specs.Prelude.{◌≡◌, ◌<◌, ◌^◌, length, is_ok, if◌then◌else◌, slice_get, IfOk};
ghost use Rattle.res_book.specs.Relations.{no_relations, with_line, with_containment, with_collector};
ghost use Rattle.res_book.specs.Relations.{is_applied, with_applied};

use crate::collector::Collector;
use crate::containment::Containment;
use crate::relation_line::RelationLine;
use pp_values::Memory;
use std::alloc::Global;
use std::collections::BTreeSet;
use std::marker::Model;

/// How many relation lines a compile may have, and as many pairs of `contain`, collectors, and pairs of a collector and
/// a declaration that its block was applied to.
const LIMIT: usize = u32::MAX as usize;

/// What the declarations of a compile have to do with each other, each list in the order of the manifest's evaluation:
/// its relation lines, its pairs of `contain` and its collectors; and which declarations the blocks of collectors were
/// applied to.
#[derive(Drop)]
pub struct Relations {
    lines: Vec<RelationLine>,
    containments: Vec<Containment>,
    collectors: Vec<Collector>,
    /// Numbers of collectors, each with that of a declaration.
    applied: BTreeSet<(u32, u32)>,
}

impl Model for Relations {
    ghost use Rattle.res_book.specs.Relations.{Related, coded_related, related, AreCounted};

    ghost Value = { Related };

    ghost coded = { coded_related };

    ghost view = { λ r. related r.lines.items r.containments.items r.collectors.items r.applied.keys };

    ghost invariant = { λ r.
        AreCounted (related r.lines.items r.containments.items r.collectors.items r.applied.keys) };
}

impl Relations {
    pub fn new(alloc: Global) -> Relations
        ensures { result ≡ no_relations }
    {
        Relations {
            lines: Vec::new(alloc),
            containments: Vec::new(alloc),
            collectors: Vec::new(alloc),
            applied: BTreeSet::new(alloc),
        }
    }

    /// Adds a relation line. Where there is no memory, or no room for one more, all stays as it was.
    pub fn add_line(&mut self, line: RelationLine) -> Result<(), Memory>
        ensures { self.new ≡ (if is_ok result then with_line line self.old else self.old) }
    {
        if self.lines.len() >= LIMIT {
            return Err(Memory);
        }
        self.lines.push(line)?;
        Ok(())
    }

    /// Adds a pair of `contain`. Where there is no memory, or no room for one more, all stays as it was.
    pub fn add_containment(&mut self, pair: Containment) -> Result<(), Memory>
        ensures { self.new ≡ (if is_ok result then with_containment pair self.old else self.old) }
    {
        if self.containments.len() >= LIMIT {
            return Err(Memory);
        }
        self.containments.push(pair)?;
        Ok(())
    }

    /// Registers a collector. The answer is its number, counted from 0. Where there is no memory, or no room for one
    /// more, all stays as it was.
    pub fn add_collector(&mut self, collector: Collector) -> Result<u32, Memory>
        ensures number { IfOk result (λ n. n ≡ length self.old.collectors) }
        ensures collectors { self.new ≡ (if is_ok result then with_collector collector self.old else self.old) }
    {
        let number = self.collectors.len();
        if number >= LIMIT {
            return Err(Memory);
        }
        self.collectors.push(collector)?;
        Ok(number as u32)
    }

    /// The relation lines, in order.
    pub fn lines(&self) -> &[RelationLine]
        ensures lines { result.now ≡ self.now.lines }
        ensures few { length self.now.lines < 2 ^ 32 }
    {
        self.lines.as_slice()
    }

    /// The pairs of `contain`, in order.
    pub fn containments(&self) -> &[Containment]
        ensures containments { result.now ≡ self.now.containments }
        ensures few { length self.now.containments < 2 ^ 32 }
    {
        self.containments.as_slice()
    }

    /// The collectors, in the order of their registration.
    pub fn collectors(&self) -> &[Collector]
        ensures collectors { result.now ≡ self.now.collectors }
        ensures few { length self.now.collectors < 2 ^ 32 }
    {
        self.collectors.as_slice()
    }

    /// How many collectors there are.
    pub fn collector_count(&self) -> u32
        ensures { result ≡ length self.now.collectors }
    {
        self.collectors.len() as u32
    }

    /// A collector, by its number.
    pub fn collector(&self, number: u32) -> &Collector
        requires { number < length self.now.collectors }
        ensures { slice_get self.now.collectors number ≡ Some result.now }
    {
        &self.collectors[number as usize]
    }

    /// Whether the block of a collector was applied to a declaration. Both are given by their numbers.
    #[tactic(auto, using(crate::proofs::Applied::pair_found))]
    pub fn is_applied(&self, collector: u32, declaration: u32) -> bool
        ensures { result ≡ is_applied collector declaration self.now }
    {
        self.applied.contains(&(collector, declaration))
    }

    /// Marks that the block of a collector is applied to a declaration. Both are given by their numbers. Where there is
    /// no memory, or no room for one more, all stays as it was.
    pub fn mark_applied(&mut self, collector: u32, declaration: u32) -> Result<(), Memory>
        ensures { self.new ≡ (if is_ok result then with_applied collector declaration self.old else self.old) }
    {
        if self.applied.len() >= LIMIT {
            return Err(Memory);
        }
        self.applied.insert((collector, declaration))?;
        Ok(())
    }
}
