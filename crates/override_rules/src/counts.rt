ghost use Rattle.std.specs.Prelude.{◌≡◌, ◌<◌, ◌^◌, OnOk, suc, List, ℕ};
ghost use Rattle.override_rules.specs.Counts.{count_of, IsOpen, KeepsCounts, AddsOne};

use pp_values::{Kind, Memory, Text};
use std::alloc::Global;
use std::collections::BTreeMap;

/// How many defaults there are for each kind.
#[derive(Drop)]
pub struct Counts {
    by_kind: BTreeMap<Text, usize>,
}

impl Counts {
    pub fn new(alloc: Global) -> Counts
        ensures { (kind : List ℕ) → count_of result.by_kind kind ≡ 0 }
    {
        Counts {
            by_kind: BTreeMap::new(alloc),
        }
    }

    pub fn at(&self, kind: &Text) -> usize
        ensures { result ≡ count_of self.now.by_kind kind.now }
    {
        match self.by_kind.get(kind) {
            Some(count) => *count,
            None => 0,
        }
    }

    /// Makes room for the count of a kind, which stays what it is.
    pub fn open(&mut self, alloc: Global, kind: &Text) -> Result<(), Memory>
        ensures keeps { KeepsCounts self.old.by_kind self.new.by_kind }
        ensures open { OnOk result (IsOpen self.new.by_kind kind.now) }
    {
        if self.by_kind.contains_key(kind) {
            return Ok(());
        }
        self.by_kind.insert(kind.copy(alloc)?, 0)?;
        Ok(())
    }

    /// Counts one more for a kind that has room.
    pub fn raise(&mut self, kind: &Text)
        requires open { IsOpen self.old.by_kind kind.now }
        requires fits { suc (count_of self.old.by_kind kind.now) < 2 ^ 64 }
        ensures { AddsOne kind.now self.old.by_kind self.new.by_kind }
    {
        if let Some(count) = self.by_kind.get_mut(kind) {
            *count += 1;
        }
    }
}
