ghost use Rattle.std.specs.Prelude.{◌≡◌, ◌+◌, ◌<◌, ◌≤◌, ◌^◌, ℕ, ◌==◌, if◌then◌else◌, length, IfOk, IsSome, OnOk};
ghost use Rattle.std.specs.Ordering.{nat_cmp};
ghost use Rattle.std.specs.BTreeMap.{get};
ghost use Rattle.site_core.specs.Counts.{count_in, SameCounts, AreCountsOf};
ghost use Rattle.site_core.specs.EntryViews.{events_of};
ghost use Rattle.site_core.specs.declared.history.TheConstants.{MOST_ENTRIES};

use crate::entry::Entry;
use pp_values::Memory;
use std::alloc::Global;
use std::collections::BTreeMap;

/// How many entries each author has made.
#[derive(Drop)]
pub struct Counts {
    by_author: BTreeMap<u32, u32>,
}

impl Counts {
    pub fn new(alloc: Global) -> Counts
        ensures { (author : ℕ) → count_in result.by_author author ≡ 0 }
    {
        Counts {
            by_author: BTreeMap::new(alloc),
        }
    }

    /// The counts of these entries.
    pub fn of<S>(alloc: Global, entries: &[Entry<S>]) -> Result<Counts, Memory>
        requires { length entries.now ≤ MOST_ENTRIES }
        ensures { IfOk result (λ c. AreCountsOf c.by_author (events_of entries.now)) }
    {
        let mut counts = Counts::new(alloc);
        let mut left = entries;
        while let [entry, after @ ..] = left {
            if let Some(author) = entry.author() {
                counts.reserve(author)?;
                counts.raise(author);
            }
            left = after;
        }
        Ok(counts)
    }

    pub fn count(&self, author: u32) -> u32
        ensures { result ≡ count_in self.now.by_author author }
    {
        self.by_author.get(&author).copied().unwrap_or(0)
    }

    /// Makes room for one more entry of the author. No count changes.
    pub fn reserve(&mut self, author: u32) -> Result<(), Memory>
        ensures same { SameCounts self.old.by_author self.new.by_author }
        ensures room { OnOk result (IsSome (get nat_cmp self.new.by_author author)) }
    {
        let count = self.count(author);
        self.by_author.insert(author, count)?;
        Ok(())
    }

    /// Counts one more entry of the author.
    pub fn raise(&mut self, author: u32)
        requires room { IsSome (get nat_cmp self.old.by_author author) }
        requires fits { count_in self.old.by_author author + 1 < 2 ^ 32 }
        ensures { (other : ℕ) →
            count_in self.new.by_author other
            ≡ (if author == other then count_in self.old.by_author other + 1 else count_in self.old.by_author other) }
    {
        let count = self.count(author);
        let _ = self.by_author.insert(author, count + 1);
    }
}
