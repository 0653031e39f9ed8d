//! What lies behind the lock.
ghost use Rattle.std.specs.Prelude.{◌≡◌, ◌+◌, ◌≤◌, length, IfOk, OnOk, OnErr};
ghost use Rattle.site_core.specs.Additions.{entry_of, MayAdd};
ghost use Rattle.site_core.specs.Answers.{Stops};
ghost use Rattle.site_core.specs.Legal.{Legal};
ghost use Rattle.site_core.specs.Resuming.{past_author};
ghost use Rattle.site_core.specs.Snapshots.{Of};
ghost use Rattle.site_core.specs.declared.history.TheConstants.{GREATEST_AUTHOR, MOST_ENTRIES};
ghost use Rattle.shared_site.specs.Resumed.{Goes};
ghost use Rattle.shared_site.specs.Shows.{opened, core_of, with_entry, IsNew, Lasts};

use hist_lock::StandsFor;
use pp_values::Memory;
use site_core::{
    Addition, CoreState, DoneStop, Entry, History, Language, ResumeStop, Snapshot, add,
};
use std::alloc::Global;
use std::marker::Model;

/// An entry with the terms of its history. No value of it is made.
pub struct Marked<S> {
    pub entry: Entry<S>,
    pub limit: u32,
    pub base: u32,
    pub given: u32,
}

impl<S> Model for Marked<S> {
    ghost use Rattle.shared_site.specs.Shows.{Shown, coded_shown};

    ghost Value = { Shown S };

    ghost coded = { coded_shown S.code };

    ghost use Rattle.site_core.specs.EntryViews.{event_of};

    ghost view = { λ m. record {
      event = event_of m.entry;
      terms = record { limit = m.limit; base = m.base; given = m.given };
    } };
}

/// The history and what it has come to, with the number of its first own author and of the entries that it was given.
#[derive(Drop)]
pub struct Locked<L: Language> {
    state: CoreState<L>,
    base: u32,
    given: u32,
}

impl<L: Language> Model for Locked<L> {
    ghost use Rattle.shared_site.specs.Shows.{Shared, coded_shared};

    ghost Value = { Shared L.Site };

    ghost coded = { coded_shared L.Site.code };

    ghost use Rattle.std.specs.Prelude.{◌+◌, ◌≤◌};
    ghost use Rattle.site_core.specs.declared.history.TheConstants.{GREATEST_AUTHOR};
    ghost use Rattle.shared_site.specs.Shows.{IsParted};

    ghost view = { λ s. record {
      history = s.state.history;
      terms = record { limit = s.state.limit; base = s.base; given = s.given };
    } };

    ghost invariant = { λ s.
        IsParted (record { limit = s.state.limit; base = s.base; given = s.given }) s.state.history
        × (s.base ≤ GREATEST_AUTHOR + 1) };
}

impl<L: Language> StandsFor for Locked<L> {
    ghost use Rattle.shared_site.specs.Shows.{shown, author_shown};

    type Entry = Marked<L::Site>;

    ghost entries = { shown };

    ghost author = { author_shown };
}

impl<L: Language> Locked<L> {
    pub fn open(alloc: Global, site: L::Site, limit: u32) -> Result<Locked<L>, Memory>
        requires low { 1 ≤ limit }
        requires high { limit ≤ MOST_ENTRIES }
        ensures { IfOk result (λ s. (s ≡ opened site limit) × IsNew s) }
    {
        Ok(Locked {
            state: CoreState::open(alloc, site, limit)?,
            base: 0,
            given: 1,
        })
    }

    pub fn resume(
        alloc: Global,
        history: History<L::Site>,
        limit: u32,
    ) -> Result<Locked<L>, ResumeStop>
        requires legal { Legal L.meaning history.entries }
        requires few { length history.entries ≤ limit }
        requires high { limit ≤ MOST_ENTRIES }
        ensures { Goes history.entries limit result }
    {
        let given = history.entries.len() as u32;
        let greatest = history.entries.greatest_author();
        let state = CoreState::resume(alloc, history, limit)?;
        Ok(Locked {
            state,
            base: past(greatest),
            given,
        })
    }

    pub fn len(&self) -> u32
        ensures len { result ≡ length self.now.history }
        ensures lasts { Lasts L.meaning self.now }
    {
        let _base = self.base;
        self.state.len()
    }

    /// The number that an own author has in entries, by its number among them.
    pub fn author(&self, number: u32) -> u32
        requires { number ≤ 65536 }
        ensures { result ≡ self.now.terms.base + number }
    {
        self.base + number
    }

    pub fn snap(&self, alloc: Global) -> Result<Snapshot<L::Site>, Memory>
        ensures number { IfOk result (λ s. s.k ≡ length self.now.history) }
        ensures of { IfOk result (λ s. Of s self.now.history) }
    {
        self.state.snap(alloc)
    }

    /// Adds it, as the own author's next entry.
    pub fn add(
        &mut self,
        alloc: Global,
        author: u32,
        addition: Addition<L::Site>,
    ) -> Result<u32, DoneStop>
        requires may { MayAdd L.meaning addition self.old.history }
        requires own { self.old.terms.base ≤ author }
        ensures stop { Stops (core_of self.old) result }
        ensures ok { OnOk result (self.new ≡ with_entry self.old (entry_of addition author self.old.history)) }
        ensures err { OnErr result (self.new ≡ self.old) }
    {
        add(alloc, &mut self.state, author, addition)
    }

    pub fn into_history(self) -> History<L::Site>
        ensures history { result.entries ≡ self.history }
        ensures lasts { Lasts L.meaning self }
    {
        let _base = self.base;
        self.state.into_history()
    }
}

/// The number behind the greatest author.
fn past(greatest: Option<u32>) -> u32
    requires { past_author greatest ≤ GREATEST_AUTHOR + 1 }
    ensures { result ≡ past_author greatest }
{
    match greatest {
        Some(author) => author + 1,
        None => 0,
    }
}
