ghost use Rattle.std.specs.Prelude.{◌≡◌, ◌≤◌, ◌<◌, length, IfOk, OnOk, OnErr, IsTrue};
ghost use Rattle.std.specs.Arc.{arc_value};
ghost use Rattle.pp_values.specs.Views.{view};
ghost use Rattle.pp_values.specs.Facts.{are_facts};
ghost use Rattle.site_core.specs.Meaning.{HasExports};
ghost use Rattle.site_core.specs.Asked.{filed};
ghost use Rattle.site_core.specs.Events.{is_by, is_later, publication, next_entry};
ghost use Rattle.site_core.specs.EntryViews.{event_of};
ghost use Rattle.site_core.specs.Sets.{sets_at};
ghost use Rattle.site_core.specs.Legal.{Legal, MayFollow};
ghost use Rattle.site_core.specs.Changes.{IsChangeOf};
ghost use Rattle.site_core.specs.Core.{opened, with_event, IsSound};
ghost use Rattle.site_core.specs.declared.history.TheConstants.{MOST_ENTRIES};
ghost use Rattle.site_core.specs.declared.plain.Plain.TheVariants as ask;

use crate::change::{Change, plain_entry};
use crate::counts::Counts;
use crate::done_stop::DoneStop;
use crate::entries::Entries;
use crate::entry::Entry;
use crate::history::{GREATEST_AUTHOR, History};
use crate::language::Language;
use crate::plain::Plain;
use crate::resume_stop::ResumeStop;
use crate::resuming::{latest_site, version_of};
use crate::snapshot::Snapshot;
use agent_machine::Report;
use export_store::Version;
use pp_values::{Memory, Text, Value};
use res_core::ExportSet;
use std::alloc::Global;
use std::marker::Model;
use std::sync::Arc;

/// The history of a site, with the site and the exported sets that it has come to.
///
/// The history is legal under what the language means, and within its limit.
#[derive(Drop)]
pub struct CoreState<L: Language> {
    history: History<L::Site>,
    site: Arc<L::Site>,
    version: Version,
    counts: Counts,
    limit: u32,
}

impl<L: Language> Model for CoreState<L> {
    ghost use Rattle.site_core.specs.Core.{Core, coded_core};

    ghost Value = { Core L.Site };

    ghost coded = { coded_core L.Site.code };

    ghost use Rattle.std.specs.Arc.{arc_value};
    ghost use Rattle.site_core.specs.Core.{IsKept};
    ghost use Rattle.site_core.specs.Counts.{AreCountsOf};

    ghost view = { λ s. record { history = s.history.entries; limit = s.limit } };

    ghost invariant = { λ s. IsKept L.meaning (record { history = s.history.entries; limit = s.limit }) s.version
        (arc_value s.site)
        × AreCountsOf s.counts.by_author s.history.entries };
}

impl<L: Language> CoreState<L> {
    ghost use Rattle.site_core.specs.Snapshots.{Of};
    ghost use Rattle.site_core.specs.Answers.{Stops};
    ghost use Rattle.site_core.specs.Resuming.{Resumes};

    /// Opens a site, whose history may have so many entries.
    pub fn open(alloc: Global, site: L::Site, limit: u32) -> Result<CoreState<L>, Memory>
        requires low { 1 ≤ limit }
        requires high { limit ≤ MOST_ENTRIES }
        ensures { IfOk result (λ s. s ≡ opened site limit) }
    {
        let site = Arc::new(alloc, site)?;
        let entries = Entries::open(alloc, site.clone()?)?;
        Ok(CoreState {
            history: History { entries },
            site,
            version: Version::empty(alloc),
            counts: Counts::new(alloc),
            limit,
        })
    }

    /// Goes on with a history, which may have so many entries. Each author's calls are numbered on from those in it.
    pub fn resume(
        alloc: Global,
        history: History<L::Site>,
        limit: u32,
    ) -> Result<CoreState<L>, ResumeStop>
        requires legal { Legal L.meaning history.entries }
        requires few { length history.entries ≤ limit }
        requires high { limit ≤ MOST_ENTRIES }
        ensures { Resumes history.entries limit result }
    {
        if let Some(author) = history.entries.greatest_author() {
            if author > GREATEST_AUTHOR {
                return Err(ResumeStop::Authors(author));
            }
        }
        let entries = history.entries.as_slice();
        let version = version_of(alloc, entries)?;
        let counts = Counts::of(alloc, entries)?;
        let site = match latest_site(entries) {
            Some(site) => site.clone()?,
            None => unreachable!(),
        };
        Ok(CoreState {
            history,
            site,
            version,
            counts,
            limit,
        })
    }

    /// How many entries the history has.
    pub fn len(&self) -> u32
        ensures len { result ≡ length self.now.history }
        ensures sound { IsSound L.meaning self.now }
    {
        self.history.entries.len() as u32
    }

    /// A compile begins: the site in force and the version.
    pub fn snap(&self, alloc: Global) -> Result<Snapshot<L::Site>, Memory>
        ensures number { IfOk result (λ s. s.k ≡ length self.now.history) }
        ensures of { IfOk result (λ s. Of s self.now.history) }
    {
        Ok(Snapshot {
            k: self.len(),
            site: self.site.clone()?,
            version: self.version.copy(alloc)?,
        })
    }

    /// A compile ends: it publishes the node's exports. The answer is the new entry's number.
    pub fn done(
        &mut self,
        alloc: Global,
        author: u32,
        node: Text,
        facts: Value,
        snapshot: Snapshot<L::Site>,
        set: ExportSet,
    ) -> Result<u32, DoneStop>
        requires facts { IsTrue (are_facts (view facts)) }
        requires of { Of snapshot self.old.history }
        requires meant { HasExports (L.meaning (arc_value snapshot.site) node (view facts) snapshot.version) set }
        ensures stop { Stops self.old result }
        ensures ok { OnOk result (self.new ≡ with_event self.old
            (publication self.old.history author node (view facts) snapshot.k set)) }
        ensures err { OnErr result (self.new ≡ self.old) }
    {
        let number = self.next_number()?;
        let set = Arc::new(alloc, set)?;
        let version = self.version.with(alloc, &node, set.clone()?)?;
        let call = self.counts.count(author);
        let entry = Entry::Publish {
            author,
            call,
            node,
            facts,
            k: snapshot.k,
            set,
        };
        self.add(author, entry, Change::Exports(version))?;
        Ok(number)
    }

    /// A node exports nothing any more. The answer is the new entry's number, also for a node that exported nothing.
    pub fn deactivate(&mut self, alloc: Global, author: u32, node: Text) -> Result<u32, DoneStop>
        ensures stop { Stops self.old result }
        ensures ok { OnOk result (self.new ≡ with_event self.old
            (next_entry self.old.history author (ask.Deactivate node))) }
        ensures err { OnErr result (self.new ≡ self.old) }
    {
        self.add_plain(alloc, author, Plain::Deactivate { node })
    }

    /// Another site takes the place of the one in force. The answer is the new entry's number.
    pub fn deploy(&mut self, alloc: Global, author: u32, site: L::Site) -> Result<u32, DoneStop>
        ensures stop { Stops self.old result }
        ensures ok { OnOk result (self.new ≡ with_event self.old
            (next_entry self.old.history author (ask.Deploy site))) }
        ensures err { OnErr result (self.new ≡ self.old) }
    {
        self.add_plain(alloc, author, Plain::Deploy { site })
    }

    /// Files a report, for the node that it names. The answer is the new entry's number.
    pub fn file_report(
        &mut self,
        alloc: Global,
        author: u32,
        report: Report,
    ) -> Result<u32, DoneStop>
        ensures stop { Stops self.old result }
        ensures ok { OnOk result (self.new ≡ with_event self.old
            (next_entry self.old.history author (filed report))) }
        ensures err { OnErr result (self.new ≡ self.old) }
    {
        self.next_number()?;
        let node = report.node.copy(alloc)?;
        self.add_plain(alloc, author, Plain::Report { node, report })
    }

    /// Adds a plain entry. The answer is its number.
    pub fn add_plain(
        &mut self,
        alloc: Global,
        author: u32,
        what: Plain<L::Site>,
    ) -> Result<u32, DoneStop>
        ensures stop { Stops self.old result }
        ensures ok { OnOk result (self.new ≡ with_event self.old (next_entry self.old.history author what)) }
        ensures err { OnErr result (self.new ≡ self.old) }
    {
        let number = self.next_number()?;
        let call = self.counts.count(author);
        let (entry, change) = plain_entry(alloc, &self.version, author, call, what)?;
        self.add(author, entry, change)?;
        Ok(number)
    }

    /// A compile ends without publishing.
    pub fn drop_call(&mut self, snapshot: Snapshot<L::Site>)
        ensures { self.new ≡ self.old }
    {
        drop(snapshot);
    }

    /// The number of the next entry.
    fn next_number(&self) -> Result<u32, DoneStop>
        ensures { Stops self.now result }
    {
        let number = self.len();
        if number >= self.limit {
            return Err(DoneStop::Full(number));
        }
        Ok(number)
    }

    /// The history of all that happened.
    pub fn into_history(self) -> History<L::Site>
        ensures history { result.entries ≡ self.history }
        ensures sound { IsSound L.meaning self }
    {
        self.history
    }

    fn add(
        &mut self,
        author: u32,
        entry: Entry<L::Site>,
        change: Change<L::Site>,
    ) -> Result<(), Memory>
        requires later { IsTrue (is_later (event_of entry)) }
        requires follows { MayFollow L.meaning self.old.history (event_of entry) }
        requires by { IsTrue (is_by author (event_of entry)) }
        requires room { length self.old.history < self.old.limit }
        requires change { IsChangeOf change (sets_at self.old.history (length self.old.history)) (event_of entry) }
        ensures ok { OnOk result (self.new ≡ with_event self.old (event_of entry)) }
        ensures err { OnErr result (self.new ≡ self.old) }
    {
        self.counts.reserve(author)?;
        self.history.entries.push(entry)?;
        self.counts.raise(author);
        match change {
            Change::Exports(version) => self.version = version,
            Change::Site(site) => self.site = site,
            Change::Nothing => {}
        }
        Ok(())
    }
}
