ghost use Rattle.std.specs.Prelude.{◌≡◌, ◌≤◌, ◌<◌, ◌+◌, length, IfOk, IsOk, IsTrue};
ghost use mathlib.Core.List.{IsPrefix};
ghost use Rattle.res_core.specs.RequestViews.{wanted};
ghost use Rattle.res_core.specs.AskedFacts.{has_facts};
ghost use Rattle.site_core.specs.Additions.{entry_of, MayAdd};
ghost use Rattle.site_core.specs.Asked.{compile as wants, plain, filed};
ghost use Rattle.site_core.specs.Legal.{Legal};
ghost use Rattle.site_core.specs.Sets.{sets_at};
ghost use Rattle.site_core.specs.Snapshots.{Of};
ghost use Rattle.site_core.specs.declared.history.TheConstants.{MOST_ENTRIES};
ghost use Rattle.site_core.specs.declared.plain.Plain.TheVariants as ask;
ghost use Rattle.hist_lock.specs.Calls.{IsLonger};
ghost use Rattle.shared_site.specs.Shows.{opened, IsNew};
ghost use Rattle.shared_site.specs.Known.{held, first_pass, IsLater, IsAnswered, IsGated, HasAsked, cut, cut_off, seeing, joined_to, told_by, AreTheOthers};
ghost use Rattle.shared_site.specs.Resumed.{Resumes};

use crate::locked::Locked;
use crate::pass::{SiteNote, SitePass};
use agent_machine::Report;
use export_store::Version;
use hist_lock::HistLock;
use pp_values::{Memory, Text};
use res_core::CompileRequest;
use site_core::{
    Addition, DoneStop, History, Language, Plain, Reply, ReplyOf, ResumeStop, Snapshot, added,
    compile_under, served,
};
use site_io::Gate;
use std::alloc::Global;
use std::marker::Model;
use std::sync::Wait;

/// A site that threads share: its language, and its history behind a lock. Contracts see which one it is.
#[derive(Drop)]
pub struct SharedSite<L: Language> {
    language: L,
    lock: HistLock<Locked<L>>,
}

impl<L: Language> Model for SharedSite<L> {
    ghost use Rattle.hist_lock.specs.Held.{LockId};

    ghost Value = { LockId };

    ghost view = { λ s. s.lock };
}

impl<L: Language + Drop> SharedSite<L> {
    /// Opens a site, whose history may have so many entries. The first pass has seen the opening.
    pub fn open(
        alloc: Global,
        language: L,
        site: L::Site,
        limit: u32,
    ) -> Result<(SharedSite<L>, SitePass<L>), Memory>
        requires low { 1 ≤ limit }
        requires high { limit ≤ MOST_ENTRIES }
        ensures { IfOk result (λ r. r.1 ≡ first_pass r.0 (opened site limit)) }
    {
        share(alloc, language, Locked::open(alloc, site, limit)?)
    }

    /// Goes on from a history, which may have so many entries. The first pass has seen all of it, and authors are
    /// numbered on from its greatest one.
    pub fn resume(
        alloc: Global,
        language: L,
        history: History<L::Site>,
        limit: u32,
    ) -> Result<(SharedSite<L>, SitePass<L>), ResumeStop>
        requires legal { Legal L.meaning history.entries }
        requires few { length history.entries ≤ limit }
        requires high { limit ≤ MOST_ENTRIES }
        ensures { Resumes history.entries limit result }
    {
        let locked = Locked::resume(alloc, history, limit)?;
        Ok(share(alloc, language, locked)?)
    }

    /// Compiles the node under the entries so far, and publishes what it exports behind those that came meanwhile.
    ///
    /// The beginning takes a turn, and so does the end. Between them no turn is held, and the gate is called once.
    pub fn serve_one<G: Gate, R: Wait>(
        &self,
        rt: &R,
        alloc: Global,
        pass: &mut SitePass<L>,
        request: &CompileRequest,
        gate: &G,
    ) -> Reply<L>
        requires site { pass.old.site ≡ self.now }
        requires facts { IsTrue (has_facts (wanted request.now).facts) }
        ensures answered { IsAnswered L.meaning L.listed (wants (wanted request.now)) result pass.old pass.new }
        ensures gated { IsGated (G.passed gate.now) result }
    {
        let Ok(snapshot) = self.snap(rt, alloc, pass) else {
            return ReplyOf::Memory;
        };
        let k = snapshot.k;
        let compiled = compile_under(alloc, &self.language, snapshot, request);
        go_through(rt, gate);
        match compiled {
            Ok((catalog, addition)) => {
                let answer = self.append(rt, alloc, pass, addition);
                served(k, catalog, answer)
            }
            Err(reply) => reply,
        }
    }

    /// Ends the node's set, in one turn.
    pub fn deactivate<R: Wait>(
        &self,
        rt: &R,
        alloc: Global,
        pass: &mut SitePass<L>,
        node: &Text,
    ) -> Reply<L>
        requires site { pass.old.site ≡ self.now }
        ensures { IsAnswered L.meaning L.listed (plain (ask.Deactivate node.now)) result pass.old pass.new }
    {
        pass.keeps();
        let Ok(node) = node.copy(alloc) else {
            return ReplyOf::Memory;
        };
        self.add_plain(rt, alloc, pass, Plain::Deactivate { node })
    }

    /// Puts another site in the place of the one in force, in one turn. Compiles that have begun keep theirs.
    pub fn deploy<R: Wait>(
        &self,
        rt: &R,
        alloc: Global,
        pass: &mut SitePass<L>,
        site: L::Site,
    ) -> Reply<L>
        requires site { pass.old.site ≡ self.now }
        ensures { IsAnswered L.meaning L.listed (plain (ask.Deploy site)) result pass.old pass.new }
    {
        self.add_plain(rt, alloc, pass, Plain::Deploy { site })
    }

    /// Files a report for the node that it names, in one turn.
    pub fn file_report<R: Wait>(
        &self,
        rt: &R,
        alloc: Global,
        pass: &mut SitePass<L>,
        report: Report,
    ) -> Reply<L>
        requires site { pass.old.site ≡ self.now }
        ensures { IsAnswered L.meaning L.listed (plain (filed report)) result pass.old pass.new }
    {
        pass.keeps();
        let Ok(node) = report.node.copy(alloc) else {
            return ReplyOf::Memory;
        };
        self.add_plain(rt, alloc, pass, Plain::Report { node, report })
    }

    /// The sets that the nodes export after all entries so far, which the pass has seen from then on. It takes a turn
    /// of its own.
    pub fn sets<R: Wait>(
        &self,
        rt: &R,
        alloc: Global,
        pass: &mut SitePass<L>,
    ) -> Result<Version, Memory>
        requires site { pass.old.site ≡ self.now }
        ensures later { IsLater pass.old pass.new }
        ensures own { pass.new.own ≡ pass.old.own }
        ensures legal { Legal L.meaning pass.new.front }
        ensures sets { IfOk result (λ v. v ≡ sets_at pass.new.front (length pass.new.front)) }
    {
        let Snapshot {
            k: _,
            site: _,
            version,
        } = self.snap(rt, alloc, pass)?;
        Ok(version)
    }

    // Adds a plain entry of the pass's own author.
    fn add_plain<R: Wait>(
        &self,
        rt: &R,
        alloc: Global,
        pass: &mut SitePass<L>,
        what: Plain<L::Site>,
    ) -> Reply<L>
        requires site { pass.old.site ≡ self.now }
        ensures { IsAnswered L.meaning L.listed (plain what) result pass.old pass.new }
    {
        let kind = what.kind();
        added(kind, self.append(rt, alloc, pass, Addition::Plain(what)))
    }

    // The site and the sets of a moment, in a turn of its own.
    fn snap<R: Wait>(
        &self,
        rt: &R,
        alloc: Global,
        pass: &mut SitePass<L>,
    ) -> Result<Snapshot<L::Site>, Memory>
        requires site { pass.old.site ≡ self.now }
        ensures later { IsLater pass.old pass.new }
        ensures own { pass.new.own ≡ pass.old.own }
        ensures legal { Legal L.meaning pass.new.front }
        ensures number { IfOk result (λ s. s.k ≡ length pass.new.front) }
        ensures of { IfOk result (λ s. Of s pass.new.front) }
    {
        let turn = self.lock.take(rt, &mut pass.pass);
        pass.count = turn.value.len();
        let snapshot = turn.value.snap(alloc);
        self.lock.give(&mut pass.pass, turn);
        snapshot
    }

    // Adds an entry of the pass's own author, in a turn of its own.
    fn append<R: Wait>(
        &self,
        rt: &R,
        alloc: Global,
        pass: &mut SitePass<L>,
        addition: Addition<L::Site>,
    ) -> Result<u32, DoneStop>
        requires site { pass.old.site ≡ self.now }
        requires may { MayAdd L.meaning addition pass.old.front }
        ensures later { IsLater pass.old pass.new }
        ensures legal { Legal L.meaning pass.new.front }
        ensures asked { HasAsked (entry_of addition pass.old.author) result pass.old pass.new }
    {
        let author = pass.author();
        let mut turn = self.lock.take(rt, &mut pass.pass);
        let answer = turn.value.add(alloc, author, addition);
        pass.count = turn.value.len();
        match answer {
            Ok(entry) => {
                self.lock.give_with(&mut pass.pass, turn);
                Ok(entry)
            }
            Err(stop) => {
                self.lock.give(&mut pass.pass, turn);
                Err(stop)
            }
        }
    }

    /// A pass for a new author, of the room that this one has. It takes a turn of its own, after which both have seen
    /// the entries so far.
    pub fn split<R: Wait>(&self, rt: &R, pass: &mut SitePass<L>) -> Result<SitePass<L>, Memory>
        requires site { pass.old.site ≡ self.now }
        requires room { 0 < pass.old.room }
        ensures ok { IsOk result }
        ensures front { IsPrefix pass.old.front pass.new.front }
        ensures pass { pass.new ≡ cut pass.old pass.new.front }
        ensures new { IfOk result (λ r. r ≡ cut_off pass.old pass.new.front) }
    {
        let mut turn = self.lock.take(rt, &mut pass.pass);
        pass.count = turn.value.len();
        let Ok(new) = self.lock.split(&mut pass.pass, &mut turn) else {
            unreachable!()
        };
        let author = turn.value.author(new.author());
        self.lock.give(&mut pass.pass, turn);
        Ok(SitePass {
            pass: new,
            count: pass.count,
            author,
        })
    }

    /// A note of what the pass has seen. It takes no turn.
    pub fn note(&self, pass: &mut SitePass<L>) -> Result<SiteNote<L>, Memory>
        requires { pass.old.site ≡ self.now }
        ensures ok { IsOk result }
        ensures pass { pass.new ≡ pass.old }
        ensures note { IfOk result (λ n. n ≡ told_by pass.old) }
    {
        let count = pass.count;
        let Ok(note) = self.lock.note(&mut pass.pass) else {
            unreachable!()
        };
        Ok(SiteNote { note, count })
    }

    /// What the note's pass had seen, this one has seen too. It takes no turn.
    pub fn meet(&self, pass: &mut SitePass<L>, note: SiteNote<L>)
        requires { (pass.old.site ≡ self.now) × (note.site ≡ self.now) }
        ensures pass { pass.new ≡ seeing pass.old pass.new.front }
        ensures front { IsLonger pass.old.front note.front pass.new.front }
    {
        let SiteNote { note, count } = note;
        self.lock.meet(&mut pass.pass, note);
        pass.count = pass.count.max(count);
    }

    /// Ends the other pass, whose authors, room and entries go to this one. It takes no turn.
    pub fn join(&self, pass: &mut SitePass<L>, other: SitePass<L>)
        requires { (pass.old.site ≡ self.now) × (other.site ≡ self.now) }
        ensures pass { pass.new ≡ joined_to pass.old other pass.new.front }
        ensures front { IsLonger pass.old.front other.front pass.new.front }
    {
        let SitePass {
            pass: theirs,
            count,
            author: _,
        } = other;
        self.lock.join(&mut pass.pass, theirs);
        pass.count = pass.count.max(count);
    }

    /// Lends the language. Contracts see a site as the lock that it has, and what a language means as its type's own.
    pub fn language(&self) -> &L {
        &self.language
    }

    /// The history, once all passes that were split are joined again.
    pub fn close(self, pass: SitePass<L>) -> History<L::Site>
        requires site { pass.site ≡ self }
        requires all { pass.room + held pass ≡ 65536 }
        ensures legal { Legal L.meaning result.entries }
        ensures front { IsPrefix pass.front result.entries }
        ensures few { length result.entries ≤ pass.terms.limit }
        ensures own { AreTheOthers pass.terms.given pass.own result.entries }
    {
        let SharedSite { language: _, lock } = self;
        let SitePass {
            pass,
            count: _,
            author: _,
        } = pass;
        lock.close(pass).into_history()
    }
}

// Puts a lock round a history in which no own author has an entry yet.
fn share<L: Language + Drop>(
    alloc: Global,
    language: L,
    locked: Locked<L>,
) -> Result<(SharedSite<L>, SitePass<L>), Memory>
    requires { IsNew locked }
    ensures { IfOk result (λ r. r.1 ≡ first_pass r.0 locked) }
{
    let count = locked.len();
    let author = locked.author(0);
    let (lock, pass) = HistLock::new(alloc, locked)?;
    let pass = SitePass {
        pass,
        count,
        author,
    };
    Ok((SharedSite { language, lock }, pass))
}

/// Goes through the gate, once.
fn go_through<G: Gate, R: Wait>(rt: &R, gate: &G)
    ensures { G.passed gate.now }
{
    gate.between(rt);
}
