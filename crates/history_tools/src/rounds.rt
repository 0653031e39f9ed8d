//! A round of a search.
ghost use Rattle.std.specs.Prelude.{◌≡◌, ℕ, ◌+◌, ◌≤◌, [], ◌∷◌, length, IfOk, IsTrue};
ghost use Rattle.res_core.specs.AskedFacts.{give_facts};
ghost use Rattle.site_core.specs.Asked.{all_asks};
ghost use Rattle.site_core.specs.Counts.{count_in};
ghost use Rattle.site_core.specs.Events.{opens};
ghost use Rattle.site_core.specs.Legal.{Legal};
ghost use Rattle.site_core.specs.Resuming.{base_of};
ghost use Rattle.site_core.specs.Runs.{Continues};
ghost use Rattle.site_core.specs.declared.history.TheConstants.{GREATEST_AUTHOR, MOST_ENTRIES};
ghost use Rattle.site_batch.specs.declared.batch.TheConstants.{MOST_WORKERS};
ghost use Rattle.history_tools.specs.SameWorkers.{GoesOn};

use crate::lent::Lent;
use crate::same_workers::by_workers;
use crate::written::Written;
use pp_values::Memory;
use res_core::Requests;
use site_batch::{BatchResult, resume_batch};
use site_core::{Entries, History, Language, Reply, ResumeStop};
use site_io::Gate;
use std::alloc::Global;
use std::collections::BTreeMap;
use std::sync::{Arc, Wait};
use std::thread::Threads;

/// What was written, with the replies of a round, in the order of the requests.
type Answers<L> = (Written<<L as Language>::Site>, Vec<Reply<L>>);

/// A history with replies, in the order of the requests.
type Resumed<L> = (History<<L as Language>::Site>, Vec<Reply<L>>);

/// The history of a site that was just opened.
pub fn opening<S: Drop>(alloc: Global, site: S) -> Result<Written<S>, Memory>
    ensures { IfOk result (λ w. w.history.entries ≡ opens site ∷ []) }
{
    Ok(Written {
        history: History {
            entries: Entries::open(alloc, Arc::new(alloc, site)?)?,
        },
        counts: no_counts(alloc),
    })
}

fn no_counts(alloc: Global) -> BTreeMap<u32, u32>
    ensures { (author : ℕ) → count_in result author ≡ 0 }
{
    BTreeMap::new(alloc)
}

/// Goes on from what was written with the requests, by as many workers. Each of them begins with all entries of it, and
/// worker `w` is author `w` of each round.
pub fn run_round<L: Language + Drop + Sync, G: Gate + Sync, R: Threads + Wait + Sync>(
    rt: &R,
    alloc: Global,
    language: &L,
    written: Written<L::Site>,
    requests: &Requests,
    workers: u32,
    gate: &G,
) -> Result<Answers<L>, Memory>
where
    L::Site: Send + Sync,
    L::Catalog: Send,
    L::Fault: Send,
    requires legal { Legal L.meaning written.history.entries }
    requires within { length written.history.entries ≤ MOST_ENTRIES }
    requires authors { base_of written.history.entries ≤ GREATEST_AUTHOR + 1 }
    requires some { 1 ≤ workers }
    requires few { workers ≤ MOST_WORKERS }
    requires short { length requests.now ≤ MOST_ENTRIES }
    requires facts { IsTrue (give_facts requests.now) }
    ensures { IfOk result (λ r. GoesOn L.meaning L.listed MOST_ENTRIES workers written.history.entries
        (all_asks requests.now) r.1.items r.0.history.entries) }
{
    let Written { history, counts } = written;
    let start = history.entries.len();
    let base = author_behind(&history.entries);
    let (now, replies) = resumed(rt, alloc, language, history, requests, workers, gate)?;
    let next = by_workers(counts, now, start, base)?;
    Ok((next, replies))
}

/// The author behind the greatest one of the entries.
fn author_behind<S>(entries: &Entries<S>) -> u32
    requires { base_of entries.now ≤ GREATEST_AUTHOR + 1 }
    ensures { result ≡ base_of entries.now }
{
    match entries.greatest_author() {
        Some(author) => author + 1,
        None => 0,
    }
}

/// Goes on from the history with the requests, by as many workers, who are new authors of it.
fn resumed<L: Language + Drop + Sync, G: Gate + Sync, R: Threads + Wait + Sync>(
    rt: &R,
    alloc: Global,
    language: &L,
    history: History<L::Site>,
    requests: &Requests,
    workers: u32,
    gate: &G,
) -> Result<Resumed<L>, Memory>
where
    L::Site: Send + Sync,
    L::Catalog: Send,
    L::Fault: Send,
    requires legal { Legal L.meaning history.entries }
    requires within { length history.entries ≤ MOST_ENTRIES }
    requires authors { base_of history.entries ≤ GREATEST_AUTHOR + 1 }
    requires some { 1 ≤ workers }
    requires few { workers ≤ MOST_WORKERS }
    requires short { length requests.now ≤ MOST_ENTRIES }
    requires facts { IsTrue (give_facts requests.now) }
    ensures { IfOk result (λ r. Continues L.meaning L.listed MOST_ENTRIES (base_of history.entries) workers
        history.entries (all_asks requests.now) r.1.items r.0.entries) }
{
    match resume_batch(
        rt,
        alloc,
        Lent { language },
        history,
        requests,
        workers,
        gate,
    ) {
        Ok(came) => {
            let BatchResult { history, replies } = came;
            Ok((history, replies.into_vec()))
        }
        Err(ResumeStop::Authors(_)) => unreachable!(),
        Err(ResumeStop::Memory) => Err(Memory),
    }
}
