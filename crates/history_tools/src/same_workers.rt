//! The entries of a round, made those of the workers that the rounds before had.
//!
//! A history is gone on with by authors that have no entry in it. A search runs one set of workers over all its rounds,
//! so an entry of a round is that of the worker who made it, and a worker's calls are counted on from round to round.
ghost use Rattle.std.specs.Prelude.{◌≡◌, ◌≤◌, ◌<◌, ◌+◌, ◌^◌, ℕ, ◌==◌, if◌then◌else◌, [], ◌∷◌, ◌++◌, List, length, take, drop, IfOk, OnOk};
ghost use Rattle.site_core.specs.Counts.{count_in, AreCountsOf};
ghost use Rattle.site_core.specs.EntryViews.{event_of, events_of};
ghost use Rattle.site_core.specs.Events.{Event};
ghost use Rattle.site_core.specs.declared.history.TheConstants.{MOST_ENTRIES};
ghost use Rattle.history_tools.specs.SameWorkers.{given_to, by_worker, by_workers};

use crate::written::Written;
use pp_values::Memory;
use site_core::{Entries, Entry, History};
use std::collections::BTreeMap;

/// The entries that were counted, and how many of them each author made.
type Counted<S> = (BTreeMap<u32, u32>, Vec<Entry<S>>);

/// The history, in which each entry from this place on is made that of its worker: author `base + w` becomes author
/// `w`. The counts are those of the entries before. Each of the round's entries is looked at once.
pub fn by_workers<S: Drop>(
    counts: BTreeMap<u32, u32>,
    history: History<S>,
    start: usize,
    base: u32,
) -> Result<Written<S>, Memory>
    requires some { 1 ≤ start }
    requires inside { start ≤ length history.entries }
    requires few { length history.entries ≤ MOST_ENTRIES }
    requires counted { AreCountsOf counts (take start history.entries) }
    ensures { IfOk result (λ w. w.history.entries ≡ take start history.entries
        ++ by_workers base (take start history.entries) (drop start history.entries)) }
{
    let mut before = history.entries.into_vec();
    let more = before.split_off(start)?;
    let (counts, entries) = counted_on(counts, before, more, base)?;
    let history = History {
        entries: Entries::from_vec(entries),
    };
    Ok(Written { history, counts })
}

/// The entries with those of a round behind them, each made that of its worker, and the counts of all.
fn counted_on<S: Drop>(
    mut counts: BTreeMap<u32, u32>,
    mut entries: Vec<Entry<S>>,
    more: Vec<Entry<S>>,
    base: u32,
) -> Result<Counted<S>, Memory>
    requires counted { AreCountsOf counts (events_of entries.items) }
    requires few { length entries.items + length more.items ≤ MOST_ENTRIES }
    ensures entries { IfOk result (λ r. events_of r.1.items ≡ events_of entries.items
        ++ by_workers base (events_of entries.items) (events_of more.items)) }
    ensures counted { IfOk result (λ r. AreCountsOf r.0 (events_of r.1.items)) }
{
    for entry in more {
        let next = by_worker(&mut counts, base, entry)?;
        entries.push(next)?;
    }
    Ok((counts, entries))
}

/// The entry as the next one of its worker, which is counted.
fn by_worker<S: Drop>(
    counts: &mut BTreeMap<u32, u32>,
    base: u32,
    entry: Entry<S>,
) -> Result<Entry<S>, Memory>
    requires { (author : ℕ) → count_in counts.old author + 1 < 2 ^ 32 }
    ensures { (h : List (Event S)) → AreCountsOf counts.old h →
        IfOk result (λ e. (event_of e ≡ by_worker base h (event_of entry))
        × AreCountsOf counts.new (h ++ event_of e ∷ [])) }
{
    let Some(author) = entry.author() else {
        return Ok(entry);
    };
    let worker = author.saturating_sub(base);
    let call = next_call(counts, worker)?;
    Ok(given_to(worker, call, entry))
}

/// The number of the author's next entry, which is counted.
fn next_call(counts: &mut BTreeMap<u32, u32>, author: u32) -> Result<u32, Memory>
    requires { count_in counts.old author + 1 < 2 ^ 32 }
    ensures call { IfOk result (λ call. call ≡ count_in counts.old author) }
    ensures raised { OnOk result ((other : ℕ) → count_in counts.new other
        ≡ (if author == other then count_in counts.old other + 1 else count_in counts.old other)) }
{
    let call = counts.get(&author).copied().unwrap_or(0);
    counts.insert(author, call + 1)?;
    Ok(call)
}

/// The same entry, but by this author and with this number among the author's entries.
fn given_to<S: Drop>(author: u32, call: u32, entry: Entry<S>) -> Entry<S>
    ensures { event_of result ≡ given_to author call (event_of entry) }
{
    match entry {
        Entry::Open { site } => Entry::Open { site },
        Entry::Publish {
            author: _,
            call: _,
            node,
            facts,
            k,
            set,
        } => Entry::Publish {
            author,
            call,
            node,
            facts,
            k,
            set,
        },
        Entry::Deactivate {
            author: _,
            call: _,
            node,
        } => Entry::Deactivate { author, call, node },
        Entry::Deploy {
            author: _,
            call: _,
            site,
        } => Entry::Deploy { author, call, site },
        Entry::Report {
            author: _,
            call: _,
            node,
            report,
        } => Entry::Report {
            author,
            call,
            node,
            report,
        },
    }
}
