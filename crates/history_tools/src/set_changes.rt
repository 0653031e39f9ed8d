//! The sets after a round, and the first of them that changed.
ghost use Rattle.std.specs.Prelude.{◌≡◌, ◌≤◌, drop, length, IfOk, option_copied};
ghost use Rattle.site_core.specs.EntryViews.{event_of, events_of};
ghost use Rattle.site_core.specs.Sets.{sets_after, sets_from};
ghost use Rattle.history_tools.specs.Rounds.{FirstApart};

use crate::sameness::is_same_choice;
use export_store::Version;
use pp_values::{Memory, Text};
use site_core::{Entries, Entry};
use std::alloc::Global;

/// The sets after all entries, by those before the entries from this one on.
pub fn sets_behind<S>(
    alloc: Global,
    before: &Version,
    entries: &Entries<S>,
    start: usize,
) -> Result<Version, Memory>
    requires { start ≤ length entries.now }
    ensures { IfOk result (λ v. v ≡ sets_from before.now (drop start entries.now)) }
{
    sets_with(alloc, before.copy(alloc)?, entries_from(entries, start))
}

fn entries_from<S>(entries: &Entries<S>, start: usize) -> &[Entry<S>]
    requires { start ≤ length entries.now }
    ensures { events_of result.now ≡ drop start entries.now }
{
    &entries.as_slice()[start..]
}

/// The sets after these entries more.
fn sets_with<S>(alloc: Global, before: Version, entries: &[Entry<S>]) -> Result<Version, Memory>
    ensures { IfOk result (λ v. v ≡ sets_from before (events_of entries.now)) }
{
    let mut sets = before;
    let mut left = entries;
    while let [entry, after @ ..] = left {
        sets = sets_with_entry(alloc, sets, entry)?;
        left = after;
    }
    Ok(sets)
}

fn sets_with_entry<S>(alloc: Global, sets: Version, entry: &Entry<S>) -> Result<Version, Memory>
    ensures { IfOk result (λ v. v ≡ sets_after sets (event_of entry.now)) }
{
    match entry {
        Entry::Publish { node, set, .. } => sets.with(alloc, node, set.clone()?),
        Entry::Deactivate { node, .. } => sets.without(alloc, node),
        Entry::Open { .. } | Entry::Deploy { .. } | Entry::Report { .. } => Ok(sets),
    }
}

/// The first of the nodes whose sets differ.
pub fn first_changed<'a>(nodes: &'a [Text], before: &Version, after: &Version) -> Option<&'a Text>
    ensures { FirstApart before.now after.now nodes.now (option_copied result) }
{
    let mut left = nodes;
    while let [node, rest @ ..] = left {
        if is_same_choice(before.get(node), after.get(node)) {
            left = rest;
        } else {
            return Some(node);
        }
    }
    None
}
