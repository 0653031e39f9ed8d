//! What is kept beside a history, from its entries.
ghost use Rattle.std.specs.Prelude.{◌≡◌, length, IfOk, option_map};
ghost use Rattle.std.specs.Arc.{arc_value};
ghost use Rattle.site_core.specs.EntryViews.{event_of, events_of};
ghost use Rattle.site_core.specs.Sets.{sets_at, sets_after, first_of, site_in, site_at};

use crate::entry::Entry;
use export_store::Version;
use pp_values::Memory;
use std::alloc::Global;
use std::sync::Arc;

/// The sets after these entries.
pub fn version_of<S>(alloc: Global, entries: &[Entry<S>]) -> Result<Version, Memory>
    ensures { IfOk result (λ v. v ≡ sets_at (events_of entries.now) (length (events_of entries.now))) }
{
    let mut version = Version::empty(alloc);
    let mut left = entries;
    while let [entry, after @ ..] = left {
        version = version_after(alloc, version, entry)?;
        left = after;
    }
    Ok(version)
}

fn version_after<S>(alloc: Global, version: Version, entry: &Entry<S>) -> Result<Version, Memory>
    ensures { IfOk result (λ v. v ≡ sets_after version (event_of entry.now)) }
{
    match entry {
        Entry::Publish { node, set, .. } => version.with(alloc, node, set.clone()?),
        Entry::Deactivate { node, .. } => version.without(alloc, node),
        Entry::Open { .. } | Entry::Deploy { .. } | Entry::Report { .. } => Ok(version),
    }
}

/// The site after these entries, if one was opened or deployed.
pub fn latest_site<S>(entries: &[Entry<S>]) -> Option<&Arc<S>>
    ensures { option_map (λ a. arc_value a.now) result
        ≡ site_at (events_of entries.now) (length (events_of entries.now)) }
{
    let mut latest = None;
    let mut left = entries;
    while let [entry, after @ ..] = left {
        latest = later_of(latest, entry);
        left = after;
    }
    latest
}

// The site that the entry carries, else the latest so far.
fn later_of<'a, S>(latest: Option<&'a Arc<S>>, entry: &'a Entry<S>) -> Option<&'a Arc<S>>
    ensures { option_map (λ a. arc_value a.now) result
        ≡ first_of (site_in (event_of entry.now)) (option_map (λ a. arc_value a.now) latest.entry) }
{
    match entry {
        Entry::Open { site } | Entry::Deploy { site, .. } => Some(site),
        Entry::Publish { .. } | Entry::Deactivate { .. } | Entry::Report { .. } => latest,
    }
}
