ghost use Rattle.std.specs.Prelude.{◌≡◌, ◌<◌, ◌+◌, ◌^◌, ℕ, [], ◌∷◌, ◌++◌, List, length, is_some, if◌then◌else◌, IfOk, IfSome, OnOk, option_copied, slice_get};
ghost use Rattle.std.specs.Arc.{arc_value};
ghost use Rattle.site_core.specs.EntryViews.{event_of};
ghost use Rattle.site_core.specs.Events.{Event, opens, is_by, calls_of};
ghost use Rattle.site_core.specs.Counts.{count_in};
ghost use Rattle.site_core.specs.Sets.{sets_after, site_after};
ghost use Rattle.site_core.specs.declared.history.TheConstants.{MOST_ENTRIES};
ghost use Rattle.history_audit.specs.Audits.{is_earlier};
ghost use Rattle.history_audit.specs.Pasts.{IsAfter, Keeps};

use crate::stage::Stage;
use export_store::Version;
use pp_values::Memory;
use site_core::Entry;
use std::alloc::Global;
use std::collections::BTreeMap;
use std::sync::Arc;

/// What is kept of the entries that were looked at: how many each author made, and what the first `k` of them come to,
/// for each `k` from 1 on.
#[derive(Drop)]
pub struct Past<S> {
    pub counts: BTreeMap<u32, u32>,
    /// At place `k - 1` what the first `k` entries come to.
    pub stages: Vec<Stage<S>>,
}

impl<S> Past<S> {
    /// One entry was looked at: it opens this site.
    pub fn open(alloc: Global, site: &Arc<S>) -> Result<Past<S>, Memory>
    where
        S: Drop,
        ensures { IfOk result (λ p. Keeps p (opens (arc_value site.now) ∷ [])) }
    {
        let mut stages = Vec::new(alloc);
        stages.push(Stage {
            site: site.clone()?,
            version: Version::empty(alloc),
        })?;
        Ok(Past {
            counts: BTreeMap::new(alloc),
            stages,
        })
    }

    /// How many entries of this author were looked at.
    pub fn count(&self, author: u32) -> u32
        ensures { (h : List (Event S)) → Keeps self.now h → result ≡ calls_of author h }
    {
        self.counts.get(&author).copied().unwrap_or(0)
    }

    /// What the first `k` entries come to, where `k` is from 1 to the number of entries.
    pub fn stage(&self, k: u32) -> Option<&Stage<S>>
        ensures there { (h : List (Event S)) → Keeps self.now h → is_some result ≡ is_earlier k h }
        ensures shown { (h : List (Event S)) → Keeps self.now h → IfSome result (λ s. IsAfter s.now h k) }
    {
        let place = k.checked_sub(1)?;
        stage_at(&self.stages, place as usize)
    }

    /// One more entry was looked at. Where there is no memory, nothing is known of what is kept.
    pub fn add(&mut self, alloc: Global, entry: &Entry<S>) -> Result<(), Memory>
    where
        S: Drop,
        requires { (h : List (Event S)) × (Keeps self.old h × (length h < MOST_ENTRIES)) }
        ensures { (h : List (Event S)) → Keeps self.old h →
            OnOk result (Keeps self.new (h ++ event_of entry.now ∷ [])) }
    {
        let stage = match self.stages.last() {
            Some(stage) => stage_after(alloc, stage, entry)?,
            None => unreachable!(),
        };
        count_entry(&mut self.counts, entry)?;
        self.stages.push(stage)?;
        Ok(())
    }
}

fn stage_at<S>(stages: &[Stage<S>], place: usize) -> Option<&Stage<S>>
    ensures { option_copied result ≡ slice_get stages.now place }
{
    stages.get(place)
}

/// One more entry of its author was looked at.
fn count_entry<S>(counts: &mut BTreeMap<u32, u32>, entry: &Entry<S>) -> Result<(), Memory>
    requires { (author : ℕ) → count_in counts.old author + 1 < 2 ^ 32 }
    ensures { OnOk result ((author : ℕ) → count_in counts.new author
        ≡ count_in counts.old author + (if is_by author (event_of entry.now) then 1 else 0)) }
{
    if let Some(author) = entry.author() {
        let count = counts.get(&author).copied().unwrap_or(0);
        counts.insert(author, count + 1)?;
    }
    Ok(())
}

/// What the entries come to with this one behind them.
fn stage_after<S>(alloc: Global, stage: &Stage<S>, entry: &Entry<S>) -> Result<Stage<S>, Memory>
where
    S: Drop,
    ensures sets { IfOk result (λ next. next.version ≡ sets_after stage.now.version (event_of entry.now)) }
    ensures site { IfOk result (λ next.
        arc_value next.site ≡ site_after (arc_value stage.now.site) (event_of entry.now)) }
{
    let version = version_after(alloc, &stage.version, entry)?;
    let site = site_of(&stage.site, entry).clone()?;
    Ok(Stage { site, version })
}

fn version_after<S>(alloc: Global, version: &Version, entry: &Entry<S>) -> Result<Version, Memory>
    ensures { IfOk result (λ next. next ≡ sets_after version.now (event_of entry.now)) }
{
    match entry {
        Entry::Publish { node, set, .. } => version.with(alloc, node, set.clone()?),
        Entry::Deactivate { node, .. } => version.without(alloc, node),
        Entry::Open { .. } | Entry::Deploy { .. } | Entry::Report { .. } => version.copy(alloc),
    }
}

// The site that the entry carries, else the one before.
fn site_of<'a, S>(before: &'a Arc<S>, entry: &'a Entry<S>) -> &'a Arc<S>
    ensures { arc_value result.now ≡ site_after (arc_value before.now) (event_of entry.now) }
{
    match entry {
        Entry::Open { site } | Entry::Deploy { site, .. } => site,
        Entry::Publish { .. } | Entry::Deactivate { .. } | Entry::Report { .. } => before,
    }
}
