//! What holds of every history, whatever the language.
ghost use Rattle.site_core.specs.Sets.{SetsAreTheLatest};
ghost use Rattle.site_core.specs.Legal.{PrefixesAreLegal};
ghost use Rattle.site_core.specs.Snapshots.{SnapshotsStay};
ghost use Rattle.site_core.specs.Steps.{RunsAreSound, ResumedRunsAreSound};
ghost use Rattle.site_core.specs.Fits.{RepliesStay, RepliesFitForLess};

use crate::language::Language;

/// From the opening on, or from a legal history on, over whatever begins, ends, is dropped and is asked for: the
/// history is legal and within its limit, the version and the site that are kept are those after all entries, and each
/// call in flight began with entries of the history.
pub fn runs_are_sound<L: Language>()
    ensures opened { RunsAreSound L.meaning }
    ensures resumed { ResumedRunsAreSound L.meaning }
{}

/// A prefix of a legal history is legal, unless it is empty.
pub fn prefixes_are_legal<L: Language>()
    ensures { PrefixesAreLegal L.meaning }
{}

/// A snapshot goes on showing the first entries of its history when the history grows.
pub fn snapshots_stay<L: Language>()
    ensures { SnapshotsStay L.Site }
{}

/// A node's set is that of its last publication, unless a deactivation came later.
pub fn sets_are_the_latest<L: Language>()
    ensures { SetsAreTheLatest L.Site }
{}

/// A reply that fits a history fits it also when it has grown within its limit, and fits for whoever had seen less.
pub fn replies_stay<L: Language>()
    ensures grown { RepliesStay L.meaning L.listed }
    ensures less { RepliesFitForLess L.meaning L.listed }
{}
