//! What holds of every search, whatever the language.
ghost use Rattle.site_core.specs.declared.history.TheConstants.{MOST_ENTRIES};
ghost use Rattle.history_tools.specs.Settles.{SettledIsMeant};
ghost use Rattle.history_tools.specs.OneWorker.{OneAuthorCounts};

use site_core::Language;

/// Where a search ends as settled, each node that the site lists has the set that what all entries mean for it exports.
pub fn settled_is_meant<L: Language>()
    ensures { SettledIsMeant L.meaning L.listed MOST_ENTRIES }
{}

/// A search by one worker writes the calls 0, 1, 2 and so on of author 0, through all rounds.
pub fn one_author_counts<L: Language>()
    ensures { OneAuthorCounts L.meaning }
{}
