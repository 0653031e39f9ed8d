//! What holds of requests that are answered one after another, whatever the language.
ghost use Rattle.site_core.specs.declared.history.TheConstants.{MOST_ENTRIES};
ghost use Rattle.site_sequence.specs.SequenceLaws.{AnswersAreMeant, MeantIsAnswered, RepliesNameEntries, PublicationsAreInTurn, TurnsAreWhole, WholeIsInTurn, OneResult};

use site_core::Language;

/// Where no reply is want of memory, requests have one result.
pub fn results_are_determined<L: Language>()
    ensures one { AnswersAreMeant L.meaning L.listed MOST_ENTRIES }
    ensures run { MeantIsAnswered L.meaning L.listed MOST_ENTRIES }
{}

/// The replies name the entries that they added, in order and each once.
pub fn replies_name_entries<L: Language>()
    ensures { RepliesNameEntries L.meaning L.listed MOST_ENTRIES }
{}

/// Each publication was made from all entries before it: its `k` is its number.
pub fn publications_are_made_in_turn<L: Language>()
    ensures { PublicationsAreInTurn L.meaning L.listed MOST_ENTRIES }
{}

/// Requests that are answered in turn over a new site are the whole work of one author.
pub fn turns_are_whole<L: Language>()
    ensures { TurnsAreWhole L.meaning L.listed MOST_ENTRIES }
{}

/// What one worker did is what comes of the requests one after another, and where memory is never wanting, it has one
/// result.
pub fn one_worker_has_one_result<L: Language>()
    ensures in_turn { WholeIsInTurn L.meaning L.listed MOST_ENTRIES }
    ensures one { OneResult L.meaning L.listed MOST_ENTRIES }
{}
