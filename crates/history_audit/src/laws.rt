//! What an audit says of every history, whatever the language.
ghost use Rattle.history_audit.specs.Laws.{SaysLegalExactly, TellsTheFirst};

use site_core::Language;

/// `Legal` is said exactly where the history is legal, with the number of its entries.
pub fn says_legal_exactly<L: Language>()
    ensures { SaysLegalExactly L.meaning }
{}

/// What is said to be broken is the first entry that breaks a rule, by the first rule that it breaks.
pub fn tells_the_first<L: Language>()
    ensures { TellsTheFirst L.meaning }
{}
