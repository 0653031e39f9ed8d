//! What journals tell.
ghost use Rattle.journal_reading.specs.JournalLaws.{JournalsAreToldApart, FirstJournalsAreToldApart};

/// No two histories have one text.
pub fn journals_are_told_apart()
    ensures { JournalsAreToldApart }
{}

/// No two histories have one text of the first version.
pub fn first_journals_are_told_apart()
    ensures { FirstJournalsAreToldApart }
{}
