//! What holds of every turn, and of every run.
ghost use Rattle.std.specs.Prelude.{IsTrue};
ghost use Rattle.agent_transaction.specs.Laws.{ToldTurn, SomeToldTurn};
ghost use Rattle.agent_transaction.specs.SecondRuns.{OneToldRun, SomeToldRun, SecondRunChangesNothing, is_state};
ghost use Rattle.agent_transaction.specs.Sentences.{RunSays, RefreshedOnce};

use agent_machine::MachineDoc;

/// So on a machine that tells its content the definition leaves no choice: one line, and one content after it.
pub fn a_told_turn_is_one()
    ensures { ToldTurn }
{}

/// So such a machine can have any turn.
pub fn there_is_a_told_turn()
    ensures { SomeToldTurn }
{}

/// So the catalog and the content that a run finds decide its report, and what it leaves.
pub fn a_told_run_is_one()
    ensures { OneToldRun }
{}

/// So laws of such runs speak of each catalog that a compile can make.
pub fn there_is_a_told_run()
    ensures { SomeToldRun }
{}

/// So a report tells of each resource what became of it: each after all that comes before it, skipped exactly behind a
/// failure, refreshed exactly where a source was changed or refreshed.
pub fn a_report_says_what_was_done()
    ensures { RunSays }
{}

/// So that is one refresh, however many sources there are.
pub fn a_refresh_is_one()
    ensures { RefreshedOnce }
{}

/// So what a run has set right needs no second one.
pub fn a_second_run_changes_nothing()
    ensures { SecondRunChangesNothing }
{}

/// So the records of a machine in memory are as that law wants them.
pub fn records_rise(document: &MachineDoc)
    ensures { IsTrue (is_state document.now.state) }
{
    let _records = document.state.as_map().iter();
}
