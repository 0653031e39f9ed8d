//! The turn of a resource.
ghost use Rattle.std.specs.Prelude.{◌≡◌, ◌≤◌, ◌&&◌, [], length, vec_capacity};
ghost use Rattle.agent_transaction.specs.Faults.{run_change, refresh_fault};
ghost use Rattle.agent_transaction.specs.Room.{most};
ghost use Rattle.agent_transaction.specs.Turns.{Works, FinishGives, TurnGives, calm_status, line_of, skipped_line};

use crate::ended::Ended;
use crate::running::{end_after, refresh, run, run_unless};
use crate::setting::set_all;
use crate::task::Task;
use crate::work::Work;
use agent_machine::{Machine, ReportLine, Status};
use pp_values::{Memory, Reference, Text, Texts};

/// Does the work, with room for what it changes.
fn do_work<M: Machine>(
    noop: bool,
    what: &Reference,
    work: Work,
    changes: &mut Vec<Text>,
    change: Text,
    fault: Text,
    machine: &mut M,
) -> Ended
    requires empty { changes.old.items ≡ [] }
    requires room { most work ≤ vec_capacity changes.old }
    requires change { change ≡ run_change }
    requires fault { fault ≡ refresh_fault }
    ensures { Works noop what.now work changes.new.items result (M.state machine.old) (M.state machine.new) }
{
    match work {
        Work::Set(wants) => set_all(noop, what, wants, changes, machine),
        Work::Run => end_after(run(noop, what, change, fault, machine), changes),
        Work::RunUnless(file, want) => end_after(
            run_unless(noop, what, &file, want, change, fault, machine),
            changes,
        ),
        Work::Idle => Ended::Whole,
    }
}

/// Ends the turn: a call that failed is the last one.
fn finish<M: Machine>(
    due: bool,
    what: &Reference,
    ended: Ended,
    fault: Text,
    machine: &mut M,
) -> Result<Result<bool, Text>, Memory>
    requires { fault ≡ refresh_fault }
    ensures { FinishGives due what.now ended result (M.state machine.old) (M.state machine.new) }
{
    match ended {
        Ended::Whole => Ok(refresh(due, what, fault, machine)),
        Ended::Failed(fault) => Ok(Err(fault)),
        Ended::Memory => Err(Memory),
    }
}

fn calm_status(noop: bool, changes: &Texts) -> Status
    ensures { result ≡ calm_status noop changes.now }
{
    if changes.is_empty() {
        Status::Unchanged
    } else if noop {
        Status::Noop
    } else {
        Status::Changed
    }
}

fn line_of(what: Reference, noop: bool, changes: Texts, refreshed: Result<bool, Text>) -> ReportLine
    ensures { result ≡ line_of what noop changes refreshed }
{
    match refreshed {
        Ok(refreshed) => ReportLine {
            item: what,
            status: calm_status(noop, &changes),
            changes,
            refreshed,
            fault: None,
        },
        Err(fault) => ReportLine {
            item: what,
            status: Status::Failed,
            changes,
            refreshed: false,
            fault: Some(fault),
        },
    }
}

/// One turn, with room for what it changes and the texts that its line may have.
pub fn turn<M: Machine>(
    task: Task,
    signalled: bool,
    room: Vec<Text>,
    change: Text,
    run_fault: Text,
    fault: Text,
    machine: &mut M,
) -> Result<ReportLine, Memory>
    requires empty { room.items ≡ [] }
    requires room { most task.work ≤ vec_capacity room }
    requires change { change ≡ run_change }
    requires run_fault { run_fault ≡ refresh_fault }
    requires fault { fault ≡ refresh_fault }
    ensures { TurnGives task signalled result (M.state machine.old) (M.state machine.new) }
{
    let Task {
        what,
        noop,
        refreshes,
        work,
    } = task;
    let mut changes = room;
    let ended = do_work(noop, &what, work, &mut changes, change, run_fault, machine);
    match finish(signalled && refreshes, &what, ended, fault, machine) {
        Ok(refreshed) => Ok(line_of(what, noop, Texts::from_vec(changes), refreshed)),
        Err(Memory) => Err(Memory),
    }
}

/// The line of a resource that is not looked at.
pub fn skipped_line(task: Task, room: Vec<Text>) -> ReportLine
    requires { room.items ≡ [] }
    ensures { result ≡ skipped_line task.what }
{
    let Task {
        what,
        noop: _noop,
        refreshes: _refreshes,
        work: _work,
    } = task;
    ReportLine {
        item: what,
        status: Status::Skipped,
        changes: Texts::from_vec(room),
        refreshed: false,
        fault: None,
    }
}
