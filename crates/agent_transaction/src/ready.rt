ghost use Rattle.std.specs.Prelude.{◌≡◌, ◌≤◌, IfOk, option_map, vec_capacity};
ghost use Rattle.agent_transaction.specs.Room.{most};
ghost use Rattle.agent_transaction.specs.Tasks.{creates_of};
ghost use Rattle.agent_transaction.specs.Turns.{TurnGives, skipped_line};

use crate::task::Task;
use crate::turns::{skipped_line, turn};
use crate::work::Work;
use agent_machine::{Machine, ReportLine};
use pp_values::{Memory, Reference, Text};
use std::alloc::Global;
use std::marker::Model;

/// A task with all that its turn needs, so that the turn takes no memory but what the machine's writes take.
///
/// A contract sees the task.
#[derive(Drop)]
pub struct Ready {
    task: Task,
    changes: Vec<Text>,
    change: Text,
    run_fault: Text,
    fault: Text,
}

impl Model for Ready {
    ghost use Rattle.std.specs.Prelude.{vec_capacity};
    ghost use Rattle.agent_transaction.specs.Room.{IsReady};
    ghost use Rattle.agent_transaction.specs.declared.task.Task.{Task as Seen};
    ghost use Rattle.agent_transaction.specs.contracts.task.Task as tasks;

    ghost Value = { Seen };

    ghost coded = { tasks.the_row.coded };

    ghost view = { λ r. r.task };

    ghost invariant = { λ r. IsReady r.task.work r.changes.items (vec_capacity r.changes) r.change r.run_fault r.fault };
}

fn most(work: &Work) -> usize
    ensures { result ≡ most work.now }
{
    match work {
        Work::Set(wants) => wants.len(),
        Work::Run => 1,
        Work::RunUnless(_file, _want) => 1,
        Work::Idle => 1,
    }
}

impl Ready {
    pub fn new(alloc: Global, task: Task) -> Result<Ready, Memory>
        ensures { IfOk result (λ r. r ≡ task) }
    {
        let changes = Vec::with_capacity(alloc, most(&task.work))?;
        let change = Text::from_str(alloc, "run")?;
        let run_fault = Text::from_str(alloc, "refresh")?;
        let fault = Text::from_str(alloc, "refresh")?;
        Ok(Ready {
            task,
            changes,
            change,
            run_fault,
            fault,
        })
    }

    /// The resource whose turn it is.
    pub fn what(&self) -> &Reference
        ensures { result.now ≡ self.now.what }
    {
        &self.task.what
    }

    /// The file that is asked for before something is run.
    pub fn creates(&self) -> Option<&Text>
        ensures { option_map (λ t. t.now) result ≡ creates_of self.now.work }
    {
        match &self.task.work {
            Work::RunUnless(file, _want) => Some(&file.title),
            _ => None,
        }
    }

    /// The line where it isn't looked at.
    pub fn into_skipped(self) -> ReportLine
        ensures { result ≡ skipped_line self.what }
    {
        let Ready {
            task,
            changes,
            change: _change,
            run_fault: _run_fault,
            fault: _fault,
        } = self;
        skipped_line(task, changes)
    }

    /// The turn, with one refresh more where it was signalled and signals refresh it.
    pub fn turn<M: Machine>(self, signalled: bool, machine: &mut M) -> Result<ReportLine, Memory>
        ensures { TurnGives self signalled result (M.state machine.old) (M.state machine.new) }
    {
        let Ready {
            task,
            changes,
            change,
            run_fault,
            fault,
        } = self;
        turn(task, signalled, changes, change, run_fault, fault, machine)
    }
}
