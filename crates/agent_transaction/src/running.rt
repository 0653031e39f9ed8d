//! Something is run.
ghost use Rattle.std.specs.Prelude.{◌≡◌, ◌≤◌, [], vec_capacity};
ghost use Rattle.agent_transaction.specs.Faults.{run_change, refresh_fault};
ghost use Rattle.agent_transaction.specs.Steps.{Runs, RunsUnless};
ghost use Rattle.agent_transaction.specs.Turns.{Ends, Refreshed};

use crate::ended::Ended;
use crate::step::Step;
use crate::want::Want;
use agent_machine::{Holds, Machine};
use agent_marks::push_ready;
use pp_values::{Reference, Text};

/// Runs it, or tells that it would be run.
pub fn run<M: Machine>(
    noop: bool,
    what: &Reference,
    change: Text,
    fault: Text,
    machine: &mut M,
) -> Step
    requires change { change ≡ run_change }
    requires fault { fault ≡ refresh_fault }
    ensures { Runs noop what.now result (M.state machine.old) (M.state machine.new) }
{
    if noop {
        return Step::Changed(change);
    }
    match machine.refresh(what) {
        Holds::Yes => Step::Changed(change),
        Holds::No => unreachable!(),
        Holds::Failed => Step::Failed(fault),
    }
}

/// Runs it unless the file has the property.
pub fn run_unless<M: Machine>(
    noop: bool,
    what: &Reference,
    file: &Reference,
    want: Want,
    change: Text,
    fault: Text,
    machine: &mut M,
) -> Step
    requires change { change ≡ run_change }
    requires fault { fault ≡ refresh_fault }
    ensures { RunsUnless noop what.now file.now want result (M.state machine.old) (M.state machine.new) }
{
    match want.ask(file, machine) {
        Holds::Yes => Step::Kept,
        Holds::No => run(noop, what, change, fault, machine),
        Holds::Failed => Step::Failed(want.into_holds_fault()),
    }
}

/// Ends the work after one step, with room for what it changed.
pub fn end_after(step: Step, changes: &mut Vec<Text>) -> Ended
    requires empty { changes.old.items ≡ [] }
    requires room { 1 ≤ vec_capacity changes.old }
    ensures { Ends step changes.new.items result }
{
    match step {
        Step::Kept => Ended::Whole,
        Step::Changed(name) => {
            push_ready(changes, name);
            Ended::Whole
        }
        Step::Failed(fault) => Ended::Failed(fault),
        Step::Memory => Ended::Memory,
    }
}

/// Refreshes it once where signals ask for it. Else it tells which call failed.
pub fn refresh<M: Machine>(
    due: bool,
    what: &Reference,
    fault: Text,
    machine: &mut M,
) -> Result<bool, Text>
    requires { fault ≡ refresh_fault }
    ensures { Refreshed due what.now result (M.state machine.old) (M.state machine.new) }
{
    if !due {
        return Ok(false);
    }
    match machine.refresh(what) {
        Holds::Yes => Ok(true),
        Holds::No => unreachable!(),
        Holds::Failed => Err(fault),
    }
}
