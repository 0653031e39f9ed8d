//! Properties are set right, each before the next one is asked for.
ghost use Rattle.std.specs.Prelude.{◌≡◌, ◌≤◌, [], length, vec_capacity};
ghost use Rattle.agent_transaction.specs.Steps.{Corrects, SetsRight};
ghost use Rattle.agent_transaction.specs.Turns.{SetsAll};

use crate::ended::Ended;
use crate::step::Step;
use crate::want::Want;
use crate::wants::Wants;
use agent_machine::{Holds, Machine, Wrote};
use agent_marks::push_ready;
use pp_values::{Reference, Text};

/// Writes a property that differs, or tells that it would be written.
fn correct<M: Machine>(noop: bool, what: &Reference, want: Want, machine: &mut M) -> Step
    ensures { Corrects noop what.now want result (M.state machine.old) (M.state machine.new) }
{
    if noop {
        return Step::Changed(want.into_name());
    }
    match want.write(what, machine) {
        Wrote::Done => Step::Changed(want.into_name()),
        Wrote::Failed => Step::Failed(want.into_write_fault()),
        Wrote::Memory => Step::Memory,
    }
}

fn set_right<M: Machine>(noop: bool, what: &Reference, want: Want, machine: &mut M) -> Step
    ensures { SetsRight noop what.now want result (M.state machine.old) (M.state machine.new) }
{
    match want.ask(what, machine) {
        Holds::Yes => Step::Kept,
        Holds::No => correct(noop, what, want, machine),
        Holds::Failed => Step::Failed(want.into_holds_fault()),
    }
}

/// Sets the properties right. There is room for what is changed.
pub fn set_all<M: Machine>(
    noop: bool,
    what: &Reference,
    wants: Wants,
    changes: &mut Vec<Text>,
    machine: &mut M,
) -> Ended
    requires empty { changes.old.items ≡ [] }
    requires room { length wants ≤ vec_capacity changes.old }
    ensures { SetsAll noop what.now wants changes.new.items result (M.state machine.old) (M.state machine.new) }
{
    let mut left = wants;
    while let Some(want) = left.take() {
        match set_right(noop, what, want, machine) {
            Step::Kept => {}
            Step::Changed(name) => push_ready(changes, name),
            Step::Failed(fault) => return Ended::Failed(fault),
            Step::Memory => return Ended::Memory,
        }
    }
    Ended::Whole
}
