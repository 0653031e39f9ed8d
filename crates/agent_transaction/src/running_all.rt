//! One turn after another.
ghost use Rattle.std.specs.Prelude.{◌≡◌, ◌<◌, ◌≤◌, ℕ, List, [], map, length, vec_capacity};
ghost use Rattle.rel_graph.specs.Before.{Before, Direct};
ghost use Rattle.agent_marks.specs.Spreads.{IsNew};
ghost use Rattle.agent_transaction.specs.Marking.{planned_pair, SpreadsIf, LineGives, AreBelow};
ghost use Rattle.agent_transaction.specs.Runs.{has_failed, signals, RunGives};

use crate::plan::Plan;
use crate::planned::Planned;
use agent_machine::{Machine, ReportLine, ReportLines, Status};
use agent_marks::{Marks, push_ready};
use pp_values::Memory;

/// Marks what a source leads to.
pub fn mark_if(is_source: bool, at: u32, marks: &mut Marks)
    requires { at < marks.old.count }
    ensures { SpreadsIf is_source at marks.old marks.new }
{
    if is_source {
        marks.mark(at);
    }
}

/// Whether a call of its turn failed.
pub fn has_failed(line: &ReportLine) -> bool
    ensures { result ≡ has_failed line.now }
{
    line.status == Status::Failed
}

/// Whether the resource signals.
pub fn signals(line: &ReportLine) -> bool
    ensures { result ≡ signals line.now }
{
    line.status == Status::Changed || line.refreshed
}

/// The line of a resource that is blocked, or else its turn.
fn turn_of<M: Machine>(
    planned: Planned,
    blocked: &Marks,
    signalled: &Marks,
    machine: &mut M,
) -> Result<ReportLine, Memory>
    ensures { LineGives blocked.now signalled.now planned.at planned.ready result (M.state machine.old) (M.state machine.new) }
{
    let Planned { at, ready } = planned;
    if blocked.is_marked(at) {
        return Ok(ready.into_skipped());
    }
    ready.turn(signalled.is_marked(at), machine)
}

/// Has one turn after another, with room for their lines.
pub fn run<M: Machine>(
    plan: Plan,
    room: Vec<ReportLine>,
    blocked: Marks,
    signalled: Marks,
    machine: &mut M,
) -> Result<ReportLines, Memory>
    requires below { AreBelow blocked.count plan }
    requires below_too { AreBelow signalled.count plan }
    requires empty { room.items ≡ [] }
    requires room { length plan ≤ vec_capacity room }
    ensures { (containers edges signals : List (ℕ × ℕ)) (count : ℕ) → IsNew count (Before containers edges) blocked →
        IsNew count (Direct containers signals) signalled →
        RunGives (Before containers edges) (Direct containers signals) (map planned_pair plan) result
        (M.state machine.old) (M.state machine.new) }
{
    let mut left = plan;
    let mut lines = room;
    let mut blocked = blocked;
    let mut signalled = signalled;
    while let Some(planned) = left.take() {
        let at = planned.at;
        let line = turn_of(planned, &blocked, &signalled, machine)?;
        mark_if(has_failed(&line), at, &mut blocked);
        mark_if(signals(&line), at, &mut signalled);
        push_ready(&mut lines, line);
    }
    Ok(ReportLines::from_vec(lines))
}
