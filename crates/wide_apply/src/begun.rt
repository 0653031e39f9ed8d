//! The turns of a wave are begun, each with its part of the machine.
ghost use Rattle.std.specs.Prelude.{◌≡◌, IfOk};
ghost use Rattle.std.specs.List.{AllZip};
ghost use Rattle.wide_apply.specs.Apart.{Begins, HasPart};

use crate::apart_turn::ApartTurn;
use agent_machine::WideMachine;
use agent_marks::Marks;
use agent_transaction::{Planned, Ready};
use pp_values::Memory;
use std::alloc::Global;

/// The part of the machine for a turn, unless the resource is blocked.
fn part_for<W: WideMachine>(
    at: u32,
    ready: &Ready,
    blocked: &Marks,
    machine: &mut W,
) -> Result<Option<W::Part>, Memory>
where
    W::Part: Drop,
    ensures part { IfOk result (λ o. HasPart W.Part.Machine.state blocked.now at ready.now
        (W.Machine.state machine.old) o) }
    ensures same { W.Machine.state machine.new ≡ W.Machine.state machine.old }
{
    if blocked.is_marked(at) {
        return Ok(None);
    }
    let part = machine.part(ready.what(), ready.creates())?;
    Ok(Some(part))
}

fn begin<W: WideMachine>(
    planned: Planned,
    blocked: &Marks,
    signalled: &Marks,
    machine: &mut W,
) -> Result<ApartTurn<W::Part>, Memory>
where
    W::Part: Drop,
    ensures begins { IfOk result (λ t. Begins W.Part.Machine.state blocked.now signalled.now
        (W.Machine.state machine.old) planned t) }
    ensures same { W.Machine.state machine.new ≡ W.Machine.state machine.old }
{
    let Planned { at, ready } = planned;
    let part = part_for(at, &ready, blocked, machine)?;
    Ok(ApartTurn {
        at,
        ready,
        is_signalled: signalled.is_marked(at),
        part,
    })
}

/// Begins the turns of a wave. The machine stays as it was.
pub fn begin_all<W: WideMachine>(
    alloc: Global,
    wave: Vec<Planned>,
    blocked: &Marks,
    signalled: &Marks,
    machine: &mut W,
) -> Result<Vec<ApartTurn<W::Part>>, Memory>
where
    W::Part: Drop,
    ensures begins { IfOk result (λ v. AllZip (Begins W.Part.Machine.state blocked.now signalled.now
        (W.Machine.state machine.old)) wave.items v.items) }
    ensures same { W.Machine.state machine.new ≡ W.Machine.state machine.old }
{
    let mut turns = Vec::with_capacity(alloc, wave.len())?;
    for planned in wave {
        turns.push(begin(planned, blocked, signalled, machine)?)?;
    }
    Ok(turns)
}
