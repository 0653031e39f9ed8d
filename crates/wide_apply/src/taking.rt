//! One wave after another.
ghost use Rattle.std.specs.Prelude.{◌≡◌, ◌<◌, [], map, length, List, ℕ, OnOk, OnErr};
ghost use Rattle.std.specs.List.{All};
ghost use Rattle.agent_marks.specs.Spreads.{IsNew};
ghost use Rattle.agent_transaction.specs.Marking.{planned_pair};
ghost use Rattle.agent_transaction.specs.Runs.{Turned};
ghost use Rattle.wide_apply.specs.Apart.{TakesBackIf, BackGives};
ghost use Rattle.wide_apply.specs.Going.{Related, comes, leads, tasks_in, AreKnown, AreWithin, SameSizes, WaveGives};
ghost use Rattle.wide_apply.specs.Going.{WavesGive};

use crate::back::Back;
use crate::begun::begin_all;
use crate::filed::{file_all, lines_of, no_lines};
use crate::sharing::take_side_by_side;
use agent_machine::{ReportLine, ReportLines, WideMachine};
use agent_marks::Marks;
use agent_transaction::Planned;
use pp_values::Memory;
use std::alloc::Global;
use std::thread::Threads;

/// Gives a part back to the machine, where there is one.
fn give_back_one<W: WideMachine>(back: Back<W::Part>, machine: &mut W) -> Result<(), Memory>
where
    W::Part: Drop,
    ensures back { OnOk result (TakesBackIf W.Part.Machine.state back.what back.part (W.Machine.state machine.old)
        (W.Machine.state machine.new)) }
    ensures same { OnErr result (W.Machine.state machine.new ≡ W.Machine.state machine.old) }
{
    let Back { what, part } = back;
    match part {
        Some(part) => machine.put_back(&what, part),
        None => Ok(()),
    }
}

fn give_back<W: WideMachine>(backs: Vec<Back<W::Part>>, machine: &mut W) -> Result<(), Memory>
where
    W::Part: Drop,
    ensures { BackGives W.Part.Machine.state backs.items result (W.Machine.state machine.old)
        (W.Machine.state machine.new) }
{
    for back in backs {
        give_back_one(back, machine)?;
    }
    Ok(())
}

/// Takes the turns of a wave.
fn take_wave<W: WideMachine, R: Threads>(
    rt: &R,
    alloc: Global,
    wave: Vec<Planned>,
    workers: u32,
    slots: &mut Vec<Vec<ReportLine>>,
    blocked: &mut Marks,
    signalled: &mut Marks,
    machine: &mut W,
) -> Result<(), Memory>
where
    W::Part: Drop + 'static,
    requires workers { 0 < workers }
    requires within { AreWithin (map (λ p. p.at) wave.items) slots.old.items blocked.old signalled.old }
    ensures sizes { OnOk result (SameSizes slots.old.items slots.new.items blocked.old blocked.new signalled.old
        signalled.new) }
    ensures wave { (r : Related) (earlier : List Turned) → AreKnown r earlier slots.old.items blocked.old
        signalled.old →
        WaveGives r earlier (map planned_pair wave.items) result slots.new.items blocked.new signalled.new
        (W.Machine.state machine.old) (W.Machine.state machine.new) }
{
    let turns = begin_all(alloc, wave, blocked, signalled, machine)?;
    let taken = take_side_by_side(rt, alloc, turns, workers)?;
    let backs = file_all(alloc, taken, slots, blocked, signalled)?;
    give_back(backs, machine)
}

/// Takes one wave after another, and gives the lines by rising indexes.
pub fn take_waves<W: WideMachine, R: Threads>(
    rt: &R,
    alloc: Global,
    count: u32,
    waves: Vec<Vec<Planned>>,
    workers: u32,
    mut blocked: Marks,
    mut signalled: Marks,
    machine: &mut W,
) -> Result<ReportLines, Memory>
where
    W::Part: Drop + 'static,
    requires workers { 0 < workers }
    requires below { All (λ wave. All (λ p. p.at < count) wave.items) waves.items }
    requires blocked { blocked.count ≡ count }
    requires signalled { signalled.count ≡ count }
    ensures { (r : Related) → IsNew count (comes r) blocked → IsNew count (leads r) signalled →
        WavesGive r (tasks_in waves.items) count result (W.Machine.state machine.old) (W.Machine.state machine.new) }
{
    let mut slots = no_lines(alloc, count)?;
    for wave in waves {
        take_wave(
            rt,
            alloc,
            wave,
            workers,
            &mut slots,
            &mut blocked,
            &mut signalled,
            machine,
        )?;
    }
    lines_of(alloc, slots)
}
