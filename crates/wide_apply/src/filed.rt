//! Lines by the indexes of their resources, and what is known of those that had their turns.
ghost use Rattle.std.specs.Prelude.{◌≡◌, ◌<◌, ◌++◌, ◌∷◌, [], List, length, map, IfOk, OnOk};
ghost use Rattle.agent_transaction.specs.Runs.{Turned};
ghost use Rattle.wide_apply.specs.Apart.{back_of};
ghost use Rattle.wide_apply.specs.Going.{Related, AreFiled, AreKnown, AreWithin, SameSizes};
ghost use Rattle.wide_apply.specs.WideRuns.{rising_lines};

use crate::back::Back;
use crate::taken_turn::TakenTurn;
use agent_machine::{ReportLine, ReportLines};
use agent_marks::Marks;
use agent_transaction::{has_failed, mark_if, signals};
use pp_values::Memory;
use std::alloc::{AllocError, Global};
use std::mem;

/// Room for the lines of so many resources.
pub fn no_lines(alloc: Global, count: u32) -> Result<Vec<Vec<ReportLine>>, AllocError>
    ensures long { IfOk result (λ v. length v.items ≡ count) }
    ensures none { IfOk result (λ v. AreFiled [] v.items) }
{
    let mut slots = Vec::new(alloc);
    for _at in 0..count {
        slots.push(Vec::new(alloc))?;
    }
    Ok(slots)
}

fn put_line(
    alloc: Global,
    at: u32,
    line: ReportLine,
    slots: &mut Vec<Vec<ReportLine>>,
) -> Result<(), AllocError>
    requires { at < length slots.old.items }
    ensures long { OnOk result (length slots.new.items ≡ length slots.old.items) }
    ensures filed { OnOk result ((turned : List Turned) (t : Turned) → t.at ≡ at → t.line ≡ line →
        AreFiled turned slots.old.items →
        AreFiled (turned ++ t ∷ []) slots.new.items) }
{
    let mut held = mem::replace(&mut slots[at as usize], Vec::new(alloc));
    held.push(line)?;
    slots[at as usize] = held;
    Ok(())
}

/// Files what a turn came to: its line, and what it blocks and signals. The part is left.
fn file<P: Drop>(
    alloc: Global,
    taken: TakenTurn<P>,
    slots: &mut Vec<Vec<ReportLine>>,
    blocked: &mut Marks,
    signalled: &mut Marks,
) -> Result<Back<P>, Memory>
    requires slots { taken.at < length slots.old.items }
    requires blocked { taken.at < blocked.old.count }
    requires signalled { taken.at < signalled.old.count }
    ensures back { IfOk result (λ b. b ≡ back_of taken) }
    ensures sizes { OnOk result (SameSizes slots.old.items slots.new.items blocked.old blocked.new signalled.old
        signalled.new) }
    ensures known { OnOk result ((r : Related) (turned : List Turned) (t : Turned) → t.at ≡ taken.at →
        t.line ≡ taken.line →
        AreKnown r turned slots.old.items blocked.old signalled.old →
        AreKnown r (turned ++ t ∷ []) slots.new.items blocked.new signalled.new) }
{
    let TakenTurn {
        at,
        what,
        line,
        part,
    } = taken;
    mark_if(has_failed(&line), at, blocked);
    mark_if(signals(&line), at, signalled);
    put_line(alloc, at, line, slots)?;
    Ok(Back { what, part })
}

/// Files what the turns of a wave came to.
pub fn file_all<P: Drop>(
    alloc: Global,
    taken: Vec<TakenTurn<P>>,
    slots: &mut Vec<Vec<ReportLine>>,
    blocked: &mut Marks,
    signalled: &mut Marks,
) -> Result<Vec<Back<P>>, Memory>
    requires within { AreWithin (map (λ t. t.at) taken.items) slots.old.items blocked.old signalled.old }
    ensures back { IfOk result (λ v. v.items ≡ map back_of taken.items) }
    ensures sizes { OnOk result (SameSizes slots.old.items slots.new.items blocked.old blocked.new signalled.old
        signalled.new) }
    ensures known { OnOk result ((r : Related) (turned wave : List Turned) →
        map (λ t. t.at) wave ≡ map (λ t. t.at) taken.items →
        map (λ t. t.line) wave ≡ map (λ t. t.line) taken.items →
        AreKnown r turned slots.old.items blocked.old signalled.old →
        AreKnown r (turned ++ wave) slots.new.items blocked.new signalled.new) }
{
    let mut backs = Vec::with_capacity(alloc, taken.len())?;
    for turn in taken {
        backs.push(file(alloc, turn, slots, blocked, signalled)?)?;
    }
    Ok(backs)
}

/// All lines, by rising indexes.
pub fn lines_of(alloc: Global, slots: Vec<Vec<ReportLine>>) -> Result<ReportLines, Memory>
    ensures { IfOk result (λ l. (turned : List Turned) → AreFiled turned slots.items →
        l ≡ rising_lines 0 (length slots.items) turned) }
{
    let mut lines = Vec::new(alloc);
    for slot in slots {
        let mut slot = slot;
        lines.append(&mut slot)?;
    }
    Ok(ReportLines::from_vec(lines))
}
