//! Which turns are taken at once.
ghost use Rattle.std.specs.Prelude.{◌≡◌, ◌<◌, ◌++◌, ◌∷◌, [], ℕ, List, map, length, IfOk, OnOk};
ghost use Rattle.std.specs.List.{All};
ghost use Rattle.agent_marks.specs.Levels.{level_of};
ghost use Rattle.agent_transaction.specs.Marking.{planned_pair};
ghost use Rattle.agent_transaction.specs.declared.planned.Planned.{Planned as Seen};
ghost use Rattle.wide_apply.specs.Going.{tasks_in};
ghost use Rattle.wide_apply.specs.Waves.{waves_from, IsDivided};

use agent_marks::Levels;
use agent_transaction::Planned;
use std::alloc::{AllocError, Global};
use std::mem;

/// The indexes of these resources.
pub fn indexes_of(alloc: Global, plan: &[Planned]) -> Result<Vec<u32>, AllocError>
    ensures { IfOk result (λ v. v.items ≡ map (λ p. p.at) plan.now) }
{
    let mut indexes = Vec::with_capacity(alloc, plan.len())?;
    for planned in plan {
        indexes.push(planned.at)?;
    }
    Ok(indexes)
}

/// Makes as many waves as there have to be, so that there is one of this number.
fn grow(alloc: Global, number: usize, waves: &mut Vec<Vec<Planned>>) -> Result<(), AllocError>
    ensures long { OnOk result (number < length waves.new.items) }
    ensures divided { OnOk result ((wave : ℕ → ℕ) (tasks : List Seen) → IsDivided wave tasks waves.old.items →
        IsDivided wave tasks waves.new.items) }
{
    while waves.len() <= number {
        waves.push(Vec::new(alloc))?;
    }
    Ok(())
}

/// Puts a turn into the wave of this number.
fn put(
    alloc: Global,
    planned: Planned,
    number: usize,
    waves: &mut Vec<Vec<Planned>>,
) -> Result<(), AllocError>
    requires { number < length waves.old.items }
    ensures { OnOk result ((wave : ℕ → ℕ) (tasks : List Seen) → wave planned.at ≡ number →
        IsDivided wave tasks waves.old.items →
        IsDivided wave (tasks ++ planned ∷ []) waves.new.items) }
{
    let mut held = mem::replace(&mut waves[number], Vec::new(alloc));
    held.push(planned)?;
    waves[number] = held;
    Ok(())
}

/// The turns by their levels.
pub fn waves_of(
    alloc: Global,
    plan: Vec<Planned>,
    levels: &Levels,
) -> Result<Vec<Vec<Planned>>, AllocError>
    ensures { IfOk result (λ v. IsDivided (level_of levels.now) plan.items v.items) }
{
    let mut waves = Vec::new(alloc);
    for planned in plan {
        let number = levels.level(planned.at) as usize;
        grow(alloc, number, &mut waves)?;
        put(alloc, planned, number, &mut waves)?;
    }
    Ok(waves)
}
