//! What is known of declarations and of the looks of collectors.
ghost use Rattle.std.specs.Prelude.{◌≡◌, ◌<◌, [], suc, length, slice_get, slice_set, option_copied, IfOk, OnOk};
ghost use Rattle.collecting_laws.specs.Looks as looks;
ghost use Rattle.defined_types.specs.Watched as spec;

use class_eval::Evaluator;
use pp_values::Memory;
use std::alloc::Global;

/// How much concerns a declaration, and since when.
#[derive(Clone, Copy)]
pub struct Told {
    /// How many override lines are on it, and how many defaults there are for its kind.
    pub touched: u32,
    /// When that rose last. What is new rose when it was counted first.
    pub risen: u64,
}

/// What is known of all declarations and all collectors, by their numbers.
#[derive(Drop)]
pub struct Watchlist {
    pub told: Vec<Told>,
    /// When the last turn of each collector began: 0 where it had none.
    pub turns: Vec<u64>,
    /// The time. It goes on where something rises.
    pub clock: u64,
}

impl Watchlist {
    /// Nothing is known.
    pub fn new(alloc: Global) -> Watchlist
        ensures told { result.told.items ≡ [] }
        ensures turns { result.turns.items ≡ [] }
        ensures clock { result.clock ≡ 0 }
    {
        Watchlist {
            told: Vec::new(alloc),
            turns: Vec::new(alloc),
            clock: 0,
        }
    }

    /// Whether nothing more came to concern the declaration since the collector's last turn began.
    pub fn is_noted(&self, collector: u32, number: u32) -> bool
        ensures { result
            ≡ spec.noted_by (slice_get self.now.told.items number) (slice_get self.now.turns.items collector) }
    {
        match self.told.get(number as usize) {
            Some(told) => match self.turns.get(collector as usize) {
                Some(turn) => told.risen <= *turn,
                None => false,
            },
            None => false,
        }
    }

    /// Whether so much concerned the declaration before, if it is known.
    fn is_same(&self, number: u32, touched: u32) -> bool
        ensures { result ≡ spec.same_by (slice_get self.now.told.items number) touched }
    {
        match self.told.get(number as usize) {
            Some(told) => told.touched == touched,
            None => true,
        }
    }

    /// The next time. Where there is none, memory is wanting.
    fn next_time(&self) -> Result<u64, Memory>
        ensures { IfOk result (λ now. now ≡ suc self.now.clock) }
    {
        match self.clock.checked_add(1) {
            Some(now) => Ok(now),
            None => Err(Memory),
        }
    }

    /// Tells how much concerns a declaration from now on.
    #[tactic(auto, using(crate::proofs::Watches::told_within))]
    pub fn tell(&mut self, number: u32, touched: u32) -> Result<(), Memory>
        ensures told { OnOk result (self.new.told.items
            ≡ spec.told_risen (spec.same_by (slice_get self.old.told.items number) touched) number touched
            self.old.told.items self.old.clock) }
        ensures clock { OnOk result (self.new.clock
            ≡ spec.clock_risen (spec.same_by (slice_get self.old.told.items number) touched) self.old.clock) }
        ensures turns { self.new.turns.items ≡ self.old.turns.items }
    {
        if self.is_same(number, touched) {
            return Ok(());
        }
        let now = self.next_time()?;
        self.told[number as usize] = Told {
            touched,
            risen: now,
        };
        self.clock = now;
        Ok(())
    }

    /// Tells that a turn of the collector began at this time.
    pub fn turn(&mut self, collector: u32, begun: u64)
        ensures told { self.new.told.items ≡ self.old.told.items }
        ensures turns { self.new.turns.items ≡ slice_set self.old.turns.items collector begun }
        ensures clock { self.new.clock ≡ self.old.clock }
    {
        if (collector as usize) < self.turns.len() {
            self.turns[collector as usize] = begun;
        }
    }
}

/// Counts anew what concerns each declaration, the new ones included, and knows the new collectors.
#[tactic(auto, unfolding(crate::specs::Watched::counted))]
pub fn count(alloc: Global, evaluator: &Evaluator<'_>, watch: &mut Watchlist) -> Result<(), Memory>
    ensures { OnOk result (spec.seen evaluator.now watch.new ≡ spec.counted (spec.seen evaluator.now watch.old)) }
{
    let now = watch.next_time()?;
    let told = told_each(alloc, evaluator, watch.told.as_slice(), now)?;
    open_turns(&mut watch.turns, evaluator.collectors())?;
    watch.told = told;
    watch.clock = now;
    Ok(())
}

fn told_each(
    alloc: Global,
    evaluator: &Evaluator<'_>,
    old: &[Told],
    now: u64,
) -> Result<Vec<Told>, Memory>
    ensures { IfOk result (λ v. v.items
        ≡ spec.told_from evaluator.now.world old.now now 0 (length evaluator.now.world.book)) }
{
    let count = evaluator.book().count();
    let mut told = Vec::new(alloc);
    let mut number = 0;
    while number < count {
        let before = told_at(old, number);
        let touched = touched_at(evaluator, number);
        told.push(told_now(before, touched, now))?;
        number += 1;
    }
    Ok(told)
}

fn told_at(told: &[Told], number: u32) -> Option<&Told>
    ensures { option_copied result ≡ slice_get told.now number }
{
    told.get(number as usize)
}

fn told_now(old: Option<&Told>, touched: u32, now: u64) -> Told
    ensures { result ≡ spec.told_now (option_copied old.entry) touched now }
{
    match old {
        Some(told) => told_if(*told, touched, now),
        None => Told {
            touched,
            risen: now,
        },
    }
}

fn told_if(told: Told, touched: u32, now: u64) -> Told
    ensures { result ≡ spec.told_now (Some told) touched now }
{
    if told.touched == touched {
        return told;
    }
    Told {
        touched,
        risen: now,
    }
}

/// How much concerns a declaration: nothing where there is none.
#[tactic(auto, using(crate::proofs::Watches::touched_there, crate::proofs::Watches::touched_nowhere))]
pub fn touched_at(evaluator: &Evaluator<'_>, number: u32) -> u32
    ensures { result ≡ looks.touched_at evaluator.now.world number }
{
    if number < evaluator.book().count() {
        return evaluator.touched(number);
    }
    0
}

#[tactic(auto, using(crate::proofs::Watches::one_opened, crate::proofs::Watches::none_opened))]
fn open_turns(turns: &mut Vec<u64>, count: u32) -> Result<(), Memory>
    ensures { OnOk result (turns.new.items ≡ spec.opened turns.old.items count) }
{
    while turns.len() < count as usize {
        turns.push(0)?;
    }
    Ok(())
}
