ghost use Rattle.std.specs.Prelude.{◌≡◌, ◌-◌, ◌≤◌, false, length, All, IfOk};
ghost use Rattle.hist_lock.specs.Held.{IsShare};

use hist_lock::{HistLock, Pass, StandsFor};
use std::alloc::{AllocError, Global};
use std::sync::Wait;
use std::thread::Threads;
use work_pool::{WaitingJob, run_waiting};

/// How many turns were taken. It stands for no entry, so a turn that counts up changes no list.
#[derive(Drop)]
struct Tally {
    turns: u64,
}

impl StandsFor for Tally {
    ghost use Rattle.std.specs.Prelude.{[], None};

    type Entry = ();

    ghost entries = { λ _. [] };

    ghost author = { λ _. None };
}

/// Turns of one thread, with a pass of its own.
#[derive(Drop)]
struct Turns<'a> {
    lock: &'a HistLock<Tally>,
    pass: Pass<Tally>,
    count: u32,
    ghost share: { IsShare lock.now 1 pass },
}

impl<'a> WaitingJob for Turns<'a> {
    ghost use Rattle.hist_lock.specs.Held.{IsShare};

    type Out = Pass<Tally>;

    ghost promise = { λ job out. IsShare job.lock.now 1 out };

    fn run<R: Wait>(self, rt: &R) -> Pass<Tally> {
        let Turns { lock, pass, count } = self;
        take_turns(rt, lock, pass, count)
    }
}

// Each turn counts one up.
fn take_turns<R: Wait>(
    rt: &R,
    lock: &HistLock<Tally>,
    mut pass: Pass<Tally>,
    count: u32,
) -> Pass<Tally>
    requires { IsShare lock.now 1 pass }
    ensures { IsShare lock.now 1 result }
{
    for _ in 0..count {
        let mut turn = lock.take(rt, &mut pass);
        turn.value.turns = turn.value.turns.wrapping_add(1);
        lock.give(&mut pass, turn);
    }
    pass
}

// A job for each thread, with passes that are split from the first in one turn.
fn jobs<'a, R: Wait>(
    rt: &R,
    alloc: Global,
    lock: &'a HistLock<Tally>,
    first: &mut Pass<Tally>,
    threads: u32,
    count: u32,
) -> Result<Vec<Turns<'a>>, AllocError>
    requires { IsShare lock.now 65536 first.old × (first.old.room ≡ 65535) × (threads ≤ 64) }
    ensures first { IfOk result (λ jobs. IsShare lock.now (65536 - length jobs.items) first.new × (length jobs.items ≡ threads)) }
    ensures lock { IfOk result (λ jobs. All (λ job. job.lock.now ≡ lock.now) jobs.items) }
{
    let mut jobs = Vec::with_capacity(alloc, threads as usize)?;
    let mut turn = lock.take(rt, first);
    for _ in 0..threads {
        let pass = lock.split(first, &mut turn)?;
        jobs.push(Turns { lock, pass, count })?;
    }
    lock.give(first, turn);
    Ok(jobs)
}

// Joins all passes into the first.
fn join_passes(lock: &HistLock<Tally>, first: &mut Pass<Tally>, mut passes: Vec<Pass<Tally>>)
    requires first { (length passes.items ≤ 64) × IsShare lock.now (65536 - length passes.items) first.old }
    requires passes { All (IsShare lock.now 1) passes.items }
    ensures { IsShare lock.now 65536 first.new }
{
    while let Some(pass) = passes.pop() {
        lock.join(first, pass);
    }
}

/// Has so many threads take so many turns each, and gives how many turns were counted under the lock.
pub fn turns_taken<R: Threads + Wait + Sync>(
    rt: &R,
    alloc: Global,
    threads: u32,
    count: u32,
) -> Result<u64, AllocError>
    requires { threads ≤ 64 }
{
    let (lock, mut first) = HistLock::new(alloc, Tally { turns: 0 })?;
    let jobs = jobs(rt, alloc, &lock, &mut first, threads, count)?;
    let passes = run_waiting(rt, alloc, jobs)?;
    join_passes(&lock, &mut first, passes);
    Ok(lock.close(first).turns)
}
