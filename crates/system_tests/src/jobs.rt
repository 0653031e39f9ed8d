ghost use Rattle.std.specs.Prelude.{◌≡◌, IfOk};

use std::alloc::{AllocError, Global};
use std::sync::{Barrier, Mutex, Wait};
use std::test::Fail;
use std::thread;
use std::thread::Threads;
use work_pool::{ClaimSeat, Claims, Job, Supply, WaitingJob, run_all, run_supplied, run_waiting};

/// Draws until no number is left.
fn draw_all(alloc: Global, claims: &Claims, mut seat: ClaimSeat) -> (ClaimSeat, Vec<u32>)
    requires { seat.claims ≡ claims.now }
    ensures { (result.0.claims ≡ claims.now) × (result.0.room ≡ seat.room) × (result.0.held ≡ seat.held) }
{
    let mut drawn = Vec::new(alloc);
    while let Some(number) = claims.next(&mut seat) {
        if drawn.push(number).is_err() {
            break;
        }
    }
    (seat, drawn)
}

/// Two threads draw until no number is left. The first seat takes in the second, and all numbers come back.
fn drawn_by_two<R: Threads + Sync>(
    rt: &R,
    alloc: Global,
    claims: &Claims,
    first: ClaimSeat,
    second: ClaimSeat,
) -> Result<(ClaimSeat, Vec<u32>), AllocError>
    requires { (first.claims ≡ claims.now) × (second.claims ≡ claims.now) }
    ensures { IfOk result (λ r. r.0.claims ≡ claims.now) }
{
    let (mine, theirs) = thread::join(
        rt,
        || -> (ClaimSeat, Vec<u32>)
            requires { first.claims ≡ claims.now }
            ensures { result.0.claims ≡ claims.entry.now }
        { draw_all(alloc, claims, first) },
        || -> (ClaimSeat, Vec<u32>)
            requires { second.claims ≡ claims.now }
            ensures { result.0.claims ≡ claims.entry.now }
        { draw_all(alloc, claims, second) },
    );
    let (mut seat, mut drawn) = mine;
    let (other, mut more) = theirs;
    claims.join(&mut seat, other);
    drawn.append(&mut more)?;
    Ok((seat, drawn))
}

/// How many numbers there are to draw.
const COUNTS: [u32; 3] = [0, 1, 1000];

/// Whether two threads drew each number once, and no number is left.
fn are_drawn_once<R: Threads + Sync>(
    rt: &R,
    alloc: Global,
    count: u32,
) -> Result<bool, AllocError> {
    let (claims, mut first) = Claims::new(alloc, count)?;
    let second = claims.split(&mut first)?;
    let (mut seat, mut drawn) = drawn_by_two(rt, alloc, &claims, first, second)?;
    let is_over = claims.next(&mut seat).is_none();
    drawn.sort_unstable();
    Ok(is_over && drawn.as_slice().iter().copied().eq(0..count))
}

#[test]
fn each_number_is_drawn_once(rt: HostRuntime) -> Result<(), Fail> {
    for count in COUNTS {
        assert!(rt; are_drawn_once(&rt, rt.alloc(), count)?, "{count} numbers");
    }
    Ok(())
}

/// A number to be squared.
#[derive(Drop)]
struct Square(u32);

impl Job for Square {
    ghost use Rattle.std.specs.Prelude.{◌≡◌, ◌*◌};

    type Out = u64;

    ghost promise = { λ job out. out ≡ job.0 * job.0 };

    fn run(self) -> u64 {
        self.0 as u64 * self.0 as u64
    }
}

/// How many jobs there are to run: none, one, as many as there may be threads, one more and one less, and many.
const JOBS: [u32; 7] = [0, 1, 2, 63, 64, 65, 1000];

fn squared<R: Threads + Sync>(rt: &R, alloc: Global, count: u32) -> Result<Vec<u64>, AllocError> {
    let mut jobs = Vec::new(alloc);
    for number in 0..count {
        jobs.push(Square(number))?;
    }
    run_all(rt, alloc, jobs)
}

/// Whether these are the squares of the numbers below the count, in order.
fn are_squares(squares: &[u64], count: u32) -> bool {
    squares
        .iter()
        .copied()
        .eq((0..count).map(|number| number as u64 * number as u64))
}

#[test]
fn results_are_in_order(rt: HostRuntime) -> Result<(), Fail> {
    for count in JOBS {
        let squares = squared(&rt, rt.alloc(), count)?;
        assert!(rt; are_squares(squares.as_slice(), count), "{count} jobs");
    }
    Ok(())
}

/// Adds its number to a sum that jobs share.
#[derive(Drop)]
struct Adder<'a> {
    number: u64,
    sum: &'a Mutex<u64>,
}

impl<'a> WaitingJob for Adder<'a> {
    ghost use Rattle.std.specs.Prelude.{◌≡◌};

    type Out = u64;

    ghost promise = { λ job out. out ≡ job.number };

    fn run<R: Wait>(self, rt: &R) -> u64 {
        let mut sum = self.sum.lock(rt);
        *sum = sum.wrapping_add(self.number);
        self.number
    }
}

/// The sum of the numbers below 100, added up by a job for each, and whether the jobs gave them back in order.
fn added_up<R: Threads + Wait + Sync>(rt: &R, alloc: Global) -> Result<(u64, bool), AllocError> {
    let sum = Mutex::new(0);
    let mut jobs = Vec::new(alloc);
    for number in 0..100 {
        jobs.push(Adder { number, sum: &sum })?;
    }
    let numbers = run_waiting(rt, alloc, jobs)?;
    let are_in_order = numbers.as_slice().iter().copied().eq(0..100);
    Ok((sum.into_inner(), are_in_order))
}

#[test]
fn waiting_jobs_share_a_lock(rt: HostRuntime) -> Result<(), Fail> {
    let (sum, are_in_order) = added_up(&rt, rt.alloc())?;
    assert!(rt; sum == 4950 && are_in_order);
    Ok(())
}

/// Comes back once as many jobs as the barrier counts have come to it.
#[derive(Drop)]
struct Meeter<'a> {
    number: u64,
    barrier: &'a Barrier,
}

impl<'a> WaitingJob for Meeter<'a> {
    ghost use Rattle.std.specs.Prelude.{◌≡◌};

    type Out = u64;

    ghost promise = { λ job out. out ≡ job.number };

    fn run<R: Wait>(self, rt: &R) -> u64 {
        self.barrier.wait(rt);
        self.number
    }
}

/// How many jobs wait for one another: as many as have a thread each, and fewer.
const MEETERS: [u64; 3] = [2, 7, 64];

/// Whether so many jobs met, each of which waits until all have come: with fewer threads none comes back.
fn all_meet<R: Threads + Wait + Sync>(
    rt: &R,
    alloc: Global,
    count: u64,
) -> Result<bool, AllocError> {
    let barrier = Barrier::new(count as usize);
    let mut jobs = Vec::new(alloc);
    for number in 0..count {
        jobs.push(Meeter {
            number,
            barrier: &barrier,
        })?;
    }
    let numbers = run_waiting(rt, alloc, jobs)?;
    Ok(numbers.as_slice().iter().copied().eq(0..count))
}

#[test]
fn waiting_jobs_wait_for_one_another(rt: HostRuntime) -> Result<(), Fail> {
    for count in MEETERS {
        assert!(rt; all_meet(&rt, rt.alloc(), count)?, "{count} jobs");
    }
    Ok(())
}

/// Gives jobs that come to a barrier, the first of which has the number 0.
#[derive(Drop)]
struct Callers<'a> {
    given: u64,
    count: u64,
    barrier: &'a Barrier,
    // Whether each job has to come to the barrier before the next one is given.
    meets: bool,
}

impl<'a> Supply for Callers<'a> {
    ghost use Rattle.std.specs.Prelude.{⊤};

    type Job = Meeter<'a>;

    ghost gives = { λ _ _ _. ⊤ };

    fn next<R: Wait>(&mut self, rt: &R) -> Option<Meeter<'a>> {
        if self.meets && self.given > 0 {
            self.barrier.wait(rt);
        }
        if self.given == self.count {
            return None;
        }
        let number = self.given;
        self.given = number.wrapping_add(1);
        Some(Meeter {
            number,
            barrier: self.barrier,
        })
    }
}

/// Whether the supply's jobs all come back, with their results in order. One more is asked for than there are.
fn come_back<R: Threads + Wait + Sync>(
    rt: &R,
    alloc: Global,
    callers: Callers<'_>,
) -> Result<bool, AllocError> {
    let count = callers.count;
    let most = (count as usize).saturating_add(1);
    let results = Vec::with_capacity(alloc, most)?;
    let (_, numbers) = run_supplied(rt, callers, most, results);
    Ok(numbers.as_slice().iter().copied().eq(0..count))
}

/// How many jobs come: one, and more than a call of `run_waiting` starts threads.
const CALLERS: [u64; 3] = [1, 2, 100];

#[test]
fn supplied_jobs_wait_for_one_another(rt: HostRuntime) -> Result<(), Fail> {
    for count in CALLERS {
        let barrier = Barrier::new(count as usize);
        let callers = Callers {
            given: 0,
            count,
            barrier: &barrier,
            meets: false,
        };
        assert!(rt; come_back(&rt, rt.alloc(), callers)?, "{count} jobs");
    }
    Ok(())
}

#[test]
fn a_job_begins_before_the_next_is_asked_for(rt: HostRuntime) -> Result<(), Fail> {
    for count in CALLERS {
        let barrier = Barrier::new(2);
        let callers = Callers {
            given: 0,
            count,
            barrier: &barrier,
            meets: true,
        };
        assert!(rt; come_back(&rt, rt.alloc(), callers)?, "{count} jobs");
    }
    Ok(())
}

/// A job that goes so many levels deep, where each takes more than a kilobyte of the stack.
#[derive(Drop)]
struct Digger {
    depth: u32,
}

/// The bytes of a level.
const FRAME: usize = 1024;

/// The levels from this one down, where each counts a byte that the level above it left on the stack.
fn dug(depth: u32, above: &[u8; FRAME]) -> u64 {
    let mut frame = [0; FRAME];
    frame[depth as usize % FRAME] = 1;
    let below = if depth == 0 {
        0
    } else {
        dug(depth - 1, &frame)
    };
    below.wrapping_add(above[(depth as usize + 1) % FRAME] as u64)
}

impl WaitingJob for Digger {
    ghost use Rattle.std.specs.Prelude.{⊤};

    type Out = u64;

    ghost promise = { λ _ _. ⊤ };

    fn run<R: Wait>(self, _rt: &R) -> u64 {
        dug(self.depth, &[1; FRAME])
    }
}

impl Job for Digger {
    ghost use Rattle.std.specs.Prelude.{⊤};

    type Out = u64;

    ghost promise = { λ _ _. ⊤ };

    fn run(self) -> u64 {
        dug(self.depth, &[1; FRAME])
    }
}

/// Levels that take more than the 8 MiB of a usual stack, and less than the stack that `work_pool` states.
const DEPTH: u32 = 20_000;

/// Whether a job that goes deep comes back.
fn digs<R: Threads + Wait + Sync>(rt: &R, alloc: Global) -> Result<bool, AllocError> {
    let mut jobs = Vec::new(alloc);
    jobs.push(Digger { depth: DEPTH })?;
    let depths = run_waiting(rt, alloc, jobs)?;
    Ok(depths.as_slice().first().copied() == Some(DEPTH as u64 + 1))
}

#[test]
fn a_waiting_job_has_a_large_stack(rt: HostRuntime) -> Result<(), Fail> {
    assert!(rt; digs(&rt, rt.alloc())?);
    Ok(())
}

/// Whether a job that waits for nobody comes back from as deep.
fn digs_apart<R: Threads>(rt: &R, alloc: Global) -> Result<bool, AllocError> {
    let mut jobs = Vec::new(alloc);
    jobs.push(Digger { depth: DEPTH })?;
    let depths = run_all(rt, alloc, jobs)?;
    Ok(depths.as_slice().first().copied() == Some(DEPTH as u64 + 1))
}

#[test]
fn a_job_has_a_large_stack(rt: HostRuntime) -> Result<(), Fail> {
    assert!(rt; digs_apart(&rt, rt.alloc())?);
    Ok(())
}
