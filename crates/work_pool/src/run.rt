ghost use Rattle.std.specs.Prelude.{◌<◌, ◌≤◌, IfOk};
ghost use Rattle.std.specs.List.{AllZip};

use crate::apart::run_apart;
use crate::groups::{grouped, put_together};
use crate::jobs::{Job, WaitingJob};
use crate::side::run_side_by_side;
use std::alloc::{AllocError, Global};
use std::sync::Wait;
use std::thread;
use std::thread::Threads;

/// The most threads that a call starts.
const THREADS: usize = 64;

// As many as there are processors, where that can be told.
fn processors<R: Threads>(rt: &R) -> usize
    ensures { (0 < result) × (result ≤ 64) }
{
    match thread::available_parallelism(rt) {
        Ok(count) => count.get().min(THREADS),
        Err(_) => THREADS,
    }
}

/// Runs each job once, side by side where threads can be had, in at most as many as there are processors and
/// at most 64, each with a stack of [`STACK_SIZE`](crate::STACK_SIZE) bytes, and gives the results in the jobs'
/// order. Where memory is wanting some jobs may not have run.
///
/// The jobs borrow nothing: a thread that borrows and has a stated stack would have to be waited for.
pub fn run_all<J: Job + Send + Drop + 'static, R: Threads>(
    rt: &R,
    alloc: Global,
    jobs: Vec<J>,
) -> Result<Vec<J::Out>, AllocError>
where
    J::Out: Send + Drop + 'static,
    ensures { IfOk result (λ done. AllZip J.promise jobs.items done.items) }
{
    let groups = grouped(alloc, jobs, processors(rt))?;
    let parts = run_apart(rt, alloc, groups)?;
    put_together(alloc, parts)
}

/// Runs each job once, as `run_all` does, and the jobs may wait, for one another too: up to 64 jobs have a
/// thread each, where threads can be had, with a stack of [`STACK_SIZE`](crate::STACK_SIZE) bytes. The jobs for
/// which no thread can be had run in this one, once the threads are started.
pub fn run_waiting<J: WaitingJob + Send + Drop, R: Threads + Wait + Sync>(
    rt: &R,
    alloc: Global,
    jobs: Vec<J>,
) -> Result<Vec<J::Out>, AllocError>
where
    J::Out: Send + Drop,
    ensures { IfOk result (λ done. AllZip J.promise jobs.items done.items) }
{
    let groups = grouped(alloc, jobs, THREADS)?;
    let parts = run_side_by_side(rt, alloc, groups)?;
    put_together(alloc, parts)
}
