// Runs of jobs that may wait, on threads of one scope with a stated stack.
ghost use Rattle.std.specs.Prelude.{IfOk};
ghost use Rattle.std.specs.List.{AllZip};

use crate::jobs::WaitingJob;
use crate::stack::large_stack;
use std::alloc::{AllocError, Global};
use std::snapshot::Snapshot;
use std::sync::Wait;
use std::thread;
use std::thread::{Promise, Scope, Threads};

// Runs each job, one after another.
fn run_waiting_in_turn<J: WaitingJob + Drop, R: Wait>(
    rt: &R,
    alloc: Global,
    jobs: Vec<J>,
) -> Result<Vec<J::Out>, AllocError>
where
    J::Out: Drop,
    ensures { IfOk result (λ done. AllZip J.promise jobs.items done.items) }
{
    let mut done = Vec::with_capacity(alloc, jobs.len())?;
    for job in jobs {
        done.push(job.run(rt))?;
    }
    Ok(done)
}

// What a thread promises of the jobs that it is given.
#[derive(Drop)]
struct RunOf<J: WaitingJob> {
    jobs: Snapshot<Vec<J>>,
}

impl<J: WaitingJob> Promise<Result<Vec<J::Out>, AllocError>> for RunOf<J> {
    ghost use Rattle.std.specs.Prelude.{IfOk};
    ghost use Rattle.std.specs.List.{AllZip};

    ghost kept_by = { λ p r. IfOk r (λ done. AllZip J.promise p.jobs.value.items done.items) };
}

// Starts a thread for each run of jobs, from the last to the first, and then waits for them from the first to the
// last. A run for which no thread can be had is run here when its turn to be waited for has come.
fn run_in_scope<'s, E: 's, J: WaitingJob + Send + Drop + 's, R: Threads + Wait + Sync + 's>(
    scope: &Scope<'s, E>,
    rt: &'s R,
    alloc: Global,
    mut groups: Vec<Vec<J>>,
) -> Result<Vec<Result<Vec<J::Out>, AllocError>>, AllocError>
where
    J::Out: Send + Drop + 's,
    ensures { IfOk result (λ parts.
        AllZip (λ group part. IfOk part (λ done. AllZip J.promise group.items done.items)) groups.items parts.items) }
{
    let Some(group) = groups.pop() else {
        return Ok(Vec::new(alloc));
    };
    let promise = RunOf {
        jobs: Snapshot::of(&group),
    };
    let run = move || -> Result<Vec<J::Out>, AllocError>
        ensures { IfOk result (λ done. AllZip J.promise group.items done.items) }
    { run_waiting_in_turn(rt, alloc, group) };
    match large_stack().spawn_scoped_with(scope, promise, run) {
        Ok(thread) => {
            let mut parts = run_in_scope(scope, rt, alloc, groups)?;
            parts.push(thread.join(rt))?;
            Ok(parts)
        }
        Err(refused) => {
            let mut parts = run_in_scope(scope, rt, alloc, groups)?;
            parts.push((refused.value)())?;
            Ok(parts)
        }
    }
}

// Runs each run of jobs, side by side where threads can be had.
pub fn run_side_by_side<J: WaitingJob + Send + Drop, R: Threads + Wait + Sync>(
    rt: &R,
    alloc: Global,
    groups: Vec<Vec<J>>,
) -> Result<Vec<Result<Vec<J::Out>, AllocError>>, AllocError>
where
    J::Out: Send + Drop,
    ensures { IfOk result (λ parts.
        AllZip (λ group part. IfOk part (λ done. AllZip J.promise group.items done.items)) groups.items parts.items) }
{
    thread::scope(
        thread::scope_env(),
        rt,
        |scope| -> Result<Vec<Result<Vec<J::Out>, AllocError>>, AllocError>
            ensures { IfOk result (λ parts.
                AllZip (λ group part. IfOk part (λ done. AllZip J.promise group.items done.items)) groups.items parts.items) }
        { run_in_scope(scope, rt, alloc, groups) },
    )
}
