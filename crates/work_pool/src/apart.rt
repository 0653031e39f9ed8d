// Runs of jobs that wait for nobody, on threads with a stated stack.
ghost use Rattle.std.specs.Prelude.{IfOk};
ghost use Rattle.std.specs.List.{AllZip};

use crate::jobs::Job;
use crate::stack::large_stack;
use std::alloc::{AllocError, Global};
use std::snapshot::Snapshot;
use std::thread::{Promise, Threads};

// Runs each job, one after another.
fn run_in_turn<J: Job + Drop>(alloc: Global, jobs: Vec<J>) -> Result<Vec<J::Out>, AllocError>
where
    J::Out: Drop,
    ensures { IfOk result (λ done. AllZip J.promise jobs.items done.items) }
{
    let mut done = Vec::with_capacity(alloc, jobs.len())?;
    for job in jobs {
        done.push(job.run())?;
    }
    Ok(done)
}

// What a thread promises of the jobs that it is given.
#[derive(Drop)]
struct RunOf<J: Job> {
    jobs: Snapshot<Vec<J>>,
}

impl<J: Job> Promise<Result<Vec<J::Out>, AllocError>> for RunOf<J> {
    ghost use Rattle.std.specs.Prelude.{IfOk};
    ghost use Rattle.std.specs.List.{AllZip};

    ghost kept_by = { λ p r. IfOk r (λ done. AllZip J.promise p.jobs.value.items done.items) };
}

// Starts a thread for each run of jobs, from the last to the first, and then joins them from the first to the last. A
// run for which no thread can be had is run here when its turn to be joined has come. Each thread is joined, also
// where memory is wanting.
pub fn run_apart<J: Job + Send + Drop + 'static, R: Threads>(
    rt: &R,
    alloc: Global,
    mut groups: Vec<Vec<J>>,
) -> Result<Vec<Result<Vec<J::Out>, AllocError>>, AllocError>
where
    J::Out: Send + Drop + 'static,
    ensures { IfOk result (λ parts.
        AllZip (λ group part. IfOk part (λ done. AllZip J.promise group.items done.items)) groups.items parts.items) }
{
    let Some(group) = groups.pop() else {
        return Ok(Vec::new(alloc));
    };
    let promise = RunOf {
        jobs: Snapshot::of(&group),
    };
    let run = move || -> Result<Vec<J::Out>, AllocError>
        ensures { IfOk result (λ done. AllZip J.promise group.items done.items) }
    { run_in_turn(alloc, group) };
    match large_stack().spawn_with(rt, promise, run) {
        Ok(thread) => {
            let others = run_apart(rt, alloc, groups);
            let part = thread.join(rt);
            let mut parts = others?;
            parts.push(part)?;
            Ok(parts)
        }
        Err(refused) => {
            let mut parts = run_apart(rt, alloc, groups)?;
            parts.push((refused.value)())?;
            Ok(parts)
        }
    }
}
