// Jobs that come one after another, each on a thread of one scope with a stated stack.
ghost use Rattle.std.specs.Prelude.{◌≡◌, ◌+◌, ◌≤◌, vec_len, vec_capacity};
ghost use Rattle.work_pool.specs.Supplied.{HasRun, HasStacked};

use crate::jobs::WaitingJob;
use crate::stack::large_stack;
use std::snapshot::Snapshot;
use std::sync::Wait;
use std::thread;
use std::thread::{Promise, Scope, Threads};

/// Where jobs come from. It may wait for the next one.
pub trait Supply {
    type Job;

    ghost use Rattle.std.specs.Prelude.{Option};

    // What a call may give, and what it makes of the supply.
    ghost gives: { Self → Option Self.Job → Self → Type 0 };

    /// The next job, or none where there is none to come.
    fn next<R: Wait>(&mut self, rt: &R) -> Option<Self::Job>
        ensures { gives self.old result self.new };
}

// What a thread promises of the job that it is given.
#[derive(Drop)]
struct RunOf<J: WaitingJob> {
    job: Snapshot<J>,
}

impl<J: WaitingJob> Promise<J::Out> for RunOf<J> {
    ghost kept_by = { λ p out. J.promise p.job.value out };
}

/// Runs each job that the supply gives, once, up to `most` of them. Each job has a thread of its own, with a stack of
/// [`STACK_SIZE`](crate::STACK_SIZE) bytes, which is started before the next job is asked for. A job for which no thread
/// can be had runs in the calling one, also before the next job is asked for. Once all jobs have ended, gives back the
/// supply, and the results in the order in which the jobs were given.
///
/// The results go into the list that is handed in, so that no job is begun for whose result there is no memory. The
/// supply is moved in and out, since nothing is known of what was written behind a reference by the time that the
/// threads of a scope have ended.
pub fn run_supplied<S: Supply + Drop, R: Threads + Wait + Sync>(
    rt: &R,
    supply: S,
    most: usize,
    results: Vec<<S::Job as WaitingJob>::Out>,
) -> (S, Vec<<S::Job as WaitingJob>::Out>)
where
    S::Job: WaitingJob + Send + Drop,
    <S::Job as WaitingJob>::Out: Send + Drop,
    requires empty { vec_len results ≡ 0 }
    requires room { most ≤ vec_capacity results }
    ensures { HasRun S.gives S.Job.promise most supply result.1.items result.0 }
{
    let (supply, mut results) = run_in_scope(rt, supply, most, results);
    results.reverse();
    (supply, results)
}

// Runs the jobs on threads of one scope. The first job's result comes last.
fn run_in_scope<S: Supply + Drop, R: Threads + Wait + Sync>(
    rt: &R,
    supply: S,
    most: usize,
    results: Vec<<S::Job as WaitingJob>::Out>,
) -> (S, Vec<<S::Job as WaitingJob>::Out>)
where
    S::Job: WaitingJob + Send + Drop,
    <S::Job as WaitingJob>::Out: Send + Drop,
    requires { vec_len results + most ≤ vec_capacity results }
    ensures { HasStacked S.gives S.Job.promise most supply results.items result.1.items result.0 }
{
    thread::scope(
        thread::scope_env(),
        rt,
        move |scope| -> (S, Vec<<S::Job as WaitingJob>::Out>)
            requires { vec_len results + most ≤ vec_capacity results }
            ensures { HasStacked S.gives S.Job.promise most supply results.items result.1.items result.0 }
        {
            let mut supply = supply;
            let mut results = results;
            run_each(scope, rt, &mut supply, most, &mut results);
            (supply, results)
        },
    )
}

// Starts a thread for each job that comes, as long as jobs are wanted, and then waits for them, from the last to the first.
fn run_each<'s, E: 's, S: Supply, R: Threads + Wait + Sync + 's>(
    scope: &Scope<'s, E>,
    rt: &'s R,
    supply: &mut S,
    most: usize,
    results: &mut Vec<<S::Job as WaitingJob>::Out>,
)
where
    S::Job: WaitingJob + Send + Drop + 's,
    <S::Job as WaitingJob>::Out: Send + Drop + 's,
    requires { vec_len results.old + most ≤ vec_capacity results.old }
    ensures ran { HasStacked S.gives S.Job.promise most supply.old results.old.items results.new.items supply.new }
    ensures capacity { vec_capacity results.new ≡ vec_capacity results.old }
    ensures few { vec_len results.new ≤ vec_len results.old + most }
{
    if most == 0 {
        return;
    }
    let Some(job) = supply.next(rt) else {
        return;
    };
    let promise = RunOf {
        job: Snapshot::of(&job),
    };
    let run = move || -> <S::Job as WaitingJob>::Out
        ensures { S.Job.promise job result }
    { job.run(rt) };
    match large_stack().spawn_scoped_with(scope, promise, run) {
        Ok(thread) => {
            run_each(scope, rt, supply, most - 1, results);
            results.push_reserved(thread.join(rt));
        }
        Err(refused) => {
            let result = (refused.value)();
            run_each(scope, rt, supply, most - 1, results);
            results.push_reserved(result);
        }
    }
}
