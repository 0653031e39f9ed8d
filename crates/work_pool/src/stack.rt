//! Stacks that hold the deepest work that a site asks of a thread.
ghost use Rattle.std.specs.Prelude.{◌≡◌, IfErr};

use core::thread::{Anything, Stack};
use std::thread::{SpawnError, Threads};

/// The stack of each thread that this crate starts, in bytes: 64 MiB. It is address space, of which pages are taken as
/// they are used.
///
/// The deepest work is at its limits all at once. Evaluation within 1,000 levels is reckoned at 17 to 34 KB a level,
/// through lambdas, so at 34 MB; 200 look-ups within one another at no more than a level of evaluation each, so at 7 MB;
/// the dearest manifest whose syntax nests 200 levels, a chain through all binding strengths, took 7.1 MiB in a measured
/// run; and the dearest walk over a value of 4,000 levels, a copy, took 0.6 KB a level (a drop 0.3 KB, a comparison 0.1 KB,
/// a text less, the tree of its JSON 0.4 KB), so 2.5 MB for the 4,096 levels that a value may have (`MAX_NESTING` of
/// `pp_values`). These together are 51 MB, and a quarter is to spare.
pub const STACK_SIZE: usize = 67_108_864;

/// A thread that is still to start, with a stack of `STACK_SIZE` bytes.
pub(crate) fn large_stack() -> Stack {
    Stack::new().stack_size(STACK_SIZE)
}

/// Does the job on a thread with a stack of `STACK_SIZE` bytes. Where no such thread can be had nothing is run, since
/// the job might need all of that stack, and the job is given back.
///
/// Nothing but the job makes a `T`, so what comes is what the job gave.
pub fn on_large_stack<R: Threads, F: FnOnce() -> T + Send + 'static, T: Send + Drop + 'static>(
    rt: &R,
    job: F,
) -> Result<T, SpawnError<F>>
    requires { F.pre job }
    ensures { IfErr result (λ refused. refused.value ≡ job) }
{
    match large_stack().spawn_with(rt, Anything, job) {
        Ok(thread) => Ok(thread.join(rt)),
        Err(refused) => Err(refused),
    }
}
