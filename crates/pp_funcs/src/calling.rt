//! The table of the functions.
ghost use Rattle.std.specs.Prelude.{◌≡◌, IfOk, false};
ghost use Rattle.pp_ops.specs.Said.{said};
ghost use Rattle.pp_values.specs.Answers.{Answers};
ghost use Rattle.pp_values.specs.Views.{views};
ghost use Rattle.pp_funcs.specs.Functions.{computed, called, applied, refusal_fault, refused};
ghost use Rattle.pp_funcs.specs.Names.{needs_evaluator};
ghost use Rattle.pp_funcs.specs.Refusals.{Gives};

use crate::counting::{count, is_empty};
use crate::digging::dig;
use crate::flattening::{flatten, join};
use crate::function::Function;
use crate::listing::{keys, values};
use crate::numbers::{absolute, greatest, least};
use crate::refusal::{Halt, Refusal};
use crate::repeats::unique;
use crate::texting::{downcase, failure, strip, upcase};
use pp_values::{Fault, Memory, Place, Stop, Text, Value, Values, What};
use std::alloc::Global;

/// The value of a function, or its fault at this place, which names the function as it is written.
///
/// What needs the site, the log or a lambda is the caller's: `needs_evaluator` tells.
pub fn call_pure(alloc: Global, name: &Text, args: &Values, at: &Place) -> Result<Value, Stop>
    requires { needs_evaluator name.now ≡ false }
    ensures { Answers (said result) (applied name.now args.now at.now) }
{
    call_pure_of(alloc, name, args.as_slice(), at)
}

/// The same of arguments that are borrowed.
pub fn call_pure_of(alloc: Global, name: &Text, args: &[Value], at: &Place) -> Result<Value, Stop>
    requires { needs_evaluator name.now ≡ false }
    ensures { Answers (said result) (applied name.now (views args.now) at.now) }
{
    match called(alloc, name, args) {
        Ok(value) => Ok(value),
        Err(Halt::Memory) => Err(Stop::Memory),
        Err(Halt::Refused(refusal)) => Err(Stop::Fault(refusal_fault(alloc, name, at, refusal)?)),
    }
}

fn refusal_fault(alloc: Global, name: &Text, at: &Place, refusal: Refusal) -> Result<Fault, Memory>
    ensures { IfOk result (λ f. f ≡ refusal_fault name.now at.now refusal) }
{
    let what = what(alloc, name, refusal)?;
    let at = at.copy(alloc)?;
    Fault::new(alloc, at, what)
}

fn what(alloc: Global, name: &Text, refusal: Refusal) -> Result<What, Memory>
    ensures { IfOk result (λ w. w ≡ refused name.now refusal) }
{
    match refusal {
        Refusal::Unknown => Ok(What::UnknownFunction(name.copy(alloc)?)),
        Refusal::Arguments => Ok(What::WrongArguments(name.copy(alloc)?)),
        Refusal::Range => Ok(What::NumberRange(name.copy(alloc)?)),
        Refusal::Failed(message) => Ok(What::Failed(message)),
    }
}

fn called(alloc: Global, name: &Text, args: &[Value]) -> Result<Value, Halt>
    ensures { Gives result (called name.now (views args.now)) }
{
    match Function::from_name(name) {
        Some(function) => computed(alloc, function, args),
        None => Err(Halt::Refused(Refusal::Unknown)),
    }
}

fn computed(alloc: Global, function: Function, args: &[Value]) -> Result<Value, Halt>
    ensures { Gives result (computed function (views args.now)) }
{
    match function {
        Function::Fail => failure(alloc, args),
        Function::Length => count(args),
        Function::Size => count(args),
        Function::Empty => is_empty(args),
        Function::Keys => keys(alloc, args),
        Function::Values => values(alloc, args),
        Function::Join => join(alloc, args),
        Function::Flatten => flatten(alloc, args),
        Function::Unique => unique(alloc, args),
        Function::Upcase => upcase(alloc, args),
        Function::Downcase => downcase(alloc, args),
        Function::Strip => strip(alloc, args),
        Function::Dig => dig(alloc, args),
        Function::Min => least(args),
        Function::Max => greatest(args),
        Function::Abs => absolute(args),
    }
}
