//! What `reduce` goes through, and what `with` calls its lambda with.
ghost use Rattle.std.specs.Prelude.{◌≡◌, ◌++◌, ◌==◌, IfOk, None, option_map, if◌then◌else◌};
ghost use Rattle.pp_values.specs.Answers.{Answers};
ghost use Rattle.pp_values.specs.Views.{view, views};
ghost use Rattle.expr_eval.specs.Turns.{members, reduce_members, reduced_over, turn_of_with};

use crate::faults::wrong_arguments;
use pp_ops::extended;
use pp_values::{Memory, Place, Stop, Value, Values};
use std::alloc::Global;

/// What `reduce` of these arguments goes through, by a lambda of so many parameters, which are a memo and a member.
///
/// The first is the first memo: the start value where there is one, else the first member. With each further one the
/// lambda gives the next memo, and the last memo is the value of the call. Where there is none, it is Undef.
pub fn reduced_over(
    alloc: Global,
    arguments: &Values,
    params: u32,
    at: &Place,
) -> Result<Values, Stop>
    ensures { Answers result (reduced_over arguments.now params at.now) }
{
    match fitting(alloc, arguments.as_slice(), params) {
        Ok(Some(members)) => Ok(members),
        Ok(None) => Err(Stop::Fault(wrong_arguments(alloc, "reduce", at)?)),
        Err(Memory) => Err(Stop::Memory),
    }
}

fn fitting(alloc: Global, arguments: &[Value], params: u32) -> Result<Option<Values>, Memory>
    ensures { IfOk result (λ l. l ≡ (if params == 2 then reduce_members (views arguments.now) else None)) }
{
    if params == 2 {
        reduce_members(alloc, arguments)
    } else {
        Ok(None)
    }
}

fn reduce_members(alloc: Global, arguments: &[Value]) -> Result<Option<Values>, Memory>
    ensures { IfOk result (λ l. l ≡ reduce_members (views arguments.now)) }
{
    match arguments {
        [value] => members_behind(alloc, &[], value),
        [value, _start] => members_behind(alloc, &arguments[1..], value),
        _ => Ok(None),
    }
}

/// The members of a list, or the pairs of a hash as lists of two, with the start value before them, if there is one.
fn members_behind(alloc: Global, start: &[Value], value: &Value) -> Result<Option<Values>, Memory>
    ensures { IfOk result (λ l. l ≡ option_map (λ ds. views start.now ++ ds) (members (view value.now))) }
{
    match value {
        Value::List(_) => Ok(Some(extended(alloc, start, value)?)),
        Value::Hash(_) => Ok(Some(extended(alloc, start, value)?)),
        _ => Ok(None),
    }
}

/// What `with` calls a lambda of so many parameters with: these arguments, of which there have to be as many.
pub fn turn_of_with(
    alloc: Global,
    arguments: Values,
    params: u32,
    at: &Place,
) -> Result<Values, Stop>
    ensures { Answers result (turn_of_with arguments params at.now) }
{
    if arguments.len() == params as usize {
        Ok(arguments)
    } else {
        drop(arguments);
        Err(Stop::Fault(wrong_arguments(alloc, "with", at)?))
    }
}
