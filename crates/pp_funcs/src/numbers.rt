//! Functions of integers.
ghost use Rattle.std.specs.Prelude.{◌≡◌};
ghost use Rattle.std.specs.Int.{int_min, int_max};
ghost use Rattle.pp_values.specs.Views.{view, views};
ghost use Rattle.pp_funcs.specs.Numbers.{natural, absolute, least, greatest, chosen};
ghost use Rattle.pp_funcs.specs.Refusals.{Gives, of_one};

use crate::refusal::{Halt, Refusal};
use pp_values::Value;

pub fn natural(number: u64) -> Result<Value, Halt>
    ensures { Gives result (natural number) }
{
    if number <= i64::MAX as u64 {
        Ok(Value::Int(number as i64))
    } else {
        Err(Halt::Refused(Refusal::Range))
    }
}

pub fn absolute(args: &[Value]) -> Result<Value, Halt>
    ensures { Gives result (of_one absolute (views args.now)) }
{
    match args {
        [value] => absolute_of(value),
        _ => Err(Halt::Refused(Refusal::Arguments)),
    }
}

fn absolute_of(value: &Value) -> Result<Value, Halt>
    ensures { Gives result (absolute (view value.now)) }
{
    match value {
        Value::Int(number) => natural(number.unsigned_abs()),
        _ => Err(Halt::Refused(Refusal::Arguments)),
    }
}

pub fn least(args: &[Value]) -> Result<Value, Halt>
    ensures { Gives result (least (views args.now)) }
{
    match args {
        [Value::Int(first), rest @ ..] => least_of(*first, rest),
        _ => Err(Halt::Refused(Refusal::Arguments)),
    }
}

fn least_of(first: i64, rest: &[Value]) -> Result<Value, Halt>
    ensures { Gives result (chosen int_min first (views rest.now)) }
{
    let mut chosen = first;
    for value in rest {
        match value {
            Value::Int(number) => chosen = chosen.min(*number),
            _ => return Err(Halt::Refused(Refusal::Arguments)),
        }
    }
    Ok(Value::Int(chosen))
}

pub fn greatest(args: &[Value]) -> Result<Value, Halt>
    ensures { Gives result (greatest (views args.now)) }
{
    match args {
        [Value::Int(first), rest @ ..] => greatest_of(*first, rest),
        _ => Err(Halt::Refused(Refusal::Arguments)),
    }
}

fn greatest_of(first: i64, rest: &[Value]) -> Result<Value, Halt>
    ensures { Gives result (chosen int_max first (views rest.now)) }
{
    let mut chosen = first;
    for value in rest {
        match value {
            Value::Int(number) => chosen = chosen.max(*number),
            _ => return Err(Halt::Refused(Refusal::Arguments)),
        }
    }
    Ok(Value::Int(chosen))
}
