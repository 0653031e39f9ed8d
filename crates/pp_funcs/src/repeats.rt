//! A list without its repeats.
ghost use Rattle.std.specs.Prelude.{◌≡◌, [], IfOk};
ghost use Rattle.std.specs.List.{fold};
ghost use Rattle.pp_values.specs.Views.{view, views};
ghost use Rattle.pp_funcs.specs.Lists.{with_new, unique};
ghost use Rattle.pp_funcs.specs.Refusals.{Gives, of_one};

use crate::refusal::{Halt, Refusal};
use crate::seen::{Seen, is_new};
use pp_values::{Memory, Value, Values, copy};
use std::alloc::Global;

pub fn unique(alloc: Global, args: &[Value]) -> Result<Value, Halt>
    ensures { Gives result (of_one unique (views args.now)) }
{
    match args {
        [value] => unique_in(alloc, value),
        _ => Err(Halt::Refused(Refusal::Arguments)),
    }
}

fn unique_in(alloc: Global, value: &Value) -> Result<Value, Halt>
    ensures { Gives result (unique (view value.now)) }
{
    match value {
        Value::List(items) => Ok(Value::List(without_repeats(alloc, items.as_slice())?)),
        _ => Err(Halt::Refused(Refusal::Arguments)),
    }
}

fn without_repeats(alloc: Global, items: &[Value]) -> Result<Values, Memory>
    ensures { IfOk result (λ l. l ≡ fold with_new [] (views items.now)) }
{
    let mut kept = Values::new(alloc);
    let mut seen = Seen::new(alloc);
    for item in items {
        if is_new(alloc, &mut seen, item)? {
            kept.push(copy(alloc, item)?)?;
        }
    }
    Ok(kept)
}
