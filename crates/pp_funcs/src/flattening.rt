//! Lists within lists made one list.
ghost use Rattle.std.specs.Prelude.{◌≡◌, ◌++◌, IfOk, OnOk, string_bytes};
ghost use Rattle.std.specs.List.{join_by};
ghost use Rattle.pp_values.specs.Datum.{data_of};
ghost use Rattle.pp_values.specs.TextOf.{text_of};
ghost use Rattle.pp_values.specs.Views.{view, views};
ghost use Rattle.pp_funcs.specs.Lists.{behind, flat_members, flatten, join};
ghost use Rattle.pp_funcs.specs.Refusals.{Gives, of_one};
ghost use Rattle.pp_funcs.specs.Texts.{led};

use crate::refusal::{Halt, Refusal};
use crate::texting::write_separated;
use pp_values::{Memory, Text, Value, Values, copy, write_value};
use std::alloc::Global;

pub fn flatten(alloc: Global, args: &[Value]) -> Result<Value, Halt>
    ensures { Gives result (of_one flatten (views args.now)) }
{
    match args {
        [value] => flatten_value(alloc, value),
        _ => Err(Halt::Refused(Refusal::Arguments)),
    }
}

fn flatten_value(alloc: Global, value: &Value) -> Result<Value, Halt>
    ensures { Gives result (flatten (view value.now)) }
{
    match value {
        Value::List(items) => Ok(Value::List(flattened(alloc, items.as_slice())?)),
        _ => Err(Halt::Refused(Refusal::Arguments)),
    }
}

pub fn join(alloc: Global, args: &[Value]) -> Result<Value, Halt>
    ensures { Gives result (join (views args.now)) }
{
    match args {
        [Value::List(items)] => Ok(Value::Text(joined(alloc, items.as_slice(), "")?)),
        [Value::List(items), Value::Text(between)] => Ok(Value::Text(joined(
            alloc,
            items.as_slice(),
            between.as_str(),
        )?)),
        _ => Err(Halt::Refused(Refusal::Arguments)),
    }
}

fn flattened(alloc: Global, items: &[Value]) -> Result<Values, Memory>
    ensures { IfOk result (λ l. l ≡ flat_members (data_of (views items.now))) }
{
    let mut found = Vec::new(alloc);
    add_flat(&mut found, items)?;
    copy_members(alloc, found.as_slice())
}

fn copy_members(alloc: Global, items: &[&Value]) -> Result<Values, Memory>
    ensures { IfOk result (λ l. l ≡ behind items.now) }
{
    let mut out = Values::new(alloc);
    for item in items {
        out.push(copy(alloc, item)?)?;
    }
    Ok(out)
}

/// Appends the members, with those of each list among them in its place.
fn add_flat<'a>(out: &mut Vec<&'a Value>, items: &'a [Value]) -> Result<(), Memory>
    ensures { OnOk result (behind out.new.items ≡ behind out.old.items ++ flat_members (data_of (views items.now))) }
{
    for item in items {
        match item {
            Value::List(inner) => add_flat(out, inner.as_slice())?,
            _ => out.push(item)?,
        }
    }
    Ok(())
}

/// The texts of the members of the flattened list, with a text between each two.
fn joined(alloc: Global, items: &[Value], between: &str) -> Result<Text, Memory>
    ensures { IfOk result (λ t. t ≡ join_by text_of between.now (flat_members (data_of (views items.now)))) }
{
    let mut found = Vec::new(alloc);
    add_flat(&mut found, items)?;
    join_found(alloc, found.as_slice(), between)
}

fn join_found(alloc: Global, items: &[&Value], between: &str) -> Result<Text, Memory>
    ensures { IfOk result (λ t. t ≡ join_by text_of between.now (behind items.now)) }
{
    let mut out = String::new(alloc);
    match items {
        [] => {}
        [first, rest @ ..] => {
            write_value(&mut out, first)?;
            write_rest(&mut out, rest, between)?;
        }
    }
    Ok(Text::new(out))
}

fn write_rest(out: &mut String, rest: &[&Value], between: &str) -> Result<(), Memory>
    ensures { OnOk result (string_bytes out.new ≡ string_bytes out.old ++ led between.now (behind rest.now)) }
{
    for value in rest {
        write_separated(out, between, value)?;
    }
    Ok(())
}
