//! Lists within lists made one list.
ghost use Rattle.std.specs.Prelude.{◌≡◌, ◌++◌, ◌∷◌, [], IfOk, OnOk};
ghost use Rattle.pp_funcs.specs.Lists.{behind, flat, flat_members};
ghost use Rattle.pp_values.specs.Datum.{data_of};
ghost use Rattle.pp_values.specs.Views.{view, views};

use pp_values::{Memory, Value, Values, copy};
use std::alloc::Global;

/// Copies of the members of a list, with those of each list among them in its place. Another value is alone.
pub fn flat(alloc: Global, value: &Value) -> Result<Values, Memory>
    ensures { IfOk result (λ ds. ds ≡ flat (view value.now)) }
{
    match value {
        Value::List(items) => copy_members(
            alloc,
            flat_members(alloc, items.as_slice())?.as_slice(),
        ),
        _ => copy_alone(alloc, value),
    }
}

/// A list of a copy of this value.
fn copy_alone(alloc: Global, value: &Value) -> Result<Values, Memory>
    ensures { IfOk result (λ ds. ds ≡ view value.now ∷ []) }
{
    let mut out = Values::new(alloc);
    out.push(copy(alloc, value)?)?;
    Ok(out)
}

/// The members of these values, in the same way.
pub fn flat_members<'a>(alloc: Global, values: &'a [Value]) -> Result<Vec<&'a Value>, Memory>
    ensures { IfOk result (λ vs. behind vs.items ≡ flat_members (data_of (views values.now))) }
{
    let mut found = Vec::new(alloc);
    add_flat(&mut found, values)?;
    Ok(found)
}

/// The same members, not copied.
pub fn flattened<'a>(alloc: Global, value: &'a Value) -> Result<Vec<&'a Value>, Memory>
    ensures { IfOk result (λ vs. behind vs.items ≡ flat (view value.now)) }
{
    let mut found = Vec::new(alloc);
    match value {
        Value::List(items) => add_flat(&mut found, items.as_slice())?,
        _ => found.push(value)?,
    }
    Ok(found)
}

fn add_flat<'a>(out: &mut Vec<&'a Value>, items: &'a [Value]) -> Result<(), Memory>
    ensures { OnOk result (behind out.new.items ≡ behind out.old.items ++ flat_members (data_of (views items.now))) }
{
    for item in items {
        match item {
            Value::List(inner) => add_flat(out, inner.as_slice())?,
            _ => out.push(item)?,
        }
    }
    Ok(())
}

fn copy_members(alloc: Global, items: &[&Value]) -> Result<Values, Memory>
    ensures { IfOk result (λ ds. ds ≡ behind items.now) }
{
    let mut out = Values::new(alloc);
    for item in items {
        out.push(copy(alloc, item)?)?;
    }
    Ok(out)
}
