//! Lists without repeats.
ghost use Rattle.std.specs.Prelude.{◌≡◌, ◌++◌, [], IfOk, OnOk};
ghost use Rattle.std.specs.List.{fold, list_any};
ghost use Rattle.pp_funcs.specs.Lists.{behind, flat, flat_members, with_new};
ghost use Rattle.pp_ops.specs.Same.{same};
ghost use Rattle.pp_values.specs.Datum.{data_of};
ghost use Rattle.pp_values.specs.Views.{view, views};
ghost use Rattle.hiera_merge.specs.Merges.{united};

use pp_funcs::{Seen, is_new};
use pp_ops::is_same;
use pp_values::{Memory, Value, Values, copy};
use std::alloc::Global;

/// Up to how many members each is compared with all before it.
const COMPARED_MEMBERS: usize = 16;

/// The members of all these values, those of lists within them too, each once.
pub fn united(alloc: Global, high: &Value, lower: &[Value]) -> Result<Values, Memory>
    ensures { IfOk result (λ l. l ≡ united (view high.now) (views lower.now)) }
{
    let mut members = Vec::new(alloc);
    add_flat(&mut members, high)?;
    add_flats(&mut members, lower)?;
    without_repeats(alloc, members.as_slice())
}

/// The members, each once. Few members move.
pub fn each_once(alloc: Global, members: Vec<Value>) -> Result<Values, Memory>
    ensures { IfOk result (λ l. l ≡ fold with_new [] (views members.items)) }
{
    if members.len() <= COMPARED_MEMBERS {
        few_once(alloc, members)
    } else {
        many_once(alloc, members.as_slice())
    }
}

fn few_once(alloc: Global, members: Vec<Value>) -> Result<Values, Memory>
    ensures { IfOk result (λ l. l ≡ fold with_new [] (views members.items)) }
{
    let mut kept = Vec::with_capacity(alloc, members.len())?;
    for member in members {
        if !has_same(kept.as_slice(), &member) {
            kept.push(member)?;
        }
    }
    Values::from_vec(kept)
}

fn many_once(alloc: Global, members: &[Value]) -> Result<Values, Memory>
    ensures { IfOk result (λ l. l ≡ fold with_new [] (views members.now)) }
{
    let mut refs = Vec::with_capacity(alloc, members.len())?;
    add_each(&mut refs, members)?;
    many_without_repeats(alloc, refs.as_slice())
}

/// Appends the members of the value, with those of each list among them in its place.
#[cycle(flat)]
fn add_flat<'a>(members: &mut Vec<&'a Value>, value: &'a Value) -> Result<(), Memory>
    ensures { OnOk result (behind members.new.items ≡ behind members.old.items ++ flat (view value.now)) }
{
    match value {
        Value::List(items) => add_flats(members, items.as_slice()),
        _ => {
            members.push(value)?;
            Ok(())
        }
    }
}

#[cycle(flat)]
fn add_flats<'a>(members: &mut Vec<&'a Value>, items: &'a [Value]) -> Result<(), Memory>
    ensures { OnOk result (behind members.new.items
        ≡ behind members.old.items ++ flat_members (data_of (views items.now))) }
{
    for item in items {
        add_flat(members, item)?;
    }
    Ok(())
}

fn add_each<'a>(members: &mut Vec<&'a Value>, items: &'a [Value]) -> Result<(), Memory>
    ensures { OnOk result (behind members.new.items ≡ behind members.old.items ++ views items.now) }
{
    for item in items {
        members.push(item)?;
    }
    Ok(())
}

fn without_repeats(alloc: Global, members: &[&Value]) -> Result<Values, Memory>
    ensures { IfOk result (λ l. l ≡ fold with_new [] (behind members.now)) }
{
    if members.len() <= COMPARED_MEMBERS {
        few_without_repeats(alloc, members)
    } else {
        many_without_repeats(alloc, members)
    }
}

fn few_without_repeats(alloc: Global, members: &[&Value]) -> Result<Values, Memory>
    ensures { IfOk result (λ l. l ≡ fold with_new [] (behind members.now)) }
{
    let mut kept = Vec::with_capacity(alloc, members.len())?;
    for member in members {
        if !has_same(kept.as_slice(), member) {
            kept.push(copy(alloc, member)?)?;
        }
    }
    Values::from_vec(kept)
}

fn has_same(values: &[Value], value: &Value) -> bool
    ensures { result ≡ list_any (same (view value.now)) (views values.now) }
{
    for other in values {
        if are_same(value, other) {
            return true;
        }
    }
    false
}

/// Whether the two are the same in every part. Lists are mostly of integers or texts, which need no call.
fn are_same(value: &Value, other: &Value) -> bool
    ensures { result ≡ same (view value.now) (view other.now) }
{
    match (value, other) {
        (Value::Int(value), Value::Int(other)) => value == other,
        (Value::Text(value), Value::Text(other)) => value == other,
        _ => is_same(value, other),
    }
}

/// The values that were seen stand under their texts.
fn many_without_repeats(alloc: Global, members: &[&Value]) -> Result<Values, Memory>
    ensures { IfOk result (λ l. l ≡ fold with_new [] (behind members.now)) }
{
    let mut kept = Values::new(alloc);
    let mut seen = Seen::new(alloc);
    for member in members {
        if is_new(alloc, &mut seen, member)? {
            kept.push(copy(alloc, member)?)?;
        }
    }
    Ok(kept)
}
