//! Access to a list or a hash.
ghost use Rattle.std.specs.Prelude.{◌≡◌, ◌+◌, ◌-◌, IfOk, min, option_map};
ghost use Rattle.std.specs.Option.{unwrap_or};
ghost use Rattle.pp_values.specs.Views.{view, views};
ghost use Rattle.pp_ops.specs.Accesses.{accessed, of_list, of_hash, member_at, first_place, end_place, part};
ghost use Rattle.pp_ops.specs.Refusals.{Gives};
ghost use Rattle.pp_values.specs.Datum as d;

use crate::listing::add_copies;
use crate::refusal::{Halt, Refusal};
use pp_values::{Memory, Pairs, Value, Values, copy};
use std::alloc::Global;

/// A member or a part of a list, or the value of a key; what is not there is Undef.
pub fn accessed(alloc: Global, whole: &Value, arguments: &Value) -> Result<Value, Halt>
    ensures { Gives result (accessed (view whole.now) (view arguments.now)) }
{
    match (whole, arguments) {
        (Value::List(items), Value::List(list)) => of_list(
            alloc,
            items.as_slice(),
            list.as_slice(),
        ),
        (Value::Hash(pairs), Value::List(list)) => of_hash(alloc, pairs, list.as_slice()),
        _ => Err(Halt::Refused(Refusal::Operand)),
    }
}

fn of_list(alloc: Global, items: &[Value], arguments: &[Value]) -> Result<Value, Halt>
    ensures { Gives result (of_list (views items.now) (views arguments.now)) }
{
    match arguments {
        [Value::Int(at)] => Ok(copy_or_undef(alloc, member_at(items, *at))?),
        [Value::Int(from), Value::Int(count)] => Ok(Value::List(part(
            alloc, items, *from, *count,
        )?)),
        _ => Err(Halt::Refused(Refusal::Operand)),
    }
}

fn of_hash(alloc: Global, pairs: &Pairs, arguments: &[Value]) -> Result<Value, Halt>
    ensures { Gives result (of_hash pairs.now (views arguments.now)) }
{
    match arguments {
        [key] => Ok(copy_or_undef(alloc, pairs.get(key))?),
        _ => Err(Halt::Refused(Refusal::Operand)),
    }
}

/// A copy of the value, or Undef where there is none.
pub fn copy_or_undef(alloc: Global, value: Option<&Value>) -> Result<Value, Memory>
    ensures { IfOk result (λ v. view v ≡ unwrap_or (option_map (λ w. view w.now) value.entry) d.undef) }
{
    match value {
        Some(value) => copy(alloc, value),
        None => Ok(Value::Undef),
    }
}

/// The member at a place, which is counted from the end where it is negative.
pub fn member_at(items: &[Value], at: i64) -> Option<&Value>
    ensures { option_map (λ v. view v.now) result ≡ member_at at (views items.now) }
{
    if at >= 0 {
        return items.get(at as usize);
    }
    let back = at.unsigned_abs() as usize;
    if back > items.len() {
        return None;
    }
    items.get(items.len() - back)
}

fn part(alloc: Global, items: &[Value], from: i64, count: i64) -> Result<Values, Memory>
    ensures { IfOk result (λ l. l ≡ part from count (views items.now)) }
{
    let end = end_within(from, count, items.len());
    let first = first_place(from, items.len()).min(end);
    copy_members(alloc, &items[first..end])
}

fn copy_members(alloc: Global, items: &[Value]) -> Result<Values, Memory>
    ensures { IfOk result (λ l. l ≡ views items.now) }
{
    let mut out = Values::new(alloc);
    add_copies(alloc, &mut out, items)?;
    Ok(out)
}

fn first_place(from: i64, size: usize) -> usize
    ensures { result ≡ first_place from size }
{
    if from >= 0 {
        from as usize
    } else {
        size.saturating_sub(from.unsigned_abs() as usize)
    }
}

/// The place behind the part, at most the list's end.
fn end_within(from: i64, count: i64, size: usize) -> usize
    ensures { result ≡ min (end_place from count size) size }
{
    if count < 0 {
        size.saturating_sub(count.unsigned_abs() as usize - 1)
    } else if from >= 0 {
        (from as usize).saturating_add(count as usize).min(size)
    } else {
        end_from_back(from.unsigned_abs() as usize, count as usize, size)
    }
}

fn end_from_back(back: usize, count: usize, size: usize) -> usize
    ensures { result ≡ min (size + count - back) size }
{
    if back <= size {
        (size - back).saturating_add(count).min(size)
    } else {
        count.saturating_sub(back - size).min(size)
    }
}
