//! Hashes and lists joined in depth.
ghost use Rattle.std.specs.Prelude.{◌≡◌, ◌+◌, ◌<◌, ◌≤◌, ◌++◌, IfOk, OnOk, IfSome, IsTrue, [], length, map, vec_len};
ghost use Rattle.std.specs.List.{list_any};
ghost use Rattle.pp_values.specs.Sizes.{data_size, pairs_size};
ghost use Rattle.pp_values.specs.Datum.{list, hash, data_of, entries_of};
ghost use Rattle.pp_values.specs.Keys.{are_distinct};
ghost use Rattle.pp_values.specs.Places.{place_of};
ghost use Rattle.pp_values.specs.Views.{view, views, pair_view, pair_views};
ghost use Rattle.hiera_merge.specs.Merges.{pairs_in, members_in, is_list, deep_merge};
ghost use Rattle.hiera_merge.specs.DeepSteps.{members_of_all, IsJoining, AreKeyed, up_from, stack, stacks, raised, put_stack, put_stacks, put_hashes, top, raised_at, merged_stack, over, stacks_size};

use crate::merging::is_hash;
use crate::uniting::each_once;
use pp_values::{Memory, Pairs, Value, Values, same_key};
use std::alloc::Global;
use std::mem;

/// Of hashes all are joined, of lists too, and of other values the highest is taken.
#[derive(Clone, Copy)]
pub enum Joining {
    Hash,
    List,
    Other,
}

/// The values that one key has.
pub struct Column {
    /// The key, as the lowest hash has it.
    pub key: Value,
    /// The values below the highest, from the lowest up.
    pub lower: Vec<Value>,
    /// The highest value.
    pub high: Value,
}

// By hand, so that callers drop it by one call.
impl Drop for Column {
    fn drop(self) {
        let Column {
            key: _key,
            lower: _lower,
            high: _high,
        } = self;
    }
}

impl Column {
    /// The key, the values below the highest, and the highest.
    fn into_parts(self) -> (Value, Vec<Value>, Value)
        ensures { result ≡ (self.key, self.lower, self.high) }
    {
        let Column { key, lower, high } = self;
        (key, lower, high)
    }
}

/// The highest value with the lower ones merged into it, one after another from the highest down.
pub fn deep_merge(alloc: Global, high: Value, lower: Vec<Value>) -> Result<Value, Memory>
    ensures { IfOk result (λ v. view v ≡ deep_merge (view high) (views lower.items)) }
{
    let mut rising = lower;
    rising.reverse();
    Ok(merged_up(alloc, rising, high)?)
}

/// The highest value with those below it, which stand from the lowest up, merged into it. Hashes and lists are joined, and
/// of others the highest is taken. Parts move.
#[cycle(deep)]
fn merged_up(alloc: Global, lower: Vec<Value>, high: Value) -> Result<Value, Memory>
    ensures { IfOk result (λ v. view v ≡ up_from (views lower.items) (view high)) }
{
    match joining_of(lower.as_slice(), &high) {
        Joining::Hash => {
            let high = pairs_of(alloc, high);
            Ok(Value::Hash(hashes_up(alloc, lower, high)?))
        }
        Joining::List => {
            let high = members_of(alloc, high);
            Ok(Value::List(lists_up(alloc, lower, high)?))
        }
        Joining::Other => Ok(high),
    }
}

/// What is to be done with the highest value.
#[tactic(auto, using(crate::proofs::StackLemmas::none_below, crate::proofs::StackLemmas::other_joining))]
fn joining_of(lower: &[Value], high: &Value) -> Joining
    ensures { IsJoining (views lower.now) (view high.now) result }
{
    if lower.is_empty() {
        Joining::Other
    } else if is_hash(high) {
        Joining::Hash
    } else if is_list(high) {
        Joining::List
    } else {
        Joining::Other
    }
}

/// The pairs of a hash. Another value has none.
fn pairs_of(alloc: Global, value: Value) -> Pairs
    ensures { result ≡ pairs_in (view value) }
{
    let mut value = value;
    match &mut value {
        Value::Hash(pairs) => mem::replace(pairs, Pairs::new(alloc)),
        _ => Pairs::new(alloc),
    }
}

/// The members of a list. Another value has none.
fn members_of(alloc: Global, value: Value) -> Values
    ensures { result ≡ members_in (view value) }
{
    let mut value = value;
    match &mut value {
        Value::List(items) => mem::replace(items, Values::new(alloc)),
        _ => Values::new(alloc),
    }
}

/// The pairs of all hashes among the values, joined with those of the highest.
#[cycle(deep)]
fn hashes_up(alloc: Global, lower: Vec<Value>, high: Pairs) -> Result<Pairs, Memory>
    ensures { IfOk result (λ ps. hash (entries_of ps) ≡ up_from (views lower.items) (hash (entries_of high))) }
{
    are_keyed(lower.as_slice());
    is_keyed(&high);
    let columns = columns_of(alloc, lower, high)?;
    let pairs = Pairs::from_vec(columns_merged(alloc, columns)?)?;
    Ok(pairs)
}

/// Tells that no hash among the values has a key twice.
fn are_keyed(values: &[Value])
    ensures { AreKeyed (views values.now) }
{
    let mut left = values;
    while let [value, after @ ..] = left {
        is_keyed_hash(value);
        left = after;
    }
}

fn is_keyed_hash(value: &Value)
    ensures { IsTrue (are_distinct (pairs_in (view value.now))) }
{
    match value {
        Value::Hash(pairs) => is_keyed(pairs),
        _ => {}
    }
}

fn is_keyed(pairs: &Pairs)
    ensures { IsTrue (are_distinct pairs.now) }
{
    let _pairs = pairs.as_slice();
}

/// The values by their keys, from the lowest up.
fn columns_of(alloc: Global, lower: Vec<Value>, high: Pairs) -> Result<Vec<Column>, Memory>
    ensures columns { IfOk result (λ v. stacks v.items ≡ put_stacks high (put_hashes (views lower.items) [])) }
    ensures size { IfOk result (λ v. stacks_size (stacks v.items) ≤ data_size (views lower.items) + pairs_size high) }
{
    let mut columns = Vec::new(alloc);
    for value in lower {
        put_pairs(alloc, &mut columns, pairs_of(alloc, value))?;
    }
    put_pairs(alloc, &mut columns, high)?;
    Ok(columns)
}

fn put_pairs(alloc: Global, columns: &mut Vec<Column>, pairs: Pairs) -> Result<(), Memory>
    ensures { OnOk result (stacks columns.new.items ≡ put_stacks pairs (stacks columns.old.items)) }
{
    for (key, value) in pairs.into_vec() {
        put_value(alloc, columns, key, value)?;
    }
    Ok(())
}

/// Puts a higher value on those of its key.
fn put_value(
    alloc: Global,
    columns: &mut Vec<Column>,
    key: Value,
    value: Value,
) -> Result<(), Memory>
    ensures { OnOk result (stacks columns.new.items ≡ put_stack (view key) (view value) (stacks columns.old.items)) }
{
    match place_of(columns.as_slice(), &key) {
        Some(place) => {
            raise_at(columns, place, value)?;
            Ok(())
        }
        None => {
            columns.push(Column {
                key,
                lower: Vec::new(alloc),
                high: value,
            })?;
            Ok(())
        }
    }
}

fn raise_at(columns: &mut Vec<Column>, place: usize, value: Value) -> Result<(), Memory>
    requires { place < vec_len columns.old }
    ensures { OnOk result (stacks columns.new.items ≡ raised_at (view value) place (stacks columns.old.items)) }
{
    raise(&mut columns[place], value)?;
    Ok(())
}

fn raise(column: &mut Column, value: Value) -> Result<(), Memory>
    ensures { OnOk result (stack column.new ≡ raised (view value) (stack column.old)) }
{
    let low = mem::replace(&mut column.high, value);
    column.lower.push(low)?;
    Ok(())
}

fn place_of(columns: &[Column], key: &Value) -> Option<usize>
    ensures place { result ≡ place_of (view key.now) (map top (stacks columns.now)) }
    ensures within { IfSome result (λ n. n < length columns.now) }
{
    for (i, column) in columns.iter().enumerate() {
        if same_key(key, &column.key) {
            return Some(i);
        }
    }
    None
}

/// Each key with its values merged.
#[cycle(deep)]
fn columns_merged(alloc: Global, columns: Vec<Column>) -> Result<Vec<(Value, Value)>, Memory>
    ensures { IfOk result (λ v. pair_views v.items ≡ over (stacks columns.items) []) }
{
    let mut out = Vec::with_capacity(alloc, columns.len())?;
    for column in columns {
        out.push(column_merged(alloc, column)?)?;
    }
    Ok(out)
}

#[cycle(deep)]
fn column_merged(alloc: Global, column: Column) -> Result<(Value, Value), Memory>
    ensures { IfOk result (λ p. pair_view p ≡ merged_stack (stack column)) }
{
    let (key, lower, high) = column.into_parts();
    let value = merged_up(alloc, lower, high)?;
    Ok((key, value))
}

/// The members of all lists among the values, and those of the highest, each once. Without such lists the highest stays as
/// it is.
fn lists_up(alloc: Global, lower: Vec<Value>, high: Values) -> Result<Values, Memory>
    ensures { IfOk result (λ l. list (data_of l) ≡ up_from (views lower.items) (list (data_of high))) }
{
    if !has_list(lower.as_slice()) {
        return Ok(high);
    }
    let room = lower.len().saturating_add(high.len());
    let mut members = members_of_all(alloc, lower, room)?;
    add_members(&mut members, high)?;
    Ok(each_once(alloc, members)?)
}

/// The members of all lists among the values, in a list with this much room.
fn members_of_all(alloc: Global, values: Vec<Value>, room: usize) -> Result<Vec<Value>, Memory>
    ensures { IfOk result (λ v. views v.items ≡ members_of_all (views values.items)) }
{
    let mut members = Vec::with_capacity(alloc, room)?;
    for value in values {
        add_members(&mut members, members_of(alloc, value))?;
    }
    Ok(members)
}

fn has_list(values: &[Value]) -> bool
    ensures { result ≡ list_any is_list (views values.now) }
{
    for value in values {
        if is_list(value) {
            return true;
        }
    }
    false
}

fn is_list(value: &Value) -> bool
    ensures { result ≡ is_list (view value.now) }
{
    matches!(value, Value::List(_))
}

fn add_members(members: &mut Vec<Value>, more: Values) -> Result<(), Memory>
    ensures { OnOk result (views members.new.items ≡ views members.old.items ++ more) }
{
    let mut items = more.into_vec();
    members.append(&mut items)?;
    Ok(())
}
