//! What a function calls its lambda with.
ghost use Rattle.std.specs.Prelude.{◌≡◌, ◌∷◌, [], IfOk, map, pos};
ghost use Rattle.pp_ops.specs.Lists.{pair_list};
ghost use Rattle.pp_values.specs.Answers.{Answers};
ghost use Rattle.pp_values.specs.Datum.{int};
ghost use Rattle.pp_values.specs.Views.{view, views, pair_views};
ghost use Rattle.expr_eval.specs.Turns.{only, two, numbered, turns_of_one, turns_of_two, turns, turns_of};

use crate::faults::wrong_arguments;
use crate::functions::Iteration;
use pp_values::{Memory, Place, Stop, Value, Values, copy};
use sqlite_items::Items;
use std::alloc::Global;

/// The arguments of one call of a lambda after another.
pub type Turns = Items<Values>;

/// What `each`, `map`, `filter`, `any` or `all` of this value calls a lambda of so many parameters with, in order: one
/// parameter takes a member, or the list of a key and its value; two take a place and a member, or a key and its value.
///
/// The number of parameters is tested where there is nothing to go through, too.
pub fn turns_of(
    alloc: Global,
    function: Iteration,
    value: &Value,
    params: u32,
    at: &Place,
) -> Result<Turns, Stop>
    ensures { Answers result (turns_of function (view value.now) params at.now) }
{
    match turns(alloc, value, params) {
        Ok(Some(turns)) => Ok(turns),
        Ok(None) => Err(Stop::Fault(wrong_arguments(alloc, function.name(), at)?)),
        Err(Memory) => Err(Stop::Memory),
    }
}

fn turns(alloc: Global, value: &Value, params: u32) -> Result<Option<Turns>, Memory>
    ensures { IfOk result (λ t. t ≡ turns params (view value.now)) }
{
    match params {
        1 => turns_of_one(alloc, value),
        2 => turns_of_two(alloc, value),
        _ => Ok(None),
    }
}

#[tactic(auto, using(crate::proofs::Back::members_back, crate::proofs::Back::pairs_back))]
fn turns_of_one(alloc: Global, value: &Value) -> Result<Option<Turns>, Memory>
    ensures { IfOk result (λ t. t ≡ turns_of_one (view value.now)) }
{
    match value {
        Value::List(items) => Ok(Some(members_alone(alloc, items.as_slice())?)),
        Value::Hash(pairs) => Ok(Some(pairs_alone(alloc, pairs.as_slice())?)),
        _ => Ok(None),
    }
}

#[tactic(auto, using(crate::proofs::Back::members_back, crate::proofs::Back::pairs_back))]
fn turns_of_two(alloc: Global, value: &Value) -> Result<Option<Turns>, Memory>
    ensures { IfOk result (λ t. t ≡ turns_of_two (view value.now)) }
{
    match value {
        Value::List(items) => Ok(Some(numbered(alloc, items.as_slice())?)),
        Value::Hash(pairs) => Ok(Some(keys_and_values(alloc, pairs.as_slice())?)),
        _ => Ok(None),
    }
}

fn members_alone(alloc: Global, items: &[Value]) -> Result<Turns, Memory>
    ensures { IfOk result (λ t. t ≡ map only (views items.now)) }
{
    let mut turns = Vec::new(alloc);
    for item in items {
        turns.push(only(alloc, item)?)?;
    }
    Ok(Turns::from_vec(turns))
}

fn only(alloc: Global, item: &Value) -> Result<Values, Memory>
    ensures { IfOk result (λ l. l ≡ only (view item.now)) }
{
    let mut turn = Values::new(alloc);
    turn.push(copy(alloc, item)?)?;
    Ok(turn)
}

fn pairs_alone(alloc: Global, pairs: &[(Value, Value)]) -> Result<Turns, Memory>
    ensures { IfOk result (λ t. t ≡ map only (map pair_list (pair_views pairs.now))) }
{
    let mut turns = Vec::new(alloc);
    for (key, value) in pairs {
        turns.push(pair_alone(alloc, key, value)?)?;
    }
    Ok(Turns::from_vec(turns))
}

/// The one argument that is the list of a key and its value.
fn pair_alone(alloc: Global, key: &Value, value: &Value) -> Result<Values, Memory>
    ensures { IfOk result (λ l. l ≡ only (pair_list (view key.now, view value.now))) }
{
    let mut turn = Values::new(alloc);
    turn.push(Value::List(two(alloc, key, value)?))?;
    Ok(turn)
}

fn numbered(alloc: Global, items: &[Value]) -> Result<Turns, Memory>
    ensures { IfOk result (λ t. t ≡ numbered 0 (views items.now)) }
{
    let mut turns = Vec::new(alloc);
    for (place, item) in items.iter().enumerate() {
        turns.push(placed(alloc, place, item)?)?;
    }
    Ok(Turns::from_vec(turns))
}

/// A member behind its place.
fn placed(alloc: Global, place: usize, item: &Value) -> Result<Values, Memory>
    ensures { IfOk result (λ l. l ≡ int (pos place) ∷ view item.now ∷ []) }
{
    let place = place_value(place)?;
    two(alloc, &place, item)
}

/// A place as a value. A list that is too long for it does not fit into memory.
fn place_value(place: usize) -> Result<Value, Memory>
    ensures { IfOk result (λ v. view v ≡ int (pos place)) }
{
    if place <= i64::MAX as usize {
        Ok(Value::Int(place as i64))
    } else {
        Err(Memory)
    }
}

fn keys_and_values(alloc: Global, pairs: &[(Value, Value)]) -> Result<Turns, Memory>
    ensures { IfOk result (λ t. t ≡ map two (pair_views pairs.now)) }
{
    let mut turns = Vec::new(alloc);
    for (key, value) in pairs {
        turns.push(two(alloc, key, value)?)?;
    }
    Ok(Turns::from_vec(turns))
}

fn two(alloc: Global, first: &Value, second: &Value) -> Result<Values, Memory>
    ensures { IfOk result (λ l. l ≡ two (view first.now, view second.now)) }
{
    let mut turn = Values::new(alloc);
    turn.push(copy(alloc, first)?)?;
    turn.push(copy(alloc, second)?)?;
    Ok(turn)
}
