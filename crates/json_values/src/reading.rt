//! Values out of their forms.
ghost use Rattle.std.specs.Prelude.{◌≡◌, Some, option_and_then, option_map};
ghost use Rattle.serde_json.specs.View.{view as json_view, items_view, members_view};
ghost use Rattle.pp_values.specs.Datum.{data_of, entries_of};
ghost use Rattle.pp_values.specs.Keys.{are_distinct, lacks};
ghost use Rattle.pp_values.specs.Kinds.{kind_of};
ghost use Rattle.pp_values.specs.Views.{view, views, pair_view, pair_views};
ghost use Rattle.json_values.specs.Forms.{value_of, values_of, members_of, object_value, marked_value, is_long, last_value, hash_in_turn, in_turn, long_hash, three, is_reference, marked_reference, reference_of, reference_to, is_text, IsForm};

use crate::stops::FormStop;
use crate::value_forms::is_plain;
use pp_values::{Boxed, Kind, Pairs, Reference, Text, Value, Values, is_key, same_key};
use serde_json::{Map, Value as Json};
use std::alloc::Global;

/// The value whose form this is.
#[cycle(reading)]
pub fn from_form(alloc: Global, json: &Json) -> Result<Value, FormStop>
    ensures { IsForm view result (value_of (json_view json.now)) }
{
    match json {
        Json::Null => Ok(Value::Undef),
        Json::Bool(flag) => Ok(Value::Flag(*flag)),
        Json::Number(number) => match number.as_i64() {
            Some(number) => Ok(Value::Int(number)),
            None => Err(FormStop::NoForm),
        },
        Json::String(text) => Ok(Value::Text(Text::from_str(alloc, text.as_str())?)),
        Json::Array(items) => Ok(Value::List(values_of(alloc, items)?)),
        Json::Object(members) => object_value(alloc, members_of(alloc, members)?),
    }
}

#[cycle(reading)]
fn values_of(alloc: Global, items: &Vec<Json>) -> Result<Values, FormStop>
    ensures { IsForm data_of result (values_of (items_view items.now.items)) }
{
    let mut values = Vec::new(alloc);
    for item in items {
        let value = from_form(alloc, item)?;
        values.push(value)?;
    }
    Ok(Values::from_vec(values)?)
}

#[cycle(reading)]
fn members_of(alloc: Global, members: &Map<String, Json>) -> Result<Vec<(Value, Value)>, FormStop>
    ensures { IsForm (λ l. entries_of (pair_views l.items)) result (members_of (members_view members.now.entries)) }
{
    let mut pairs = Vec::new(alloc);
    for (name, member) in members.iter() {
        let value = from_form(alloc, member)?;
        let key = Value::Text(Text::from_str(alloc, name.as_str())?);
        pairs.push((key, value))?;
    }
    Ok(pairs)
}

/// What an object stands for whose names have these values.
fn object_value(alloc: Global, members: Vec<(Value, Value)>) -> Result<Value, FormStop>
    ensures { IsForm view result (object_value (entries_of (pair_views members.items))) }
{
    if is_plain(members.as_slice()) {
        Ok(Value::Hash(Pairs::from_vec(members)?))
    } else {
        marked_value(alloc, members)
    }
}

fn marked_value(alloc: Global, members: Vec<(Value, Value)>) -> Result<Value, FormStop>
    ensures { IsForm view result (marked_value (pair_views members.items)) }
{
    if is_long(members.as_slice()) {
        hash_in_turn(alloc, last_value(members))
    } else {
        marked_reference(alloc, members.as_slice())
    }
}

/// Whether these are the names of a long form.
fn is_long(members: &[(Value, Value)]) -> bool
    ensures { result ≡ is_long (pair_views members.now) }
{
    match members {
        [(mark, said), (name, _)] => {
            is_text(mark, "__ptype") && is_text(said, "Hash") && is_text(name, "__pvalue")
        }
        _ => false,
    }
}

fn last_value(members: Vec<(Value, Value)>) -> Value
    ensures { view result ≡ last_value (pair_views members.items) }
{
    let mut members = members;
    match members.pop() {
        Some((_name, value)) => value,
        None => Value::Undef,
    }
}

fn hash_in_turn(alloc: Global, value: Value) -> Result<Value, FormStop>
    ensures { IsForm view result (hash_in_turn (view value)) }
{
    match &value {
        Value::List(_items) => {}
        _ => return Err(FormStop::NoForm),
    }
    let members = value.into_members(alloc)?;
    hash_of(alloc, members.into_vec())
}

/// The hash of keys and values that stand in turn.
fn hash_of(alloc: Global, items: Vec<Value>) -> Result<Value, FormStop>
    ensures { IsForm view result (option_and_then long_hash (in_turn (data_of (views items.items)))) }
{
    long_hash(in_turn(alloc, items)?)
}

/// Keys and values that stand in turn, as pairs.
fn in_turn(alloc: Global, items: Vec<Value>) -> Result<Vec<(Value, Value)>, FormStop>
    ensures { IsForm (λ l. entries_of (pair_views l.items)) result (in_turn (data_of (views items.items))) }
{
    let mut pairs = Vec::new(alloc);
    let mut left = items.into_iter();
    while let Some(key) = left.next() {
        let Some(value) = left.next() else {
            return Err(FormStop::NoForm);
        };
        pairs.push((key, value))?;
    }
    Ok(pairs)
}

/// The hash of these pairs, where it has no shorter form.
fn long_hash(pairs: Vec<(Value, Value)>) -> Result<Value, FormStop>
    ensures { IsForm view result (long_hash (entries_of (pair_views pairs.items))) }
{
    if !are_distinct(pairs.as_slice()) {
        return Err(FormStop::NoForm);
    }
    if is_plain(pairs.as_slice()) {
        return Err(FormStop::NoForm);
    }
    Ok(Value::Hash(Pairs::from_vec(pairs)?))
}

fn are_distinct(pairs: &[(Value, Value)]) -> bool
    ensures { result ≡ are_distinct (pair_views pairs.now) }
{
    let mut left = pairs;
    while let [(key, _), after @ ..] = left {
        if !is_key(key) || !lacks(key, after) {
            return false;
        }
        left = after;
    }
    true
}

fn lacks(key: &Value, pairs: &[(Value, Value)]) -> bool
    ensures { result ≡ lacks (view key.now) (pair_views pairs.now) }
{
    let mut left = pairs;
    while let [(other, _), after @ ..] = left {
        if same_key(other, key) {
            return false;
        }
        left = after;
    }
    true
}

fn marked_reference(alloc: Global, members: &[(Value, Value)]) -> Result<Value, FormStop>
    ensures { IsForm view result (marked_reference (pair_views members.now)) }
{
    match three(members) {
        Some((mark, kind, title)) => {
            if is_reference(mark, kind, title) {
                reference_of(alloc, &kind.1, &title.1)
            } else {
                Err(FormStop::NoForm)
            }
        }
        None => Err(FormStop::NoForm),
    }
}

/// The members of an object of three.
fn three(members: &[(Value, Value)]) -> Option<(&(Value, Value), &(Value, Value), &(Value, Value))>
    ensures { option_map (λ ms. (pair_view ms.0.now, (pair_view ms.1.now, pair_view ms.2.now))) result
        ≡ three (pair_views members.now) }
{
    match members {
        [mark, kind, title] => Some((mark, kind, title)),
        _ => None,
    }
}

fn is_reference(mark: &(Value, Value), kind: &(Value, Value), title: &(Value, Value)) -> bool
    ensures { result ≡ is_reference (pair_view mark.now) (pair_view kind.now) (pair_view title.now) }
{
    is_text(&mark.0, "__ptype")
        && is_text(&mark.1, "Ref")
        && is_text(&kind.0, "kind")
        && is_text(&title.0, "title")
}

fn reference_of(alloc: Global, kind: &Value, title: &Value) -> Result<Value, FormStop>
    ensures { IsForm view result (reference_of (view kind.now) (view title.now)) }
{
    match (kind, title) {
        (Value::Text(kind), Value::Text(title)) => reference_to(alloc, kind, title),
        _ => Err(FormStop::NoForm),
    }
}

fn reference_to(alloc: Global, kind: &Text, title: &Text) -> Result<Value, FormStop>
    ensures { IsForm view result (option_map (λ k. reference_to k title.now) (kind_of kind.now)) }
{
    match Kind::from_text(kind.copy(alloc)?) {
        Some(kind) => {
            let title = title.copy(alloc)?;
            let reference = Reference { kind, title };
            Ok(Value::Ref(Boxed::new(alloc, reference)?))
        }
        None => Err(FormStop::NoForm),
    }
}

fn is_text(value: &Value, text: &str) -> bool
    ensures { result ≡ is_text text.now (view value.now) }
{
    match value {
        Value::Text(other) => other.is(text),
        _ => false,
    }
}
