//! JSON data as values.
ghost use Rattle.std.specs.Prelude.{◌≡◌, IfOk, IsTrue};
ghost use Rattle.serde_json.specs.View.{view as json_view, items_view, members_view};
ghost use Rattle.pp_values.specs.Datum.{data_of, entries_of};
ghost use Rattle.pp_values.specs.Facts.{is_fact, are_members, are_pairs};
ghost use Rattle.pp_values.specs.Views.{view};
ghost use Rattle.json_values.specs.FromData.{data_value, item_values, member_values, number_value, IsData};

use crate::stops::{DataStop, Numbers};
use pp_values::{Pairs, Text, Value, Values};
use serde_json::{Map, Value as Json};
use std::alloc::Global;

/// JSON data as a value. That of an object are facts.
#[cycle(data)]
pub fn from_data(alloc: Global, json: &Json, mode: Numbers) -> Result<Value, DataStop>
    ensures value { IsData view result (data_value mode (json_view json.now)) }
    ensures facts { IfOk result (λ v. IsTrue (is_fact (view v))) }
{
    match json {
        Json::Null => Ok(Value::Undef),
        Json::Bool(flag) => Ok(Value::Flag(*flag)),
        Json::Number(number) => number_value(number.as_i64(), mode),
        Json::String(text) => Ok(Value::Text(Text::from_str(alloc, text.as_str())?)),
        Json::Array(items) => Ok(Value::List(item_values(alloc, items, mode)?)),
        Json::Object(members) => Ok(Value::Hash(member_values(alloc, members, mode)?)),
    }
}

fn number_value(number: Option<i64>, mode: Numbers) -> Result<Value, DataStop>
    ensures value { IsData view result (number_value mode number) }
    ensures facts { IfOk result (λ v. IsTrue (is_fact (view v))) }
{
    match (number, mode) {
        (Some(number), _) => Ok(Value::Int(number)),
        (None, Numbers::Lenient) => Ok(Value::Undef),
        (None, Numbers::Strict) => Err(DataStop::Number),
    }
}

#[cycle(data)]
fn item_values(alloc: Global, items: &Vec<Json>, mode: Numbers) -> Result<Values, DataStop>
    ensures value { IsData data_of result (item_values mode (items_view items.now.items)) }
    ensures facts { IfOk result (λ l. IsTrue (are_members (data_of l))) }
{
    let mut values = Vec::with_capacity(alloc, items.len())?;
    for item in items {
        let value = from_data(alloc, item, mode)?;
        values.push(value)?;
    }
    Ok(Values::from_vec(values)?)
}

#[cycle(data)]
fn member_values(
    alloc: Global,
    members: &Map<String, Json>,
    mode: Numbers,
) -> Result<Pairs, DataStop>
    ensures value { IsData entries_of result (member_values mode (members_view members.now.entries)) }
    ensures facts { IfOk result (λ l. IsTrue (are_pairs (entries_of l))) }
{
    let mut pairs = Vec::with_capacity(alloc, members.len())?;
    for (name, member) in members.iter() {
        let value = from_data(alloc, member, mode)?;
        let key = Value::Text(Text::from_str(alloc, name.as_str())?);
        pairs.push((key, value))?;
    }
    Ok(Pairs::from_vec(pairs)?)
}
