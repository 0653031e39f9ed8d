//! The machine that a JSON value says, as in a bundle.
ghost use Rattle.std.specs.Prelude.{[], codes, IfOk, IsTrue};
ghost use Rattle.pp_values.specs.Plain.{is_plain_value};
ghost use Rattle.pp_values.specs.Views.{view as value_view};
ghost use Rattle.serde_json.specs.Find.{get};
ghost use Rattle.serde_json.specs.View.{view, items_view, members_view};
ghost use Rattle.agent_docs.specs.MachineMembers.{failing_text, texts_from, all_failing, given_failing, property_value, with_property, with_properties, all_properties, with_record, with_records, all_records, given_state, members_said, machine_said, Says, SaysAs};

use crate::machine_stop::MachineStop;
use crate::refusing::{bad_failing, bad_path, bad_property, bad_record};
use agent_machine::{FailingTexts, MachineDoc, Properties, States};
use json_values::{FormStop, from_form};
use pp_values::{Text, Texts, Value};
use serde_json::{Map, Value as Json};
use std::alloc::Global;

/// The machine that this JSON says, in any spelling, or the path of the first thing that is wrong with it, as
/// `machine.failing.2` or `machine.state.File[/a].mode`.
pub fn machine_of(alloc: Global, machine: &Json) -> Result<MachineDoc, MachineStop>
    ensures { Says result (machine_said (view machine.now)) }
{
    if machine.as_object().is_some() {
        members_said(alloc, machine)
    } else {
        Err(bad_path(alloc, "machine"))
    }
}

#[tactic(auto, unfolding(crate::specs::MachineMembers::members_said))]
fn members_said(alloc: Global, machine: &Json) -> Result<MachineDoc, MachineStop>
    ensures { Says result (members_said (view machine.now)) }
{
    let failing = given_failing(alloc, machine)?;
    let state = given_state(alloc, machine)?;
    Ok(MachineDoc { failing, state })
}

fn given_failing(alloc: Global, machine: &Json) -> Result<FailingTexts, MachineStop>
    ensures { Says result (given_failing (get (codes "failing") (view machine.now))) }
{
    match machine.get("failing") {
        Some(failing) => all_failing(alloc, failing),
        None => Ok(FailingTexts::new(alloc)),
    }
}

fn all_failing(alloc: Global, failing: &Json) -> Result<FailingTexts, MachineStop>
    ensures { Says result (all_failing (view failing.now)) }
{
    match failing.as_array() {
        Some(items) => {
            let texts = texts_among(alloc, items)?;
            Ok(FailingTexts::from_texts(alloc, texts)?)
        }
        None => Err(bad_path(alloc, "machine.failing")),
    }
}

fn texts_among(alloc: Global, items: &[Json]) -> Result<Texts, MachineStop>
    ensures { Says result (texts_from [] (items_view items.now)) }
{
    let mut found = Texts::new(alloc);
    let mut left = items;
    while let [item, after @ ..] = left {
        let text = failing_text(alloc, found.len(), item)?;
        found.push(text)?;
        left = after;
    }
    Ok(found)
}

fn failing_text(alloc: Global, index: usize, item: &Json) -> Result<Text, MachineStop>
    ensures { Says result (failing_text index (view item.now)) }
{
    match item.as_str() {
        Some(text) => Ok(Text::from_str(alloc, text)?),
        None => Err(bad_failing(alloc, index)),
    }
}

fn given_state(alloc: Global, machine: &Json) -> Result<States, MachineStop>
    ensures { Says result (given_state (get (codes "state") (view machine.now))) }
{
    match machine.get("state") {
        Some(state) => all_records(alloc, state),
        None => Ok(States::new(alloc)),
    }
}

fn all_records(alloc: Global, state: &Json) -> Result<States, MachineStop>
    ensures { Says result (all_records (view state.now)) }
{
    match state.as_object() {
        Some(members) => records_among(alloc, members),
        None => Err(bad_path(alloc, "machine.state")),
    }
}

fn records_among(alloc: Global, members: &Map<String, Json>) -> Result<States, MachineStop>
    ensures { Says result (with_records (members_view members.now.entries) []) }
{
    let mut state = States::new(alloc);
    for (key, properties) in members {
        put_record(alloc, key.as_str(), properties, &mut state)?;
    }
    Ok(state)
}

fn put_record(
    alloc: Global,
    key: &str,
    properties: &Json,
    state: &mut States,
) -> Result<(), MachineStop>
    ensures { SaysAs (λ done. state.new) result (with_record state.old key.now (view properties.now)) }
{
    let properties = all_properties(alloc, key, properties)?;
    let text = Text::from_str(alloc, key)?;
    state.put(text, properties)?;
    Ok(())
}

fn all_properties(alloc: Global, key: &str, properties: &Json) -> Result<Properties, MachineStop>
    ensures { Says result (all_properties key.now (view properties.now)) }
{
    match properties.as_object() {
        Some(members) => properties_among(alloc, key, members),
        None => Err(bad_record(alloc, key)),
    }
}

fn properties_among(
    alloc: Global,
    key: &str,
    members: &Map<String, Json>,
) -> Result<Properties, MachineStop>
    ensures { Says result (with_properties key.now (members_view members.now.entries) []) }
{
    let mut properties = Properties::new(alloc);
    for (name, value) in members {
        put_property(alloc, key, name.as_str(), value, &mut properties)?;
    }
    Ok(properties)
}

fn put_property(
    alloc: Global,
    key: &str,
    name: &str,
    value: &Json,
    properties: &mut Properties,
) -> Result<(), MachineStop>
    ensures { SaysAs (λ done. properties.new) result (with_property key.now properties.old name.now (view value.now)) }
{
    let value = property_value(alloc, key, name, value)?;
    let name = Text::from_str(alloc, name)?;
    properties.put(name, value)?;
    Ok(())
}

#[tactic(auto, using(json_documents::proofs::ReadForms::read_is_plain))]
fn property_value(alloc: Global, key: &str, name: &str, value: &Json) -> Result<Value, MachineStop>
    ensures value { SaysAs value_view result (property_value key.now name.now (view value.now)) }
    ensures plain { IfOk result (λ v. IsTrue (is_plain_value (value_view v))) }
{
    match from_form(alloc, value) {
        Ok(value) => Ok(value),
        Err(FormStop::NoForm) => Err(bad_property(alloc, key, name)),
        Err(FormStop::Memory) => Err(MachineStop::Memory),
    }
}
