//! Exported resources out of their JSON.
ghost use Rattle.std.specs.Prelude.{◌≡◌, codes, option_map, IfOk};
ghost use Rattle.pp_values.specs.Rising.{is_rising, precedes as comes_before};
ghost use Rattle.pp_values.specs.Settings.{setting_names};
ghost use Rattle.res_core.specs.AttributeViews.{settings};
ghost use Rattle.serde_json.specs.View.{view as json_view, items_view, members_view};
ghost use Rattle.agent_docs.specs.ReportReading.{text_at, texts_said};
ghost use Rattle.journal_reading.specs.EntryReading.{with_digit, digits_from, place_said, settings_said};
ghost use Rattle.journal_reading.specs.EntryReading.{attributes_said, tags_said, kind_said, name_said, lists_said};
ghost use Rattle.journal_reading.specs.EntryReading.{resource_said, export_said, exports_said};

use crate::cuts::cut_last;
use json_values::{FormStop, from_form};
use pp_values::{Kind, Memory, Place, Text};
use res_core::{Attribute, Attributes, Exported, Exports, PlainResource, Resource, Tags};
use serde_json::{Map, Value as Json};
use std::alloc::Global;

/// What a publication exports.
pub fn exports_said(alloc: Global, items: &[Json]) -> Result<Option<Exports>, Memory>
    ensures { IfOk result (λ o. o ≡ exports_said (items_view items.now)) }
{
    let mut exports = Exports::new(alloc);
    let mut left = items;
    while let [item, after @ ..] = left {
        match export_said(alloc, item)? {
            Some(exported) => exports.push(exported)?,
            None => return Ok(None),
        }
        left = after;
    }
    Ok(Some(exports))
}

#[tactic(auto, unfolding(crate::specs::EntryReading::export_said))]
fn export_said(alloc: Global, json: &Json) -> Result<Option<Exported>, Memory>
    ensures { IfOk result (λ o. o ≡ export_said (json_view json.now)) }
{
    let Some(at) = json.get("at").and_then(Json::as_str) else {
        return Ok(None);
    };
    let Some(node_place) = place_said(alloc, at)? else {
        return Ok(None);
    };
    match resource_said(alloc, json)? {
        Some(item) => Ok(Some(Exported { node_place, item })),
        None => Ok(None),
    }
}

/// The place that is written so: `FILE:LINE`.
fn place_said(alloc: Global, text: &str) -> Result<Option<Place>, Memory>
    ensures { IfOk result (λ o. o ≡ place_said text.now) }
{
    let Some((file, digits)) = cut_last(text) else {
        return Ok(None);
    };
    match digits_said(digits.as_bytes()) {
        Some(line) => {
            let file = Text::from_str(alloc, file)?;
            Ok(Some(Place { file, line }))
        }
        None => Ok(None),
    }
}

/// The number of 32 bits that these digits are.
fn digits_said(digits: &[u8]) -> Option<u32>
    ensures { result ≡ digits_from 0 digits.now }
{
    let mut number = 0;
    let mut left = digits;
    while let [digit, after @ ..] = left {
        number = with_digit(number, *digit)?;
        left = after;
    }
    Some(number)
}

/// A number with one more digit.
fn with_digit(number: u32, digit: u8) -> Option<u32>
    ensures { result ≡ with_digit number digit }
{
    if !digit.is_ascii_digit() {
        return None;
    }
    let more = u64::from(number) * 10 + u64::from(digit - b'0');
    if more < 4_294_967_296 {
        Some(more as u32)
    } else {
        None
    }
}

fn resource_said(alloc: Global, json: &Json) -> Result<Option<PlainResource>, Memory>
    ensures { IfOk result (λ o. o ≡ resource_said (json_view json.now)) }
{
    let Some((kind, title)) = name_said(alloc, json)? else {
        return Ok(None);
    };
    match lists_said(alloc, json)? {
        Some((attributes, tags)) => Ok(PlainResource::checked(Resource {
            kind,
            title,
            attributes,
            tags,
        })),
        None => Ok(None),
    }
}

fn name_said(alloc: Global, json: &Json) -> Result<Option<(Kind, Text)>, Memory>
    ensures { IfOk result (λ o. o ≡ name_said (json_view json.now)) }
{
    let Some(kind) = kind_said(alloc, json)? else {
        return Ok(None);
    };
    match json.get("title").and_then(Json::as_str) {
        Some(title) => {
            let title = Text::from_str(alloc, title)?;
            Ok(Some((kind, title)))
        }
        None => Ok(None),
    }
}

/// The kind that is printed so.
fn kind_said(alloc: Global, json: &Json) -> Result<Option<Kind>, Memory>
    ensures { IfOk result (λ o. o ≡ kind_said (json_view json.now)) }
{
    match json.get("type").and_then(Json::as_str) {
        Some(printed) => Ok(Kind::from_text(Text::new(printed.to_ascii_lowercase(alloc)?))),
        None => Ok(None),
    }
}

fn lists_said(alloc: Global, json: &Json) -> Result<Option<(Attributes, Tags)>, Memory>
    ensures { IfOk result (λ o. o ≡ lists_said (json_view json.now)) }
{
    let Some(attributes) = attributes_said(alloc, json)? else {
        return Ok(None);
    };
    match tags_said(alloc, json)? {
        Some(tags) => Ok(Some((attributes, tags))),
        None => Ok(None),
    }
}

fn attributes_said(alloc: Global, json: &Json) -> Result<Option<Attributes>, Memory>
    ensures { IfOk result (λ o. o ≡ attributes_said (json_view json.now)) }
{
    let Some(members) = json.get("attrs").and_then(Json::as_object) else {
        return Ok(None);
    };
    let Some(items) = settings_said(alloc, members)? else {
        return Ok(None);
    };
    if names_rise(items.as_slice()) {
        Ok(Some(Attributes::from_vec(items)))
    } else {
        Ok(None)
    }
}

/// Each name with the value whose form stands there.
fn settings_said(
    alloc: Global,
    members: &Map<String, Json>,
) -> Result<Option<Vec<Attribute>>, Memory>
    ensures { IfOk result (λ o. option_map (λ v. settings v.items) o ≡ settings_said (members_view members.now.entries)) }
{
    let mut items = Vec::new(alloc);
    for (name, member) in members {
        let value = match from_form(alloc, member) {
            Ok(value) => value,
            Err(FormStop::NoForm) => return Ok(None),
            Err(FormStop::Memory) => return Err(Memory),
        };
        let name = Text::from_str(alloc, name.as_str())?;
        items.push(Attribute { name, value })?;
    }
    Ok(Some(items))
}

fn names_rise(attributes: &[Attribute]) -> bool
    ensures { result ≡ is_rising (setting_names (settings attributes.now)) }
{
    let mut left = attributes;
    while let [attribute, after @ ..] = left {
        if !name_precedes(&attribute.name, after) {
            return false;
        }
        left = after;
    }
    true
}

fn name_precedes(name: &Text, attributes: &[Attribute]) -> bool
    ensures { result ≡ comes_before name.now (setting_names (settings attributes.now)) }
{
    match attributes {
        [next, ..] => name.compare(&next.name).is_lt(),
        [] => true,
    }
}

fn tags_said(alloc: Global, json: &Json) -> Result<Option<Tags>, Memory>
    ensures { IfOk result (λ o. o ≡ tags_said (json_view json.now)) }
{
    let Some(items) = json.get("tags").and_then(Json::as_array) else {
        return Ok(None);
    };
    let Some(tags) = texts_said(alloc, items.as_slice())? else {
        return Ok(None);
    };
    if texts_rise(tags.as_slice()) {
        Ok(Some(Tags::from_vec(tags)))
    } else {
        Ok(None)
    }
}

fn texts_said(alloc: Global, items: &[Json]) -> Result<Option<Vec<Text>>, Memory>
    ensures { IfOk result (λ o. option_map (λ v. v.items) o ≡ texts_said (items_view items.now)) }
{
    let mut texts = Vec::new(alloc);
    let mut left = items;
    while let [item, after @ ..] = left {
        match item.as_str() {
            Some(text) => texts.push(Text::from_str(alloc, text)?)?,
            None => return Ok(None),
        }
        left = after;
    }
    Ok(Some(texts))
}

fn texts_rise(texts: &[Text]) -> bool
    ensures { result ≡ is_rising texts.now }
{
    let mut left = texts;
    while let [text, after @ ..] = left {
        if !text_precedes(text, after) {
            return false;
        }
        left = after;
    }
    true
}

fn text_precedes(text: &Text, texts: &[Text]) -> bool
    ensures { result ≡ comes_before text.now texts.now }
{
    match texts {
        [next, ..] => text.compare(next).is_lt(),
        [] => true,
    }
}
