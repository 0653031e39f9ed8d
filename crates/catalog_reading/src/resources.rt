//! Resources, with their attributes, tags and containers.
ghost use Rattle.std.specs.Prelude.{◌≡◌, codes, option_and_then, option_map, IfOk};
ghost use Rattle.serde_json.specs.Find.{as_str};
ghost use Rattle.serde_json.specs.View.{items_view, members_view, view};
ghost use Rattle.pp_values.specs.Views.{view as value_view};
ghost use Rattle.json_values.specs.Forms.{value_of};
ghost use Rattle.catalog_reading.specs.CatalogParts.{each_said, list_said, said_at, kind_in, kind_said, settings_said};
ghost use Rattle.catalog_reading.specs.CatalogParts.{attributes_said, if_rising, tags_said, name_said, resource_said};
ghost use Rattle.catalog_reading.specs.CatalogParts.{held_said};

use crate::checks::are_rising;
use crate::numbers::inside_at;
use json_values::{FormStop, from_form};
use pp_values::{Kind, Memory, Text, Value};
use res_core::{Attribute, Attributes, Held, HeldList, PlainResource, Resource, Tags};
use serde_json::{Map, Value as Json};
use std::alloc::Global;

pub(crate) fn resources_at(alloc: Global, json: &Json) -> Result<Option<HeldList>, Memory>
    ensures { IfOk result (λ o. o ≡ said_at (list_said held_said) (codes "resources") (view json.now)) }
{
    match json.get("resources").and_then(Json::as_array) {
        Some(items) => resources_said(alloc, items.as_slice()),
        None => Ok(None),
    }
}

fn resources_said(alloc: Global, items: &[Json]) -> Result<Option<HeldList>, Memory>
    ensures { IfOk result (λ o. o ≡ each_said held_said (items_view items.now)) }
{
    let mut resources = Vec::new(alloc);
    let mut left = items;
    while let [item, after @ ..] = left {
        match held_said(alloc, item)? {
            Some(held) => resources.push(held)?,
            None => return Ok(None),
        }
        left = after;
    }
    Ok(Some(HeldList::from_vec(resources)))
}

#[tactic(auto, unfolding(crate::specs::CatalogParts::held_said))]
fn held_said(alloc: Global, json: &Json) -> Result<Option<Held>, Memory>
    ensures { IfOk result (λ o. o ≡ held_said (view json.now)) }
{
    let Some(resource) = resource_said(alloc, json)? else {
        return Ok(None);
    };
    let Some(item) = PlainResource::checked(resource) else {
        return Ok(None);
    };
    let Some(inside) = inside_at(alloc, json)? else {
        return Ok(None);
    };
    Ok(Some(Held { item, inside }))
}

#[tactic(auto, unfolding(crate::specs::CatalogParts::resource_said))]
fn resource_said(alloc: Global, json: &Json) -> Result<Option<Resource>, Memory>
    ensures { IfOk result (λ o. o ≡ resource_said (view json.now)) }
{
    let Some((kind, title)) = name_said(alloc, json)? else {
        return Ok(None);
    };
    let Some(attributes) = attributes_at(alloc, json)? else {
        return Ok(None);
    };
    let Some(tags) = tags_at(alloc, json)? else {
        return Ok(None);
    };
    Ok(Some(Resource {
        kind,
        title,
        attributes,
        tags,
    }))
}

fn name_said(alloc: Global, json: &Json) -> Result<Option<(Kind, Text)>, Memory>
    ensures { IfOk result (λ o. o ≡ name_said (view json.now)) }
{
    let Some(kind) = json.get("type").and_then(Json::as_str) else {
        return Ok(None);
    };
    let Some(title) = json.get("title").and_then(Json::as_str) else {
        return Ok(None);
    };
    match kind_in(alloc, kind)? {
        Some(kind) => Ok(Some((kind, Text::from_str(alloc, title)?))),
        None => Ok(None),
    }
}

/// The kind that is printed so.
fn kind_in(alloc: Global, text: &str) -> Result<Option<Kind>, Memory>
    ensures { IfOk result (λ o. o ≡ kind_in text.now) }
{
    let name = Text::new(text.to_ascii_lowercase(alloc)?);
    Ok(Kind::from_text(name))
}

fn attributes_at(alloc: Global, json: &Json) -> Result<Option<Attributes>, Memory>
    ensures { IfOk result (λ o. o ≡ said_at attributes_said (codes "attrs") (view json.now)) }
{
    match json.get("attrs").and_then(Json::as_object) {
        Some(members) => attributes_said(alloc, members),
        None => Ok(None),
    }
}

fn attributes_said(alloc: Global, members: &Map<String, Json>) -> Result<Option<Attributes>, Memory>
    ensures { IfOk result (λ o. o ≡ settings_said (members_view members.now.entries)) }
{
    let mut attributes = Vec::new(alloc);
    for (name, member) in members.iter() {
        let Some(value) = value_said(alloc, member)? else {
            return Ok(None);
        };
        let name = Text::from_str(alloc, name.as_str())?;
        attributes.push(Attribute { name, value })?;
    }
    Ok(Some(Attributes::from_vec(attributes)))
}

fn value_said(alloc: Global, json: &Json) -> Result<Option<Value>, Memory>
    ensures { IfOk result (λ o. option_map value_view o ≡ value_of (view json.now)) }
{
    match from_form(alloc, json) {
        Ok(value) => Ok(Some(value)),
        Err(FormStop::NoForm) => Ok(None),
        Err(FormStop::Memory) => Err(Memory),
    }
}

fn tags_at(alloc: Global, json: &Json) -> Result<Option<Tags>, Memory>
    ensures { IfOk result (λ o. o ≡ said_at tags_said (codes "tags") (view json.now)) }
{
    match json.get("tags").and_then(Json::as_array) {
        Some(items) => tags_said(alloc, items.as_slice()),
        None => Ok(None),
    }
}

fn tags_said(alloc: Global, items: &[Json]) -> Result<Option<Tags>, Memory>
    ensures { IfOk result (λ o. o ≡ option_and_then if_rising (each_said as_str (items_view items.now))) }
{
    match texts_said(alloc, items)? {
        Some(texts) => {
            if are_rising(texts.as_slice()) {
                Ok(Some(Tags::from_vec(texts)))
            } else {
                Ok(None)
            }
        }
        None => Ok(None),
    }
}

fn texts_said(alloc: Global, items: &[Json]) -> Result<Option<Vec<Text>>, Memory>
    ensures { IfOk result (λ o. option_map (λ v. v.items) o ≡ each_said as_str (items_view items.now)) }
{
    let mut texts = Vec::new(alloc);
    let mut left = items;
    while let [item, after @ ..] = left {
        match item.as_str() {
            Some(text) => texts.push(Text::from_str(alloc, text)?)?,
            None => return Ok(None),
        }
        left = after;
    }
    Ok(Some(texts))
}
