//! Levels of a hierarchy out of JSON. None is no lawful one.
ghost use Rattle.std.specs.Prelude.{◌≡◌, IfOk, codes, map, option_map, option_and_then, string_bytes};
ghost use Rattle.std.specs.List.{list_any};
ghost use Rattle.std.specs.Str.{bytes_eq};
ghost use Rattle.serde_json.specs.Find.{get, as_object, as_array, as_str};
ghost use Rattle.serde_json.specs.View.{view as json_view, items_view, members_view};
ghost use Rattle.json_values.specs.FromData.{both};
ghost use Rattle.hiera_config.specs.Config.{are_among, has_only, texts_from, texts_in, text_or, is_text, has_json_data};
ghost use Rattle.hiera_config.specs.Config.{templates, one_template, mapped, paths_by, paths_in, name_in, level_of};
ghost use Rattle.hiera_config.specs.Config.{level_names, level_parts, level_in, levels_from, levels_in, applied};

use crate::config::{Level, LevelPaths, Levels};
use crate::template::{Template, Templates};
use pp_values::{Memory, Text, Texts};
use serde_json::{Map, Value as Json};
use std::alloc::Global;

const LEVEL_NAMES: [&str; 6] = [
    "name",
    "datadir",
    "data_hash",
    "path",
    "paths",
    "mapped_paths",
];

/// The levels of a list, where the default folder of data is this one. Without a list there are none.
pub fn levels_in(alloc: Global, folder: &str, json: Option<&Json>) -> Result<Option<Levels>, Memory>
    ensures { IfOk result (λ l. l ≡ levels_in folder.now (option_map (λ j. json_view j.now) json.entry)) }
{
    match json {
        Some(json) => match json.as_array() {
            Some(items) => levels_from(alloc, folder, items),
            None => Ok(None),
        },
        None => Ok(Some(Levels::new(alloc))),
    }
}

fn levels_from(alloc: Global, folder: &str, items: &[Json]) -> Result<Option<Levels>, Memory>
    ensures { IfOk result (λ l. l ≡ levels_from folder.now (items_view items.now)) }
{
    let mut levels = Vec::new(alloc);
    for item in items {
        match level_in(alloc, folder, item)? {
            Some(level) => levels.push(level)?,
            None => return Ok(None),
        }
    }
    Ok(Some(Levels::from_vec(levels)))
}

fn level_in(alloc: Global, folder: &str, json: &Json) -> Result<Option<Level>, Memory>
    ensures { IfOk result (λ l. l ≡ level_in folder.now (json_view json.now)) }
{
    if has_only(&LEVEL_NAMES, json) && has_json_data(json) {
        level_parts(alloc, folder, json)
    } else {
        Ok(None)
    }
}

/// Whether the JSON is an object whose members have these names alone.
pub fn has_only(names: &[&str], json: &Json) -> bool
    ensures { result ≡ has_only (map (λ n. n.now) names.now) (as_object (json_view json.now)) }
{
    match json.as_object() {
        Some(members) => are_among(names, members),
        None => false,
    }
}

fn are_among(names: &[&str], members: &Map<String, Json>) -> bool
    ensures { result ≡ are_among (map (λ n. n.now) names.now) (members_view members.now.entries) }
{
    for (name, _) in members.iter() {
        if !is_among(names, name.as_str()) {
            return false;
        }
    }
    true
}

fn is_among(names: &[&str], name: &str) -> bool
    ensures { result ≡ list_any (bytes_eq name.now) (map (λ n. n.now) names.now) }
{
    for other in names {
        if name == *other {
            return true;
        }
    }
    false
}

/// Whether the data is JSON, where anything is said of that.
pub fn has_json_data(json: &Json) -> bool
    ensures { result ≡ has_json_data (json_view json.now) }
{
    match json.get("data_hash") {
        Some(said) => is_text(said, "json_data"),
        None => true,
    }
}

fn is_text(json: &Json, text: &str) -> bool
    ensures { result ≡ is_text text.now (as_str (json_view json.now)) }
{
    match json.as_str() {
        Some(other) => other == text,
        None => false,
    }
}

fn level_parts(alloc: Global, folder: &str, json: &Json) -> Result<Option<Level>, Memory>
    ensures { IfOk result (λ l. l ≡ level_parts folder.now (json_view json.now)) }
{
    let name = name_in(alloc, json)?;
    let folder = text_or(alloc, folder, json.get("datadir"))?;
    let paths = paths_in(alloc, json)?;
    Ok(level_of(name, folder, paths))
}

fn level_of(name: Option<Text>, folder: Option<Text>, paths: Option<LevelPaths>) -> Option<Level>
    ensures { result ≡ both applied (both level_of name folder) paths }
{
    match (name, folder, paths) {
        (Some(name), Some(folder), Some(paths)) => {
            let folder = Template::new(folder);
            Some(Level {
                name,
                folder,
                paths,
            })
        }
        _ => None,
    }
}

fn name_in(alloc: Global, json: &Json) -> Result<Option<Text>, Memory>
    ensures { IfOk result (λ t. t ≡ name_in (json_view json.now)) }
{
    match json.get("name") {
        Some(name) => text_in(alloc, name),
        None => Ok(None),
    }
}

fn text_in(alloc: Global, json: &Json) -> Result<Option<Text>, Memory>
    ensures { IfOk result (λ t. t ≡ as_str (json_view json.now)) }
{
    match json.as_str() {
        Some(text) => Ok(Some(Text::from_str(alloc, text)?)),
        None => Ok(None),
    }
}

/// A member that is a text, or this text where there is no such member.
pub fn text_or(alloc: Global, default: &str, json: Option<&Json>) -> Result<Option<Text>, Memory>
    ensures { IfOk result (λ t. t ≡ text_or default.now (option_map (λ j. json_view j.now) json.entry)) }
{
    match json {
        Some(json) => text_in(alloc, json),
        None => Ok(Some(Text::from_str(alloc, default)?)),
    }
}

fn paths_in(alloc: Global, json: &Json) -> Result<Option<LevelPaths>, Memory>
    ensures { IfOk result (λ p. p ≡ paths_in (json_view json.now)) }
{
    paths_by(
        alloc,
        json.get("path"),
        json.get("paths"),
        json.get("mapped_paths"),
    )
}

fn paths_by(
    alloc: Global,
    path: Option<&Json>,
    several: Option<&Json>,
    three: Option<&Json>,
) -> Result<Option<LevelPaths>, Memory>
    ensures { IfOk result (λ p. p
        ≡ paths_by (option_map (λ j. json_view j.now) path.entry) (option_map (λ j. json_view j.now) several.entry)
        (option_map (λ j. json_view j.now) three.entry)) }
{
    match (path, several, three) {
        (Some(path), None, None) => one_template_in(alloc, path),
        (None, Some(several), None) => templates_in(alloc, several),
        (None, None, Some(three)) => mapped_in(alloc, three),
        _ => Ok(None),
    }
}

fn one_template_in(alloc: Global, json: &Json) -> Result<Option<LevelPaths>, Memory>
    ensures { IfOk result (λ p. p ≡ option_map one_template (as_str (json_view json.now))) }
{
    match text_in(alloc, json)? {
        Some(text) => {
            let mut templates = Templates::new(alloc);
            templates.push(Template::new(text))?;
            Ok(Some(LevelPaths::Templates(templates)))
        }
        None => Ok(None),
    }
}

fn templates_in(alloc: Global, json: &Json) -> Result<Option<LevelPaths>, Memory>
    ensures { IfOk result (λ p. p ≡ option_map templates (texts_in (json_view json.now))) }
{
    match json.as_array() {
        Some(items) => match templates_from(alloc, items)? {
            Some(templates) => Ok(Some(LevelPaths::Templates(templates))),
            None => Ok(None),
        },
        None => Ok(None),
    }
}

fn templates_from(alloc: Global, items: &[Json]) -> Result<Option<Templates>, Memory>
    ensures { IfOk result (λ ts. ts ≡ texts_from (items_view items.now)) }
{
    let mut templates = Templates::new(alloc);
    for item in items {
        match item.as_str() {
            Some(text) => templates.push(Template::new(Text::from_str(alloc, text)?))?,
            None => return Ok(None),
        }
    }
    Ok(Some(templates))
}

fn mapped_in(alloc: Global, json: &Json) -> Result<Option<LevelPaths>, Memory>
    ensures { IfOk result (λ p. p ≡ option_and_then mapped (texts_in (json_view json.now))) }
{
    match texts_in(alloc, json)? {
        Some(texts) => mapped(alloc, &texts),
        None => Ok(None),
    }
}

fn mapped(alloc: Global, texts: &Texts) -> Result<Option<LevelPaths>, Memory>
    ensures { IfOk result (λ p. p ≡ mapped texts.now) }
{
    match texts.as_slice() {
        [variable, name, template] => {
            let variable = variable.copy(alloc)?;
            let name = name.copy(alloc)?;
            let template = Template::new(template.copy(alloc)?);
            Ok(Some(LevelPaths::Mapped {
                variable,
                name,
                template,
            }))
        }
        _ => Ok(None),
    }
}

fn texts_in(alloc: Global, json: &Json) -> Result<Option<Texts>, Memory>
    ensures { IfOk result (λ ts. ts ≡ texts_in (json_view json.now)) }
{
    match json.as_array() {
        Some(items) => texts_from(alloc, items),
        None => Ok(None),
    }
}

fn texts_from(alloc: Global, items: &[Json]) -> Result<Option<Texts>, Memory>
    ensures { IfOk result (λ ts. ts ≡ texts_from (items_view items.now)) }
{
    let mut texts = Texts::new(alloc);
    for item in items {
        match item.as_str() {
            Some(text) => texts.push(Text::from_str(alloc, text)?)?,
            None => return Ok(None),
        }
    }
    Ok(Some(texts))
}
