//! Data files in which no key's value is faulty.
ghost use Rattle.std.specs.Prelude.{◌≡◌, [], true, IfOk, option_map};
ghost use Rattle.std.specs.List.{list_all};
ghost use Rattle.serde_json.specs.View.{view as json_view, items_view, members_view};
ghost use Rattle.hiera_config.specs.Keeping.{filed, AreKept};
ghost use Rattle.hiera_config.specs.Planning.{PlannedAt};
ghost use Rattle.hiera_config.specs.Sound.{is_sound_slot, sound_by_config, sound_by, SoundLayer, SoundLayers};
ghost use Rattle.hiera_config.specs.Sources.{global_folder};
ghost use Rattle.hiera_config.specs.SoundData.{is_sound, are_sound_items, are_sound_members, is_sound_document};

use crate::config::Config;
use crate::folders::config_path;
use crate::plan::{FixedFile, file_at};
use crate::site_data::DataFile;
use pp_values::{Memory, Text};
use serde_json::{Map, Value as Json};
use std::alloc::Global;
use std::collections::BTreeMap;

/// Whether the JSON is a document with a lawful value for each of its keys.
pub fn is_sound_document(json: &Option<Json>) -> bool
    ensures { result ≡ is_sound_document (option_map json_view json.now) }
{
    match json {
        Some(json) => json.is_object() && is_sound(json),
        None => false,
    }
}

/// Whether each number within is a 64-bit integer.
#[cycle(sound)]
fn is_sound(json: &Json) -> bool
    ensures { result ≡ is_sound (json_view json.now) }
{
    match json {
        Json::Null => true,
        Json::Bool(_) => true,
        Json::Number(number) => number.as_i64().is_some(),
        Json::String(_) => true,
        Json::Array(items) => are_sound_items(items),
        Json::Object(members) => are_sound_members(members),
    }
}

#[cycle(sound)]
fn are_sound_items(items: &Vec<Json>) -> bool
    ensures { result ≡ are_sound_items (items_view items.now.items) }
{
    for item in items {
        if !is_sound(item) {
            return false;
        }
    }
    true
}

#[cycle(sound)]
fn are_sound_members(members: &Map<String, Json>) -> bool
    ensures { result ≡ are_sound_members (members_view members.now.entries) }
{
    for (_, member) in members.iter() {
        if !is_sound(member) {
            return false;
        }
    }
    true
}

/// Whether each level of the global layer and of the environment has its file in these plans, and no key's value is
/// faulty in any.
pub fn are_sound_layers(
    alloc: Global,
    files: &BTreeMap<Text, DataFile>,
    global: &[Option<FixedFile>],
    environment: &[Option<FixedFile>],
) -> Result<bool, Memory>
    requires kept { AreKept files.now.entries }
    requires global { PlannedAt (filed files.now.entries) global_folder global.now }
    requires environment { PlannedAt (filed files.now.entries) [] environment.now }
    ensures { IfOk result (λ b. b ≡ true → SoundLayers (filed files.now.entries) global.now environment.now) }
{
    let is_global_sound = is_sound_layer(alloc, files, "global/", global)?;
    let is_environment_sound = is_sound_layer(alloc, files, "", environment)?;
    Ok(is_global_sound && is_environment_sound)
}

fn is_sound_layer(
    alloc: Global,
    files: &BTreeMap<Text, DataFile>,
    folder: &str,
    plan: &[Option<FixedFile>],
) -> Result<bool, Memory>
    requires kept { AreKept files.now.entries }
    requires planned { PlannedAt (filed files.now.entries) folder.now plan.now }
    ensures { IfOk result (λ b. b ≡ true → SoundLayer (filed files.now.entries) folder.now plan.now) }
{
    let path = config_path(alloc, folder, &mut String::new(alloc))?;
    Ok(is_sound_by(file_at(files, &path), plan))
}

fn is_sound_by(file: Option<&DataFile>, plan: &[Option<FixedFile>]) -> bool
    ensures { result ≡ sound_by (option_map (λ f. f.now) file.entry) plan.now }
{
    match (file, plan) {
        (Some(file), _) => is_sound_config(&file.config, plan),
        (None, []) => true,
        (None, [_, ..]) => false,
    }
}

fn is_sound_config(config: &Option<Config>, plan: &[Option<FixedFile>]) -> bool
    ensures { result ≡ sound_by_config config.now plan.now }
{
    match config {
        Some(config) => config.levels.as_slice().len() == plan.len() && are_sound(plan),
        None => false,
    }
}

fn are_sound(plan: &[Option<FixedFile>]) -> bool
    ensures { result ≡ list_all is_sound_slot plan.now }
{
    for slot in plan {
        if !is_sound_slot(slot) {
            return false;
        }
    }
    true
}

fn is_sound_slot(slot: &Option<FixedFile>) -> bool
    ensures { result ≡ is_sound_slot slot.now }
{
    match slot {
        Some(file) => file.is_sound,
        None => false,
    }
}
