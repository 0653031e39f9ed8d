//! Configurations out of JSON.
ghost use Rattle.std.specs.Prelude.{◌≡◌, IfOk, option_map};
ghost use Rattle.serde_json.specs.Find.{get, as_object};
ghost use Rattle.serde_json.specs.Read.{read};
ghost use Rattle.serde_json.specs.View.{view as json_view};
ghost use Rattle.pp_values.specs.Answers.{Answers};
ghost use Rattle.pp_values.specs.Faults.{fault};
ghost use Rattle.pp_values.specs.declared.fault.What.TheVariants as what;
ghost use Rattle.hiera_config.specs.Config.{config_of, config_read, config_with, config_or_fault, is_module};
ghost use Rattle.hiera_config.specs.Config.{default_folder, folder_in, is_version, has_only, config_names, config_from};
ghost use Rattle.hiera_config.specs.Config.{IsBadData};
ghost use Rattle.json_values.specs.FromData.{both};

use crate::config::{Config, Layer, Levels};
use crate::level_reading::{has_json_data, has_only, levels_in, text_or};
use pp_values::{Fault, Memory, Place, Stop, Text, What};
use serde_json::Value as Json;
use std::alloc::Global;

/// The configuration of a layer. A text that is none is the fault of its path.
pub fn read_config(
    alloc: Global,
    path: &Text,
    text: &Text,
    layer: Layer,
    at: &Place,
) -> Result<Config, Stop>
    ensures { Answers result (config_or_fault path.now text.now layer at.now) }
{
    let is_module = matches!(layer, Layer::Module(_));
    match config_read(alloc, is_module, text.as_str())? {
        Some(config) => Ok(config),
        None => Err(bad_config(alloc, path, at)),
    }
}

fn bad_config(alloc: Global, path: &Text, at: &Place) -> Stop
    ensures { IsBadData result path.now at.now }
{
    match faulty(alloc, path, at) {
        Ok(fault) => Stop::Fault(fault),
        Err(Memory) => Stop::Memory,
    }
}

fn faulty(alloc: Global, path: &Text, at: &Place) -> Result<Fault, Memory>
    ensures { IfOk result (λ f. f ≡ fault at.now (what.BadData path.now)) }
{
    let at = at.copy(alloc)?;
    let path = path.copy(alloc)?;
    Fault::new(alloc, at, What::BadData(path))
}

fn config_read(alloc: Global, is_module: bool, text: &str) -> Result<Option<Config>, Memory>
    ensures { IfOk result (λ c. c ≡ config_read is_module text.now) }
{
    match parsed(alloc, text)? {
        Some(json) => config_of(alloc, is_module, &json),
        None => Ok(None),
    }
}

/// The JSON that a text is.
pub fn parsed(alloc: Global, text: &str) -> Result<Option<Json>, Memory>
    ensures { IfOk result (λ o. option_map json_view o ≡ read text.now) }
{
    match Json::from_str(alloc, text) {
        Ok(json) => Ok(Some(json)),
        Err(error) if error.is_memory() => Err(Memory),
        Err(_) => Ok(None),
    }
}

const NAMES: [&str; 3] = ["version", "defaults", "hierarchy"];

const MODULE_NAMES: [&str; 4] = ["version", "defaults", "hierarchy", "default_hierarchy"];

const DEFAULT_NAMES: [&str; 2] = ["datadir", "data_hash"];

/// The configuration that the JSON is, where it is one.
pub fn config_of(alloc: Global, is_module: bool, json: &Json) -> Result<Option<Config>, Memory>
    ensures { IfOk result (λ c. c ≡ config_of is_module (json_view json.now)) }
{
    if !has_names(is_module, json) || !is_version(json.get("version")) {
        return Ok(None);
    }
    match default_folder(alloc, json.get("defaults"))? {
        Some(folder) => config_with(alloc, json, folder.as_str()),
        None => Ok(None),
    }
}

fn has_names(is_module: bool, json: &Json) -> bool
    ensures { result ≡ has_only (config_names is_module) (as_object (json_view json.now)) }
{
    if is_module {
        has_only(&MODULE_NAMES, json)
    } else {
        has_only(&NAMES, json)
    }
}

fn is_version(json: Option<&Json>) -> bool
    ensures { result ≡ is_version (option_map (λ j. json_view j.now) json.entry) }
{
    match json {
        Some(json) => matches!(json.as_u64(), Some(5)),
        None => false,
    }
}

fn default_folder(alloc: Global, json: Option<&Json>) -> Result<Option<Text>, Memory>
    ensures { IfOk result (λ t. t ≡ default_folder (option_map (λ j. json_view j.now) json.entry)) }
{
    match json {
        Some(json) => folder_in(alloc, json),
        None => Ok(Some(Text::from_str(alloc, "data")?)),
    }
}

fn folder_in(alloc: Global, json: &Json) -> Result<Option<Text>, Memory>
    ensures { IfOk result (λ t. t ≡ folder_in (json_view json.now)) }
{
    if has_only(&DEFAULT_NAMES, json) && has_json_data(json) {
        text_or(alloc, "data", json.get("datadir"))
    } else {
        Ok(None)
    }
}

fn config_with(alloc: Global, json: &Json, folder: &str) -> Result<Option<Config>, Memory>
    ensures { IfOk result (λ c. c ≡ config_with (json_view json.now) folder.now) }
{
    let levels = levels_in(alloc, folder, json.get("hierarchy"))?;
    let default_levels = levels_in(alloc, folder, json.get("default_hierarchy"))?;
    Ok(config_from(levels, default_levels))
}

fn config_from(levels: Option<Levels>, default_levels: Option<Levels>) -> Option<Config>
    ensures { result ≡ both config_from levels default_levels }
{
    match (levels, default_levels) {
        (Some(levels), Some(default_levels)) => Some(Config {
            levels,
            default_levels,
        }),
        _ => None,
    }
}
