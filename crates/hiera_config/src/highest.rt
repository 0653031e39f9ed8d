//! The value of a key's highest source.
ghost use Rattle.std.specs.Prelude.{◌≡◌, None, true, IfOk, IfSome, option_map};
ghost use Rattle.pp_values.specs.Views.{view};
ghost use Rattle.serde_json.specs.View.{view as json_view};
ghost use Rattle.hiera_config.specs.Documents.{text_at, strict};
ghost use Rattle.hiera_config.specs.Flags.{mark_of};
ghost use Rattle.hiera_config.specs.Planning.{Skips};
ghost use Rattle.hiera_config.specs.Found.{source_views};
ghost use Rattle.hiera_config.specs.Meant.{MeetsBy};
ghost use Rattle.hiera_config.specs.Seen.{seen};
ghost use Rattle.hiera_config.specs.Sound.{SkipsAll, SoundLayers, LacksConfig, or_else, first_in, first_value, highest};
ghost use Rattle.hiera_config.specs.Sound.{value_in_slot, value_in_text, value_in_data};
ghost use Rattle.hiera_config.specs.Sources as spec;

use crate::flags::mark_of;
use crate::folders::{PATH_ROOM, config_path, module_folder};
use crate::plan::FixedFile;
use crate::refused::Refused;
use crate::searching::{Source, sources};
use crate::site_data::SiteData;
use crate::variables::Variables;
use json_values::{DataStop, Numbers, from_data};
use pp_values::{Memory, Text, Value};
use serde_json::Value as Json;
use std::alloc::Global;

/// What the key's highest source has, if there is one. Where it is plain that no source can be faulty, the others are
/// not read.
pub fn highest_value(
    alloc: Global,
    files: &SiteData,
    variables: &Variables<'_>,
    module_name: Option<&str>,
    key: &str,
) -> Result<Option<Value>, Refused>
    ensures { MeetsBy (option_map view) result (highest
        (spec.sources files.now (seen variables.now) (option_map (λ m. m.now) module_name.entry) key.now)) }
{
    match sound_plans_for(alloc, files, module_name) {
        Some((global, environment)) => Ok(highest_of(alloc, files, global, environment, key)?),
        None => {
            let sources = sources(alloc, files, variables, module_name, key)?;
            Ok(first_value(sources))
        }
    }
}

/// The value of the first source.
fn first_value(sources: Vec<Source>) -> Option<Value>
    ensures { option_map view result ≡ first_value (source_views sources.items) }
{
    let mut sources = sources;
    if sources.is_empty() {
        None
    } else {
        Some(sources.swap_remove(0).into_value())
    }
}

/// The plans of the layers, where each of their levels has a file in them, no key's value is faulty in any, and the
/// module has no configuration.
pub fn sound_plans_for<'a>(
    alloc: Global,
    files: &'a SiteData,
    module_name: Option<&str>,
) -> Option<(&'a [Option<FixedFile>], &'a [Option<FixedFile>])>
    ensures plans { IfSome result (λ p. SoundLayers files.now p.0.now p.1.now) }
    ensures module { IfSome result (λ p. LacksConfig files.now (option_map (λ m. m.now) module_name.entry)) }
{
    match files.sound_plans() {
        Some(plans) => {
            if lacks_config(alloc, files, module_name) {
                Some(plans)
            } else {
                None
            }
        }
        None => None,
    }
}

pub fn lacks_config(alloc: Global, files: &SiteData, module_name: Option<&str>) -> bool
    ensures { result ≡ true → LacksConfig files.now (option_map (λ m. m.now) module_name.entry) }
{
    match module_name {
        Some(name) => is_without_config(alloc, files, name),
        None => true,
    }
}

fn is_without_config(alloc: Global, files: &SiteData, name: &str) -> bool
    ensures { result ≡ true → None ≡ text_at (spec.config_path (spec.module_folder name.now)) files.now }
{
    match module_config(alloc, name) {
        Ok(path) => match files.get(&path) {
            Some(_) => false,
            None => true,
        },
        Err(Memory) => false,
    }
}

fn module_config(alloc: Global, name: &str) -> Result<Text, Memory>
    ensures { IfOk result (λ t. t ≡ spec.config_path (spec.module_folder name.now)) }
{
    let mut room = String::with_capacity(alloc, PATH_ROOM)?;
    let folder = module_folder(alloc, name, &mut room)?;
    config_path(alloc, folder.as_str(), &mut room)
}

fn highest_of(
    alloc: Global,
    files: &SiteData,
    global: &[Option<FixedFile>],
    environment: &[Option<FixedFile>],
    key: &str,
) -> Result<Option<Value>, Memory>
    requires { SoundLayers files.now global.now environment.now }
    ensures { IfOk result (λ o. option_map view o
        ≡ or_else (first_in files.now key.now global.now) (first_in files.now key.now environment.now)) }
{
    let mark = mark_of(key);
    match highest_in(alloc, files, global, key, mark)? {
        Some(value) => Ok(Some(value)),
        None => highest_in(alloc, files, environment, key, mark),
    }
}

fn highest_in(
    alloc: Global,
    files: &SiteData,
    plan: &[Option<FixedFile>],
    key: &str,
    mark: usize,
) -> Result<Option<Value>, Memory>
    requires skips { SkipsAll files.now plan.now }
    requires mark { mark ≡ mark_of key.now }
    ensures { IfOk result (λ o. option_map view o ≡ first_in files.now key.now plan.now) }
{
    let mut left = plan;
    while let [slot, after @ ..] = left {
        if let Some(value) = value_in_slot(alloc, files, slot, key, mark)? {
            return Ok(Some(value));
        }
        left = after;
    }
    Ok(None)
}

fn value_in_slot(
    alloc: Global,
    files: &SiteData,
    slot: &Option<FixedFile>,
    key: &str,
    mark: usize,
) -> Result<Option<Value>, Memory>
    requires skips { IfSome slot.now (λ f. Skips files.now f.path f.flags) }
    requires mark { mark ≡ mark_of key.now }
    ensures { IfOk result (λ o. option_map view o ≡ value_in_slot files.now key.now slot.now) }
{
    match slot {
        Some(file) => value_in_file(alloc, files, file, key, mark),
        None => Ok(None),
    }
}

pub fn value_in_file(
    alloc: Global,
    files: &SiteData,
    fixed: &FixedFile,
    key: &str,
    mark: usize,
) -> Result<Option<Value>, Memory>
    requires skips { Skips files.now fixed.now.path fixed.now.flags }
    requires mark { mark ≡ mark_of key.now }
    ensures { IfOk result (λ o. option_map view o ≡ value_in_text key.now (text_at fixed.now.path files.now)) }
{
    if fixed.lacks(mark) {
        return Ok(None);
    }
    match files.get(&fixed.path) {
        Some(file) => value_in_data(alloc, &file.json, key),
        None => Ok(None),
    }
}

fn value_in_data(alloc: Global, json: &Option<Json>, key: &str) -> Result<Option<Value>, Memory>
    ensures { IfOk result (λ o. option_map view o ≡ value_in_data key.now (option_map json_view json.now)) }
{
    match json {
        Some(json) => match json.get(key) {
            Some(member) => strict_value(alloc, member),
            None => Ok(None),
        },
        None => Ok(None),
    }
}

/// The value, where each number within is a 64-bit integer.
fn strict_value(alloc: Global, json: &Json) -> Result<Option<Value>, Memory>
    ensures { IfOk result (λ o. option_map view o ≡ strict (json_view json.now)) }
{
    match from_data(alloc, json, Numbers::Strict) {
        Ok(value) => Ok(Some(value)),
        Err(DataStop::Number) => Ok(None),
        Err(DataStop::Memory) => Err(Memory),
    }
}
