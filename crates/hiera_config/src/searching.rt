//! The sources of a key.
ghost use Rattle.std.specs.Prelude.{◌≡◌, Some, option_map};
ghost use Rattle.serde_json.specs.View.{view as json_view};
ghost use Rattle.hiera_config.specs.Documents.{strict};
ghost use Rattle.hiera_config.specs.Flags.{mark_of};
ghost use Rattle.hiera_config.specs.Found.{source_views};
ghost use Rattle.hiera_config.specs.Keeping.{IsKept};
ghost use Rattle.hiera_config.specs.Meant.{MeetsBy, in_turn};
ghost use Rattle.hiera_config.specs.Reached.{reach_default, read_from, or_default};
ghost use Rattle.hiera_config.specs.ReachedFiles.{reached_view, reached_views, IsKeptAt, AreKeptAt};
ghost use Rattle.hiera_config.specs.Seen.{seen};
ghost use Rattle.hiera_config.specs.Sources as spec;

use crate::flags::{mark_of, may_have};
use crate::planned::planned_sources;
use crate::reaching::{Reached, files_by_default, files_reached};
use crate::refused::{Refused, bad_data};
use crate::site_data::{DataFile, SiteData};
use crate::variables::Variables;
use json_values::{DataStop, Numbers, from_data};
use pp_values::{Text, Value};
use serde_json::Value as Json;
use std::alloc::Global;

/// A value of a key, and the path of the document that has it.
pub struct Source {
    pub value: Value,
    pub path: Text,
}

// By hand, so that callers drop a source by one call.
impl Drop for Source {
    fn drop(self) {
        let Source {
            value: _value,
            path: _path,
        } = self;
    }
}

impl Source {
    /// The value, without its path.
    pub fn into_value(self) -> Value
        ensures { result ≡ self.value }
    {
        let Source { value, path: _path } = self;
        value
    }
}

/// The sources of a key, the highest first: of the global layer, of the environment, and of this module, if there is
/// one.
pub fn sources(
    alloc: Global,
    files: &SiteData,
    variables: &Variables<'_>,
    module_name: Option<&str>,
    key: &str,
) -> Result<Vec<Source>, Refused>
    ensures { MeetsBy (λ v. source_views v.items) result
        (spec.sources files.now (seen variables.now) (option_map (λ m. m.now) module_name.entry) key.now) }
{
    if let Some(found) = planned_sources(alloc, files, module_name, key)? {
        return Ok(found);
    }
    let there = files_reached(alloc, files, variables, module_name)?;
    let mut found = Vec::new(alloc);
    add_all(alloc, key, there, &mut found)?;
    add_default(alloc, files, variables, module_name, key, &mut found)?;
    Ok(found)
}

/// The default levels of a module count where no source has the key.
fn add_default(
    alloc: Global,
    files: &SiteData,
    variables: &Variables<'_>,
    module_name: Option<&str>,
    key: &str,
    found: &mut Vec<Source>,
) -> Result<(), Refused>
    ensures { MeetsBy (λ u. source_views found.new.items) result
        (or_default key.now
        (reach_default files.now (seen variables.now) (option_map (λ m. m.now) module_name.entry))
        (source_views found.old.items)) }
{
    if found.is_empty() {
        let there = files_by_default(alloc, files, variables, module_name)?;
        add_all(alloc, key, there, found)
    } else {
        Ok(())
    }
}

/// What these have for the key, up to the first fault.
fn add_all(
    alloc: Global,
    key: &str,
    there: Vec<Reached<'_>>,
    found: &mut Vec<Source>,
) -> Result<(), Refused>
    requires { AreKeptAt there.items }
    ensures { MeetsBy (λ u. source_views found.new.items) result
        (in_turn (read_from key.now) (source_views found.old.items) (reached_views there.entry.items)) }
{
    let mark = mark_of(key);
    for one in there {
        add_one(alloc, key, mark, one, found)?;
    }
    Ok(())
}

fn add_one(
    alloc: Global,
    key: &str,
    mark: usize,
    one: Reached<'_>,
    found: &mut Vec<Source>,
) -> Result<(), Refused>
    requires kept { IsKeptAt one }
    requires mark { mark ≡ mark_of key.now }
    ensures { MeetsBy (λ u. source_views found.new.items) result
        (read_from key.now (source_views found.old.items) (reached_view one.entry)) }
{
    match one {
        Reached::File { path, file } => add_from_file(alloc, key, mark, path, file, found),
        Reached::Broken(what) => Err(Refused::Fault(what)),
    }
}

fn add_from_file(
    alloc: Global,
    key: &str,
    mark: usize,
    path: Text,
    file: &DataFile,
    found: &mut Vec<Source>,
) -> Result<(), Refused>
    requires kept { IsKept path file.now }
    requires mark { mark ≡ mark_of key.now }
    ensures { MeetsBy (λ u. source_views found.new.items) result
        (spec.in_document key.now (source_views found.old.items) path (option_map json_view file.now.json)) }
{
    if may_have(file.flags.as_slice(), mark) {
        add_from_json(alloc, &file.json, key, path, found)
    } else {
        Ok(())
    }
}

fn add_from_json(
    alloc: Global,
    json: &Option<Json>,
    key: &str,
    path: Text,
    found: &mut Vec<Source>,
) -> Result<(), Refused>
    ensures { MeetsBy (λ u. source_views found.new.items) result
        (spec.in_document key.now (source_views found.old.items) path (option_map json_view json.now)) }
{
    match json {
        Some(json) => {
            if json.is_object() {
                add_member(alloc, json.get(key), path, found)
            } else {
                Err(bad_data(alloc, path.as_str()))
            }
        }
        None => Err(bad_data(alloc, path.as_str())),
    }
}

fn add_member(
    alloc: Global,
    json: Option<&Json>,
    path: Text,
    found: &mut Vec<Source>,
) -> Result<(), Refused>
    ensures { MeetsBy (λ u. source_views found.new.items) result
        (spec.in_member (source_views found.old.items) path (option_map (λ j. json_view j.now) json.entry)) }
{
    match json {
        Some(json) => add_value(alloc, json, path, found),
        None => Ok(()),
    }
}

fn add_value(alloc: Global, json: &Json, path: Text, found: &mut Vec<Source>) -> Result<(), Refused>
    ensures { MeetsBy (λ u. source_views found.new.items) result
        (spec.value_or_fault (source_views found.old.items) path (strict (json_view json.now))) }
{
    match from_data(alloc, json, Numbers::Strict) {
        Ok(value) => {
            found.push(Source { value, path })?;
            Ok(())
        }
        Err(DataStop::Number) => Err(bad_data(alloc, path.as_str())),
        Err(DataStop::Memory) => Err(Refused::Memory),
    }
}
