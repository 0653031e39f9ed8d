//! The options of look-ups for one key.
ghost use Rattle.std.specs.Prelude.{◌≡◌, IfOk, IfSome, option_map};
ghost use Rattle.pp_values.specs.Views.{view};
ghost use Rattle.serde_json.specs.View.{view as json_view};
ghost use Rattle.hiera_config.specs.FileOptions.{KeepsFile, are_plain, options_in, options_key};
ghost use Rattle.hiera_config.specs.OptionTables.{KeepsOptions, option_by, over, told_all, told_if, told_one, told_or};
ghost use Rattle.hiera_config.specs.OptionTables.{told_view};
ghost use Rattle.hiera_config.specs.Reached.{reach_default};
ghost use Rattle.hiera_config.specs.ReachedFiles.{reached_view, reached_views, IsKeptAt, AreKeptAt};
ghost use Rattle.hiera_config.specs.Seen.{seen};
ghost use Rattle.hiera_config.specs.Sound.{LacksConfig, or_else};
ghost use Rattle.hiera_config.specs.Sources.{sources};

use crate::highest::lacks_config;
use crate::option_table::OptionTable;
use crate::reaching::{Reached, files_by_default, files_reached};
use crate::site_data::{DataFile, SiteData};
use crate::variables::Variables;
use pp_values::{Memory, Text, Value};
use std::alloc::Global;

/// What some files tell: whether they have options, and what these have for a key.
#[derive(Clone, Copy)]
struct Told<'a> {
    has_options: bool,
    option: Option<&'a Value>,
}

/// What the options have for this key, if they have anything, where their sources are told, and are hashes in which
/// nothing is interpolated. None where it is not so.
pub fn option_of<'a>(
    alloc: Global,
    files: &'a SiteData,
    variables: &Variables<'_>,
    module_name: Option<&str>,
    root: &str,
) -> Result<Option<Option<&'a Value>>, Memory>
    ensures { IfOk result (λ o. option_map (option_map (λ v. view v.now)) o ≡ option_by root.now
        (sources files.now (seen variables.now) (option_map (λ m. m.now) module_name.entry) options_key)) }
{
    let key = Text::from_str(alloc, root)?;
    match joined_for(alloc, files, module_name) {
        Some(table) => Ok(Some(table.get(&key))),
        None => option_in_files(alloc, files, variables, module_name, &key),
    }
}

/// The options that were read for the site, where they are those of this module.
fn joined_for<'a>(
    alloc: Global,
    files: &'a SiteData,
    module_name: Option<&str>,
) -> Option<&'a OptionTable>
    ensures table { IfSome result (λ t. KeepsOptions files.now t.now) }
    ensures module { IfSome result (λ t. LacksConfig files.now (option_map (λ m. m.now) module_name.entry)) }
{
    match files.options() {
        Some(table) => {
            if lacks_config(alloc, files, module_name) {
                Some(table)
            } else {
                None
            }
        }
        None => None,
    }
}

/// By a look into each file.
fn option_in_files<'a>(
    alloc: Global,
    files: &'a SiteData,
    variables: &Variables<'_>,
    module_name: Option<&str>,
    key: &Text,
) -> Result<Option<Option<&'a Value>>, Memory>
    ensures { IfOk result (λ o. option_map (option_map (λ v. view v.now)) o ≡ option_by key.now
        (sources files.now (seen variables.now) (option_map (λ m. m.now) module_name.entry) options_key)) }
{
    let there = files_reached(alloc, files, variables, module_name)?;
    match told_all(there.as_slice(), key) {
        Some(told) if told.has_options => Ok(Some(told.option)),
        Some(_) => option_by_default(alloc, files, variables, module_name, key),
        None => Ok(None),
    }
}

/// The default levels of a module count where nothing else has options.
fn option_by_default<'a>(
    alloc: Global,
    files: &'a SiteData,
    variables: &Variables<'_>,
    module_name: Option<&str>,
    key: &Text,
) -> Result<Option<Option<&'a Value>>, Memory>
    ensures { IfOk result (λ o. option_map (option_map (λ v. view v.now)) o ≡ option_map (λ t. t.1)
        (told_all key.now (reach_default files.now (seen variables.now) (option_map (λ m. m.now) module_name.entry)))) }
{
    let there = files_by_default(alloc, files, variables, module_name)?;
    match told_all(there.as_slice(), key) {
        Some(told) => Ok(Some(told.option)),
        None => Ok(None),
    }
}

fn told_all<'a>(there: &[Reached<'a>], key: &Text) -> Option<Told<'a>>
    requires { AreKeptAt there.now }
    ensures { option_map told_view result ≡ told_all key.now (reached_views there.now) }
{
    let mut told = Told {
        has_options: false,
        option: None,
    };
    for one in there {
        match told_one(one, key) {
            Some(more) => told = over(told, more),
            None => return None,
        }
    }
    Some(told)
}

/// What the higher one says counts.
fn over<'a>(high: Told<'a>, low: Told<'a>) -> Told<'a>
    ensures { told_view result ≡ over (told_view high.entry) (told_view low.entry) }
{
    Told {
        has_options: high.has_options || low.has_options,
        option: or_else(high.option, low.option),
    }
}

fn or_else<'a>(high: Option<&'a Value>, low: Option<&'a Value>) -> Option<&'a Value>
    ensures { option_map (λ v. view v.now) result
        ≡ or_else (option_map (λ v. view v.now) high.entry) (option_map (λ v. view v.now) low.entry) }
{
    match high {
        Some(value) => Some(value),
        None => low,
    }
}

fn told_one<'a>(one: &Reached<'a>, key: &Text) -> Option<Told<'a>>
    requires { IsKeptAt one.now }
    ensures { option_map told_view result ≡ told_one key.now (reached_view one.now) }
{
    match one {
        Reached::File { path: _, file } => told_by(file, key),
        Reached::Broken(_) => None,
    }
}

fn told_by<'a>(file: &'a DataFile, key: &Text) -> Option<Told<'a>>
    requires { KeepsFile (option_map json_view file.now.json) file.now.options }
    ensures { option_map told_view result ≡ told_if key.now (are_plain (option_map json_view file.now.json))
        (options_in (option_map json_view file.now.json)) }
{
    if !file.options.are_plain {
        return None;
    }
    match &file.options.table {
        Some(table) => Some(Told {
            has_options: true,
            option: table.get(key),
        }),
        None => Some(Told {
            has_options: false,
            option: None,
        }),
    }
}
