//! The files that the levels of a node come to, whatever the key.
ghost use Rattle.std.specs.Prelude.{◌≡◌, IfOk, OnOk, option_map};
ghost use Rattle.pp_values.specs.Views.{view, views};
ghost use Rattle.hiera_config.specs.Documents.{text_at};
ghost use Rattle.hiera_config.specs.Found.{shown_config};
ghost use Rattle.hiera_config.specs.Meant.{MeetsBy};
ghost use Rattle.hiera_config.specs.Planning.{Fits, Planned, PlannedAt, slot_at, PathIs};
ghost use Rattle.hiera_config.specs.Reached as come;
ghost use Rattle.hiera_config.specs.ReachedFiles.{Adds, AddsBroken, Comes};
ghost use Rattle.hiera_config.specs.Seen.{seen, names_seen};
ghost use Rattle.hiera_config.specs.Sources as spec;
ghost use Rattle.hiera_config.specs.Variables.{variable as variable_of, mapped_values, hiding};

use crate::config::{Config, Level, LevelPaths};
use crate::folders::{PATH_ROOM, config_path, module_folder};
use crate::mapping::mapped_values;
use crate::names::Names;
use crate::paths::write_path;
use crate::plan::FixedFile;
use crate::refused::{Refused, bad_data};
use crate::site_data::{DataFile, SiteData};
use crate::template::Template;
use crate::variables::Variables;
use pp_values::{Memory, Text, Value, What};
use sqlite_items::Boxed;
use std::alloc::Global;

/// What a level comes to.
#[derive(Drop)]
pub enum Reached<'a> {
    /// A file that stands at this path.
    File { path: Text, file: &'a DataFile },
    /// No path, or no levels: a text or a configuration is faulty.
    Broken(Boxed<What>),
}

/// A path for each value that a name stands for.
#[derive(Clone, Copy)]
struct MappedPath<'a> {
    level: &'a Level,
    name: &'a Text,
    template: &'a Template,
}

/// What the levels of the global layer, of the environment and of this module come to, if there is one, the highest
/// first. Behind a fault the others follow.
pub fn files_reached<'a>(
    alloc: Global,
    files: &'a SiteData,
    variables: &Variables<'_>,
    module_name: Option<&str>,
) -> Result<Vec<Reached<'a>>, Memory>
    ensures { IfOk result (λ v. Comes
        (come.reach files.now (seen variables.now) (option_map (λ m. m.now) module_name.entry)) v.items) }
{
    let mut found = Vec::new(alloc);
    let mut path = String::with_capacity(alloc, PATH_ROOM)?;
    let plan = files.global_plan();
    add_layer(
        alloc, files, variables, "global/", plan, &mut path, &mut found,
    )?;
    let plan = files.environment_plan();
    add_layer(alloc, files, variables, "", plan, &mut path, &mut found)?;
    add_module(alloc, files, variables, module_name, &mut path, &mut found)?;
    Ok(found)
}

/// What the default levels of this module come to.
pub fn files_by_default<'a>(
    alloc: Global,
    files: &'a SiteData,
    variables: &Variables<'_>,
    module_name: Option<&str>,
) -> Result<Vec<Reached<'a>>, Memory>
    ensures { IfOk result (λ v. Comes
        (come.reach_default files.now (seen variables.now) (option_map (λ m. m.now) module_name.entry)) v.items) }
{
    let mut found = Vec::new(alloc);
    if let Some(name) = module_name {
        let mut path = String::with_capacity(alloc, PATH_ROOM)?;
        add_default(alloc, files, variables, name, &mut path, &mut found)?;
    }
    Ok(found)
}

fn add_default<'a>(
    alloc: Global,
    files: &'a SiteData,
    variables: &Variables<'_>,
    name: &str,
    path: &mut String,
    found: &mut Vec<Reached<'a>>,
) -> Result<(), Memory>
    ensures { OnOk result (Adds
        (come.in_default files.now (seen variables.now) (spec.module_folder name.now)) found.old.items found.new.items) }
{
    let folder = module_folder(alloc, name, path)?;
    let folder = folder.as_str();
    match config_in(alloc, files, folder, path) {
        Ok(config) => {
            let levels = default_levels_of(config);
            add_levels(alloc, files, variables, folder, levels, &[], path, found)
        }
        Err(refused) => add_broken(refused, found),
    }
}

fn add_module<'a>(
    alloc: Global,
    files: &'a SiteData,
    variables: &Variables<'_>,
    name: Option<&str>,
    path: &mut String,
    found: &mut Vec<Reached<'a>>,
) -> Result<(), Memory>
    ensures { OnOk result (Adds
        (come.in_module files.now (seen variables.now) (option_map (λ n. n.now) name.entry)) found.old.items
        found.new.items) }
{
    match name {
        Some(name) => {
            let folder = module_folder(alloc, name, path)?;
            add_layer(alloc, files, variables, folder.as_str(), &[], path, found)
        }
        None => Ok(()),
    }
}

/// What the levels of a folder's configuration come to.
fn add_layer<'a>(
    alloc: Global,
    files: &'a SiteData,
    variables: &Variables<'_>,
    folder: &str,
    plan: &[Option<FixedFile>],
    path: &mut String,
    found: &mut Vec<Reached<'a>>,
) -> Result<(), Memory>
    requires { PlannedAt files.now folder.now plan.now }
    ensures { OnOk result (Adds (come.in_layer files.now (seen variables.now) folder.now) found.old.items
        found.new.items) }
{
    match config_in(alloc, files, folder, path) {
        Ok(config) => {
            let levels = levels_of(config);
            add_levels(alloc, files, variables, folder, levels, plan, path, found)
        }
        Err(refused) => add_broken(refused, found),
    }
}

fn add_broken<'a>(refused: Refused, found: &mut Vec<Reached<'a>>) -> Result<(), Memory>
    ensures { OnOk result (AddsBroken refused found.old.items found.new.items) }
{
    match refused {
        Refused::Fault(what) => {
            found.push(Reached::Broken(what))?;
            Ok(())
        }
        Refused::Memory => Err(Memory),
    }
}

fn levels_of<'a>(config: Option<&'a Config>) -> &'a [Level]
    ensures { result.now ≡ (shown_config config.entry).levels }
{
    match config {
        Some(config) => config.levels.as_slice(),
        None => &[],
    }
}

fn default_levels_of<'a>(config: Option<&'a Config>) -> &'a [Level]
    ensures { result.now ≡ (shown_config config.entry).default_levels }
{
    match config {
        Some(config) => config.default_levels.as_slice(),
        None => &[],
    }
}

/// The configuration of a folder, if there is one. Its path is written by way of `path`.
fn config_in<'a>(
    alloc: Global,
    files: &'a SiteData,
    folder: &str,
    path: &mut String,
) -> Result<Option<&'a Config>, Refused>
    ensures { MeetsBy shown_config result
        (spec.config_in files.now folder.now) }
{
    let path = config_path(alloc, folder, path)?;
    match files.get(&path) {
        Some(file) => match &file.config {
            Some(config) => Ok(Some(config)),
            None => Err(bad_data(alloc, path.as_str())),
        },
        None => Ok(None),
    }
}

fn add_levels<'a>(
    alloc: Global,
    files: &'a SiteData,
    variables: &Variables<'_>,
    folder: &str,
    levels: &[Level],
    plan: &[Option<FixedFile>],
    path: &mut String,
    found: &mut Vec<Reached<'a>>,
) -> Result<(), Memory>
    requires { Planned files.now folder.now levels.now plan.now }
    ensures { OnOk result (Adds (come.in_levels files.now (seen variables.now) folder.now levels.now) found.old.items
        found.new.items) }
{
    for (i, level) in levels.iter().enumerate() {
        let fixed = fixed_at(plan, i);
        add_planned(alloc, files, variables, folder, level, fixed, path, found)?;
    }
    Ok(())
}

fn fixed_at(plan: &[Option<FixedFile>], place: usize) -> Option<&FixedFile>
    ensures { option_map (λ f. f.now) result ≡ slot_at plan.now place }
{
    match plan.get(place) {
        Some(slot) => slot.as_ref(),
        None => None,
    }
}

/// What the level comes to. A fixed file is its only one.
fn add_planned<'a>(
    alloc: Global,
    files: &'a SiteData,
    variables: &Variables<'_>,
    folder: &str,
    level: &Level,
    fixed: Option<&FixedFile>,
    path: &mut String,
    found: &mut Vec<Reached<'a>>,
) -> Result<(), Memory>
    requires { Fits files.now folder.now level.now (option_map (λ f. f.now) fixed) }
    ensures { OnOk result (Adds (come.in_level files.now (seen variables.now) folder.now level.now) found.old.items
        found.new.items) }
{
    match fixed {
        Some(fixed) => add_fixed(alloc, files, &fixed.path, found),
        None => add_level(alloc, files, variables, folder, level, path, found),
    }
}

fn add_fixed<'a>(
    alloc: Global,
    files: &'a SiteData,
    path: &Text,
    found: &mut Vec<Reached<'a>>,
) -> Result<(), Memory>
    ensures { OnOk result (Adds (come.file_at files.now path.now) found.old.items found.new.items) }
{
    let path = path.copy(alloc)?;
    add_file(files, path, found)
}

fn add_level<'a>(
    alloc: Global,
    files: &'a SiteData,
    variables: &Variables<'_>,
    folder: &str,
    level: &Level,
    path: &mut String,
    found: &mut Vec<Reached<'a>>,
) -> Result<(), Memory>
    ensures { OnOk result (Adds (come.in_level files.now (seen variables.now) folder.now level.now) found.old.items
        found.new.items) }
{
    match &level.paths {
        LevelPaths::Templates(templates) => {
            let templates = templates.as_slice();
            add_templates(
                alloc, files, variables, folder, level, templates, path, found,
            )
        }
        LevelPaths::Mapped {
            variable,
            name,
            template,
        } => {
            let mapped = MappedPath {
                level,
                name,
                template,
            };
            let variable = variable.as_str();
            add_mapped(
                alloc, files, variables, folder, &mapped, variable, path, found,
            )
        }
    }
}

fn add_templates<'a>(
    alloc: Global,
    files: &'a SiteData,
    variables: &Variables<'_>,
    folder: &str,
    level: &Level,
    templates: &[Template],
    path: &mut String,
    found: &mut Vec<Reached<'a>>,
) -> Result<(), Memory>
    ensures { OnOk result (Adds (come.in_templates files.now folder.now level.now (seen variables.now) templates.now)
        found.old.items found.new.items) }
{
    let names = Names::plain(variables);
    for template in templates {
        add_template(alloc, files, &names, folder, level, template, path, found)?;
    }
    Ok(())
}

/// A path for each value of the variable.
fn add_mapped<'a>(
    alloc: Global,
    files: &'a SiteData,
    variables: &Variables<'_>,
    folder: &str,
    mapped: &MappedPath<'_>,
    variable: &str,
    path: &mut String,
    found: &mut Vec<Reached<'a>>,
) -> Result<(), Memory>
    ensures { OnOk result (Adds (come.in_mapped files.now folder.now mapped.now.level.now (seen variables.now)
        mapped.now.name.now mapped.now.template.now (mapped_values (variable_of (seen variables.now) variable.now)))
        found.old.items found.new.items) }
{
    let values = mapped_values(alloc, variables.value(alloc, variable)?)?;
    let values = values.as_slice();
    add_for_values(alloc, files, variables, folder, mapped, values, path, found)
}

fn add_for_values<'a>(
    alloc: Global,
    files: &'a SiteData,
    variables: &Variables<'_>,
    folder: &str,
    mapped: &MappedPath<'_>,
    values: &[Value],
    path: &mut String,
    found: &mut Vec<Reached<'a>>,
) -> Result<(), Memory>
    ensures { OnOk result (Adds (come.in_mapped files.now folder.now mapped.now.level.now (seen variables.now)
        mapped.now.name.now mapped.now.template.now (views values.now)) found.old.items found.new.items) }
{
    for value in values {
        add_for_value(alloc, files, variables, folder, mapped, value, path, found)?;
    }
    Ok(())
}

/// The name stands for this value.
fn add_for_value<'a>(
    alloc: Global,
    files: &'a SiteData,
    variables: &Variables<'_>,
    folder: &str,
    mapped: &MappedPath<'_>,
    value: &Value,
    path: &mut String,
    found: &mut Vec<Reached<'a>>,
) -> Result<(), Memory>
    ensures { OnOk result (Adds (come.in_template files.now folder.now mapped.now.level.now
        (hiding mapped.now.name.now (view value.now) (seen variables.now)) mapped.now.template.now)
        found.old.items found.new.items) }
{
    let names = Names::hiding(variables, mapped.name, value);
    let level = mapped.level;
    add_template(
        alloc,
        files,
        &names,
        folder,
        level,
        mapped.template,
        path,
        found,
    )
}

fn add_template<'a>(
    alloc: Global,
    files: &'a SiteData,
    names: &Names<'_>,
    folder: &str,
    level: &Level,
    template: &Template,
    path: &mut String,
    found: &mut Vec<Reached<'a>>,
) -> Result<(), Memory>
    ensures { OnOk result (Adds (come.in_template files.now folder.now level.now (names_seen names.now) template.now)
        found.old.items found.new.items) }
{
    match write_path(alloc, names, folder, level, template, path) {
        Ok(()) => add_file(files, Text::from_str(alloc, path.as_str())?, found),
        Err(refused) => add_broken(refused, found),
    }
}

/// Where there is no file at the path, nothing.
fn add_file<'a>(files: &'a SiteData, path: Text, found: &mut Vec<Reached<'a>>) -> Result<(), Memory>
    ensures { OnOk result (Adds (come.file_at files.now path) found.old.items found.new.items) }
{
    if let Some(file) = files.get(&path) {
        found.push(Reached::File { path, file })?;
    }
    Ok(())
}
