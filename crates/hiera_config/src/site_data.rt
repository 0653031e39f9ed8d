//! The files of a site's data.
ghost use Rattle.std.specs.Prelude.{◌≡◌, [], is_ok, if◌then◌else◌, IfOk, IfSome, option_map};
ghost use Rattle.std.specs.Prelude.{option_and_then};
ghost use Rattle.std.specs.FinMap.{find, put};
ghost use Rattle.pp_values.specs.Rising.{text_cmp};
ghost use Rattle.hiera_config.specs.Config.{config_of};
ghost use Rattle.hiera_config.specs.Documents.{is_of_module, put_in};
ghost use Rattle.hiera_config.specs.Keeping.{filed, IsKept};
ghost use Rattle.hiera_config.specs.OptionTables.{KeepsOptions};
ghost use Rattle.hiera_config.specs.Planning.{PlannedAt};
ghost use Rattle.hiera_config.specs.Sound.{SoundLayers};
ghost use Rattle.hiera_config.specs.Sources.{global_folder};
ghost use Rattle.serde_json.specs.View.{view as json_view};

use crate::config::Config;
use crate::config_reading::{config_of, parsed};
use crate::file_options::{FileOptions, options_of};
use crate::flags::flags_of;
use crate::option_table::{OptionTable, options_in};
use crate::plan::{FixedFile, Plan, file_at, plan_at};
use crate::soundness::{are_sound_layers, is_sound_document};
use pp_values::{Memory, Text, TextPairs, copy_text_pairs};
use serde_json::Value as Json;
use std::alloc::Global;
use std::collections::BTreeMap;
use std::marker::Model;

/// A file of data: its text, the JSON that it is, and the configuration, where it is one.
pub struct DataFile {
    pub text: Text,
    pub json: Option<Json>,
    pub config: Option<Config>,
    /// By which keys are told that the file surely lacks.
    pub flags: Vec<bool>,
    /// No key's value is faulty in it.
    pub is_sound: bool,
    pub options: FileOptions,
}

// By hand, so that callers drop a file by one call.
impl Drop for DataFile {
    fn drop(self) {
        let DataFile {
            text: _text,
            json: _json,
            config: _config,
            flags: _flags,
            is_sound: _is_sound,
            options: _options,
        } = self;
    }
}

/// The files of a site's data, by path in byte order, each read once. A contract sees their paths and texts.
#[derive(Drop)]
pub struct SiteData {
    by_path: BTreeMap<Text, DataFile>,
    // The data files of the global layer and of the environment that are found ahead, once the files are read.
    global: Plan,
    environment: Plan,
    // Both layers have a sound file for each of their levels.
    is_sound: bool,
    // The options of look-ups, where the sound files tell them.
    options: Option<OptionTable>,
}

impl Model for SiteData {
    ghost use Rattle.std.specs.Prelude.{◌≡◌, true, List, IfSome};
    ghost use Rattle.hiera_config.specs.Documents.{File};
    ghost use Rattle.hiera_config.specs.Keeping.{filed, AreKept};
    ghost use Rattle.hiera_config.specs.OptionTables.{KeepsOptions};
    ghost use Rattle.hiera_config.specs.Planning.{ArePlanned};
    ghost use Rattle.hiera_config.specs.Sound.{SoundLayers};

    ghost Value = { List File };

    ghost view = { λ s. filed s.by_path.entries };

    ghost invariant = { λ s. AreKept s.by_path.entries
        × ArePlanned (filed s.by_path.entries) s.global.items s.environment.items
        × (s.is_sound ≡ true → SoundLayers (filed s.by_path.entries) s.global.items s.environment.items)
        × IfSome s.options (λ t. KeepsOptions (filed s.by_path.entries) t) };
}

impl SiteData {
    pub fn new(alloc: Global) -> SiteData
        ensures { result ≡ [] }
    {
        SiteData {
            by_path: BTreeMap::new(alloc),
            global: Vec::new(alloc),
            environment: Vec::new(alloc),
            is_sound: false,
            options: None,
        }
    }

    /// Reads a file, and puts it in place of what stood at its path. Where there is no memory, the files stay as they
    /// were. What `plan` found ahead is let go.
    pub fn read(&mut self, alloc: Global, path: Text, text: Text) -> Result<(), Memory>
        ensures { self.new ≡ (if is_ok result then put text_cmp path text self.old else self.old) }
    {
        let file = read_file(alloc, path.as_str(), text)?;
        drop(self.by_path.insert(path, file)?);
        self.global = Vec::new(alloc);
        self.environment = Vec::new(alloc);
        self.is_sound = false;
        self.options = None;
        Ok(())
    }

    /// Finds the data files of the global layer and of the environment ahead, and reads the options of look-ups. It
    /// must be called once all files are read, for speed: without it look-ups tell the same, but write the paths of all
    /// levels, and read all their files and all options.
    pub fn plan(&mut self, alloc: Global) -> Result<(), Memory>
        ensures { self.new ≡ self.old }
    {
        self.plan_layers(alloc)?;
        let options = options_in(alloc, self)?;
        self.options = options;
        Ok(())
    }

    fn plan_layers(&mut self, alloc: Global) -> Result<(), Memory>
        ensures { self.new ≡ self.old }
    {
        let global = plan_at(alloc, &self.by_path, "global/")?;
        let environment = plan_at(alloc, &self.by_path, "")?;
        self.is_sound = are_sound_layers(alloc, &self.by_path, &global, &environment)?;
        self.global = global;
        self.environment = environment;
        Ok(())
    }

    /// The file at this path.
    pub fn get(&self, path: &Text) -> Option<&DataFile>
        ensures text { option_map (λ f. f.now.text) result ≡ find text_cmp path.now self.now }
        ensures kept { IfSome result (λ f. IsKept path.now f.now) }
    {
        file_at(&self.by_path, path)
    }

    /// The plan of the global layer.
    pub fn global_plan(&self) -> &[Option<FixedFile>]
        ensures { PlannedAt self.now global_folder result.now }
    {
        self.global.as_slice()
    }

    /// The plan of the environment.
    pub fn environment_plan(&self) -> &[Option<FixedFile>]
        ensures { PlannedAt self.now [] result.now }
    {
        self.environment.as_slice()
    }

    /// The plans of the global layer and of the environment, where each of their levels has a file in them, and no
    /// key's value is faulty in any.
    pub fn sound_plans(&self) -> Option<(&[Option<FixedFile>], &[Option<FixedFile>])>
        ensures { IfSome result (λ p. SoundLayers self.now p.0.now p.1.now) }
    {
        if self.is_sound {
            Some((self.global.as_slice(), self.environment.as_slice()))
        } else {
            None
        }
    }

    /// The options of look-ups, where the sound plans tell them.
    pub fn options(&self) -> Option<&OptionTable>
        ensures { IfSome result (λ t. KeepsOptions self.now t.now) }
    {
        self.options.as_ref()
    }

    /// All files, by path in byte order.
    pub fn as_map(&self) -> &BTreeMap<Text, DataFile>
        ensures { filed result.now.entries ≡ self.now }
    {
        &self.by_path
    }
}

/// Keeps these files. Each is read here, and the plans are made.
pub fn data_from(alloc: Global, files: &TextPairs) -> Result<SiteData, Memory>
    ensures { IfOk result (λ s. s ≡ put_in [] files.now) }
{
    let mut data = SiteData::new(alloc);
    let mut left = copy_text_pairs(alloc, files)?;
    while let Some((path, text)) = left.pop() {
        data.read(alloc, path, text)?;
    }
    data.plan(alloc)?;
    Ok(data)
}

fn read_file(alloc: Global, path: &str, text: Text) -> Result<DataFile, Memory>
    ensures text { IfOk result (λ f. f.text ≡ text) }
    ensures kept { IfOk result (λ f. IsKept path.now f) }
{
    let json = parsed(alloc, text.as_str())?;
    let flags = flags_of(alloc, &json)?;
    let is_sound = is_sound_document(&json);
    let options = options_of(alloc, &json)?;
    let config = config_if(alloc, is_of_module(path), &json)?;
    Ok(DataFile {
        text,
        json,
        config,
        flags,
        is_sound,
        options,
    })
}

fn config_if(alloc: Global, is_module: bool, json: &Option<Json>) -> Result<Option<Config>, Memory>
    ensures { IfOk result (λ c. c ≡ option_and_then (config_of is_module) (option_map json_view json.now)) }
{
    match json {
        Some(json) => config_of(alloc, is_module, json),
        None => Ok(None),
    }
}

/// Whether a configuration that stands there is a module's.
fn is_of_module(path: &str) -> bool
    ensures { result ≡ is_of_module path.now }
{
    path.starts_with("modules/")
}
