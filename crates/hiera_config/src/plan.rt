//! Data files whose paths have no variables, found before any key is looked up.
ghost use Rattle.std.specs.Prelude.{◌≡◌, None, IfOk, IfSome, codes, option_map};
ghost use Rattle.std.specs.FinMap.{find};
ghost use Rattle.pp_values.specs.Rising.{text_cmp};
ghost use Rattle.hiera_config.specs.Config.{one_template};
ghost use Rattle.hiera_config.specs.Cuts.{cut_at};
ghost use Rattle.hiera_config.specs.Keeping.{filed, IsKept, AreKept};
ghost use Rattle.hiera_config.specs.Planning.{lacks, PathIs, Skips, Sounds, Fits, Planned, PlannedIf, PlannedAt};
ghost use Rattle.hiera_config.specs.Sound.{is_sound_if};
ghost use Rattle.hiera_config.specs.Sources.{joined_path};

use crate::config::{Config, Level, LevelPaths};
use crate::flags::may_have;
use crate::folders::config_path;
use crate::site_data::DataFile;
use pp_values::{Memory, Text};
use std::alloc::Global;
use std::collections::BTreeMap;

/// A data file whose path has no variables, with the flags of its keys, or None where no file stands there.
pub struct FixedFile {
    pub path: Text,
    pub flags: Option<Vec<bool>>,
    /// No key's value is faulty in the file.
    pub is_sound: bool,
}

// By hand, so that callers drop it by one call.
impl Drop for FixedFile {
    fn drop(self) {
        let FixedFile {
            path: _path,
            flags: _flags,
            is_sound: _is_sound,
        } = self;
    }
}

impl FixedFile {
    /// Whether the file surely has no key of this mark.
    pub fn lacks(&self, mark: usize) -> bool
        ensures { result ≡ lacks self.now mark }
    {
        match &self.flags {
            Some(flags) => !may_have(flags.as_slice(), mark),
            None => true,
        }
    }
}

/// For each level, from the first one on, its file, where it has one whose path has no variables.
pub type Plan = Vec<Option<FixedFile>>;

/// The plan of the folder's configuration among these files.
pub fn plan_at(
    alloc: Global,
    files: &BTreeMap<Text, DataFile>,
    folder: &str,
) -> Result<Plan, Memory>
    requires { AreKept files.now.entries }
    ensures { IfOk result (λ p. PlannedAt (filed files.now.entries) folder.now p.items) }
{
    let path = config_path(alloc, folder, &mut String::new(alloc))?;
    match file_at(files, &path) {
        Some(file) => plan_of_config(alloc, files, folder, &file.config),
        None => Ok(Vec::new(alloc)),
    }
}

/// The file at this path among those that are kept.
pub fn file_at<'a>(files: &'a BTreeMap<Text, DataFile>, path: &Text) -> Option<&'a DataFile>
    requires { AreKept files.now.entries }
    ensures text { option_map (λ f. f.now.text) result ≡ find text_cmp path.now (filed files.now.entries) }
    ensures kept { IfSome result (λ f. IsKept path.now f.now) }
{
    files.get(path)
}

fn plan_of_config(
    alloc: Global,
    files: &BTreeMap<Text, DataFile>,
    folder: &str,
    config: &Option<Config>,
) -> Result<Plan, Memory>
    requires { AreKept files.now.entries }
    ensures { IfOk result (λ p. PlannedIf (filed files.now.entries) folder.now config.now p.items) }
{
    match config {
        Some(config) => plan_of_levels(alloc, files, folder, config.levels.as_slice()),
        None => Ok(Vec::new(alloc)),
    }
}

fn plan_of_levels(
    alloc: Global,
    files: &BTreeMap<Text, DataFile>,
    folder: &str,
    levels: &[Level],
) -> Result<Plan, Memory>
    requires { AreKept files.now.entries }
    ensures { IfOk result (λ p. Planned (filed files.now.entries) folder.now levels.now p.items) }
{
    let mut plan = Vec::new(alloc);
    for level in levels {
        plan.push(slot_for(alloc, files, folder, level)?)?;
    }
    Ok(plan)
}

fn slot_for(
    alloc: Global,
    files: &BTreeMap<Text, DataFile>,
    folder: &str,
    level: &Level,
) -> Result<Option<FixedFile>, Memory>
    requires { AreKept files.now.entries }
    ensures { IfOk result (λ o. Fits (filed files.now.entries) folder.now level.now o) }
{
    match fixed_path(alloc, folder, level)? {
        Some(path) => Ok(Some(fixed_file(alloc, files, path)?)),
        None => Ok(None),
    }
}

/// The path of the level, where it has one alone, and no variables in it.
fn fixed_path(alloc: Global, folder: &str, level: &Level) -> Result<Option<Text>, Memory>
    ensures { IfOk result (λ o. IfSome o (λ p. PathIs folder.now level.now p)) }
{
    match (level.folder.plain(), sole_template(&level.paths)) {
        (Some(inner), Some(template)) => Ok(Some(join_path(alloc, folder, inner, template)?)),
        _ => Ok(None),
    }
}

/// The level's only template, where no variables stand in it.
fn sole_template(paths: &LevelPaths) -> Option<&str>
    ensures sole { IfSome result (λ t. paths.now ≡ one_template t.now) }
    ensures plain { IfSome result (λ t. None ≡ cut_at (codes "%{") t.now) }
{
    match paths {
        LevelPaths::Templates(templates) => match templates.as_slice() {
            [template] => template.plain(),
            _ => None,
        },
        _ => None,
    }
}

fn join_path(alloc: Global, folder: &str, inner: &str, template: &str) -> Result<Text, Memory>
    ensures { IfOk result (λ t. t ≡ joined_path folder.now inner.now template.now) }
{
    let mut path = String::from_str(alloc, folder)?;
    path.push_str(inner)?;
    path.push_str("/")?;
    path.push_str(template)?;
    Ok(Text::new(path))
}

fn fixed_file(
    alloc: Global,
    files: &BTreeMap<Text, DataFile>,
    path: Text,
) -> Result<FixedFile, Memory>
    requires { AreKept files.now.entries }
    ensures path { IfOk result (λ f. f.path ≡ path) }
    ensures skips { IfOk result (λ f. Skips (filed files.now.entries) path f.flags) }
    ensures sounds { IfOk result (λ f. Sounds (filed files.now.entries) path f.is_sound) }
{
    let is_sound = is_sound_if(file_at(files, &path));
    let flags = flags_at(alloc, file_at(files, &path))?;
    Ok(FixedFile {
        path,
        flags,
        is_sound,
    })
}

/// Whether there is no file, or no key's value is faulty in it.
fn is_sound_if(file: Option<&DataFile>) -> bool
    ensures { result ≡ is_sound_if (option_map (λ f. f.now) file.entry) }
{
    match file {
        Some(file) => file.is_sound,
        None => true,
    }
}

fn flags_at(alloc: Global, file: Option<&DataFile>) -> Result<Option<Vec<bool>>, Memory>
    ensures { IfOk result (λ o. option_map (λ v. v.items) o ≡ option_map (λ f. f.now.flags.items) file.entry) }
{
    match file {
        Some(file) => Ok(Some(copy_flags(alloc, file.flags.as_slice())?)),
        None => Ok(None),
    }
}

fn copy_flags(alloc: Global, flags: &[bool]) -> Result<Vec<bool>, Memory>
    ensures { IfOk result (λ v. v.items ≡ flags.now) }
{
    let mut copy = Vec::new(alloc);
    copy.extend_from_slice(flags)?;
    Ok(copy)
}
