//! The sources of a key, where they are plain from the plans of the layers.
ghost use Rattle.std.specs.Prelude.{◌≡◌, ◌++◌, IfOk, IfSome, OnOk, option_map};
ghost use Rattle.hiera_config.specs.Documents.{text_at};
ghost use Rattle.hiera_config.specs.Flags.{mark_of};
ghost use Rattle.hiera_config.specs.Found.{source_views};
ghost use Rattle.hiera_config.specs.Planning.{Skips};
ghost use Rattle.hiera_config.specs.Sound.{SkipsAll, SoundLayers, SoundSources, AreSources, source_if, had_in_slot};
ghost use Rattle.hiera_config.specs.Sound.{had_in, value_in_text};

use crate::flags::mark_of;
use crate::highest::{sound_plans_for, value_in_file};
use crate::plan::FixedFile;
use crate::searching::Source;
use crate::site_data::SiteData;
use pp_values::Memory;
use std::alloc::Global;

/// The sources of the key, the highest first, where no variable stands in a path, no key's value is faulty, and the
/// module has no configuration. None where this is not so.
pub fn planned_sources(
    alloc: Global,
    files: &SiteData,
    module_name: Option<&str>,
    key: &str,
) -> Result<Option<Vec<Source>>, Memory>
    ensures { IfOk result (λ o. IfSome o (λ v.
        AreSources files.now (option_map (λ m. m.now) module_name.entry) key.now (source_views v.items))) }
{
    let Some((global, environment)) = sound_plans_for(alloc, files, module_name) else {
        return Ok(None);
    };
    Ok(Some(sources_in(alloc, files, global, environment, key)?))
}

/// The same for each module that has no configuration.
pub fn sound_sources(
    alloc: Global,
    files: &SiteData,
    key: &str,
) -> Result<Option<Vec<Source>>, Memory>
    ensures { IfOk result (λ o. IfSome o (λ v. SoundSources files.now key.now (source_views v.items))) }
{
    let Some((global, environment)) = files.sound_plans() else {
        return Ok(None);
    };
    Ok(Some(sources_in(alloc, files, global, environment, key)?))
}

fn sources_in(
    alloc: Global,
    files: &SiteData,
    global: &[Option<FixedFile>],
    environment: &[Option<FixedFile>],
    key: &str,
) -> Result<Vec<Source>, Memory>
    requires { SoundLayers files.now global.now environment.now }
    ensures { IfOk result (λ v. source_views v.items
        ≡ had_in files.now key.now global.now ++ had_in files.now key.now environment.now) }
{
    let mark = mark_of(key);
    let mut found = Vec::with_capacity(alloc, global.len().saturating_add(environment.len()))?;
    add_in_plan(alloc, files, global, key, mark, &mut found)?;
    add_in_plan(alloc, files, environment, key, mark, &mut found)?;
    Ok(found)
}

fn add_in_plan(
    alloc: Global,
    files: &SiteData,
    plan: &[Option<FixedFile>],
    key: &str,
    mark: usize,
    found: &mut Vec<Source>,
) -> Result<(), Memory>
    requires skips { SkipsAll files.now plan.now }
    requires mark { mark ≡ mark_of key.now }
    ensures { OnOk result
        (source_views found.new.items ≡ source_views found.old.items ++ had_in files.now key.now plan.now) }
{
    let mut left = plan;
    while let [slot, after @ ..] = left {
        add_in_slot(alloc, files, slot, key, mark, found)?;
        left = after;
    }
    Ok(())
}

fn add_in_slot(
    alloc: Global,
    files: &SiteData,
    slot: &Option<FixedFile>,
    key: &str,
    mark: usize,
    found: &mut Vec<Source>,
) -> Result<(), Memory>
    requires skips { IfSome slot.now (λ f. Skips files.now f.path f.flags) }
    requires mark { mark ≡ mark_of key.now }
    ensures { OnOk result
        (source_views found.new.items ≡ source_views found.old.items ++ had_in_slot files.now key.now slot.now) }
{
    match slot {
        Some(fixed) => add_in_fixed(alloc, files, fixed, key, mark, found),
        None => Ok(()),
    }
}

fn add_in_fixed(
    alloc: Global,
    files: &SiteData,
    fixed: &FixedFile,
    key: &str,
    mark: usize,
    found: &mut Vec<Source>,
) -> Result<(), Memory>
    requires skips { Skips files.now fixed.now.path fixed.now.flags }
    requires mark { mark ≡ mark_of key.now }
    ensures { OnOk result (source_views found.new.items ≡ source_views found.old.items
        ++ source_if fixed.now.path (value_in_text key.now (text_at fixed.now.path files.now))) }
{
    if let Some(value) = value_in_file(alloc, files, fixed, key, mark)? {
        let path = fixed.path.copy(alloc)?;
        found.push(Source { value, path })?;
    }
    Ok(())
}
