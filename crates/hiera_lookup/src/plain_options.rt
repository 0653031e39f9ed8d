//! The merge of a key by its options, where it is plain without all options merged.
ghost use Rattle.std.specs.Prelude.{◌≡◌, IfOk, option_and_then, option_map};
ghost use Rattle.pp_values.specs.Views.{view};
ghost use Rattle.hiera_config.specs.OptionTables.{option_by};
ghost use Rattle.hiera_lookup.specs.Plain.{merge_by, plain_merge};
ghost use Rattle.hiera_lookup.specs.Options.{options_key};
ghost use Rattle.hiera_lookup.specs.World.{seen};

use crate::busy::is_busy;
use crate::world::World;
use hiera_config::{OPTIONS, option_of};
use hiera_merge::{Merge, merge_of};
use pp_values::{Memory, Texts, Value};
use std::alloc::Global;

/// The merge that the options give for a root key, where these interpolate nothing and their look-up may begin. None
/// where this is not so, or they are no options.
pub fn plain_option(
    alloc: Global,
    world: &World<'_>,
    busy: &Texts,
    of_module: Option<&str>,
    root: &str,
    left: u64,
) -> Result<Option<Merge>, Memory>
    ensures { IfOk result (λ o. o
        ≡ plain_merge (seen world.now) left busy.now (option_map (λ t. t.now) of_module.entry) root.now) }
{
    if left == 0 || is_busy(busy, OPTIONS) {
        return Ok(None);
    }
    told_option(alloc, world, of_module, root)
}

fn told_option(
    alloc: Global,
    world: &World<'_>,
    of_module: Option<&str>,
    root: &str,
) -> Result<Option<Merge>, Memory>
    ensures { IfOk result (λ o. o ≡ option_and_then merge_by
        (option_by root.now ((seen world.now).had (option_map (λ t. t.now) of_module.entry) options_key))) }
{
    match option_of(alloc, world.data, &world.variables, of_module, root)? {
        Some(option) => Ok(merge_by(option)),
        None => Ok(None),
    }
}

fn merge_by(option: Option<&Value>) -> Option<Merge>
    ensures { result ≡ merge_by (option_map (λ v. view v.now) option.entry) }
{
    match option {
        Some(option) => merge_of(option),
        None => Some(Merge::First),
    }
}
