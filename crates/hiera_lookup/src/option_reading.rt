//! The merge that `lookup_options` gives for a key.
ghost use Rattle.std.specs.Prelude.{◌≡◌, IfOk, map, option_map};
ghost use Rattle.std.specs.List.{list_any};
ghost use Rattle.pp_values.specs.Datum.{text};
ghost use Rattle.pp_values.specs.Keys.{same_key as said_key};
ghost use Rattle.pp_values.specs.Views.{view, pair_views};
ghost use Rattle.hiera_config.specs.Meant.{MeetsBy};
ghost use Rattle.hiera_config.specs.Found.{source_views};
ghost use Rattle.hiera_merge.specs.Merges.{pairs_in};
ghost use Rattle.hiera_lookup.specs.Filled.{answer_to, filled, as_key};
ghost use Rattle.hiera_lookup.specs.Looked.{looked_view};
ghost use Rattle.hiera_lookup.specs.Options.{option_in, of_options, bad_options, highest_path, has_options};
ghost use Rattle.hiera_lookup.specs.Options.{options_key};
ghost use Rattle.hiera_lookup.specs.World.{seen};

use crate::answer::Answers;
use crate::filling::{as_key, fill};
use crate::looked::Looked;
use crate::world::World;
use hiera_config::{OPTIONS, Refused, Source, bad_data, sources};
use hiera_merge::{Merge, member, merge_of};
use pp_values::{Memory, Text, Value, same_key};
use std::alloc::Global;

/// The merge for a root key, by the merged options.
pub fn option_in(
    alloc: Global,
    world: &World<'_>,
    of_module: Option<&str>,
    root: &str,
    looked: &Looked,
) -> Result<Merge, Refused>
    ensures { MeetsBy (λ m. m) result
        (option_in (seen world.now) (option_map (λ t. t.now) of_module.entry) root.now (looked_view looked.now)) }
{
    match &looked.value {
        None => Ok(Merge::First),
        Some(table) => of_options(
            alloc,
            world,
            of_module,
            root,
            &looked.answers,
            member(table, root),
        ),
    }
}

fn of_options(
    alloc: Global,
    world: &World<'_>,
    of_module: Option<&str>,
    root: &str,
    answers: &Answers,
    options: Option<&Value>,
) -> Result<Merge, Refused>
    ensures { MeetsBy (λ m. m) result
        (of_options (seen world.now) (option_map (λ t. t.now) of_module.entry) answers.now root.now
        (option_map (λ v. view v.now) options.entry)) }
{
    match options {
        None => Ok(Merge::First),
        Some(options) => match merge_of(options) {
            Some(merge) => Ok(merge),
            None => bad_options(alloc, world, of_module, root, answers),
        },
    }
}

/// The fault of options that are none: it names the highest data file that has options for the key.
fn bad_options(
    alloc: Global,
    world: &World<'_>,
    of_module: Option<&str>,
    root: &str,
    answers: &Answers,
) -> Result<Merge, Refused>
    ensures { MeetsBy (λ m. m) result
        (bad_options (seen world.now) (option_map (λ t. t.now) of_module.entry) answers.now root.now) }
{
    let sources = sources(alloc, world.data, &world.variables, of_module, OPTIONS)?;
    let path = highest_path(alloc, world, root, answers, &sources)?;
    Err(bad_data(alloc, path))
}

fn highest_path<'s>(
    alloc: Global,
    world: &World<'_>,
    root: &str,
    answers: &Answers,
    sources: &'s [Source],
) -> Result<&'s str, Memory>
    ensures { IfOk result (λ p. p.now ≡ highest_path (seen world.now) answers.now root.now (source_views sources.now)) }
{
    let key = Value::Text(Text::from_str(alloc, root)?);
    for source in sources {
        if has_options(alloc, world, answers, &key, &source.value)? {
            return Ok(source.path.as_str());
        }
    }
    Ok("")
}

fn has_options(
    alloc: Global,
    world: &World<'_>,
    answers: &Answers,
    key: &Value,
    table: &Value,
) -> Result<bool, Memory>
    ensures { IfOk result (λ b. b ≡ list_any
        (λ p. said_key (view key.now) (as_key (filled ((seen world.now).reads) (answer_to answers.now) p.0)))
        (pairs_in (view table.now))) }
{
    match table {
        Value::Hash(pairs) => has_key(alloc, world, answers, key, pairs.as_slice()),
        _ => Ok(false),
    }
}

fn has_key(
    alloc: Global,
    world: &World<'_>,
    answers: &Answers,
    key: &Value,
    pairs: &[(Value, Value)],
) -> Result<bool, Memory>
    ensures { IfOk result (λ b. b ≡ list_any
        (λ p. said_key (view key.now) (as_key (filled ((seen world.now).reads) (answer_to answers.now) p.0)))
        (pair_views pairs.now)) }
{
    for (other, _value) in pairs {
        if is_filled_to(alloc, world, answers, key, other)? {
            return Ok(true);
        }
    }
    Ok(false)
}

/// Whether a key of a table, once it is filled in, is this one.
fn is_filled_to(
    alloc: Global,
    world: &World<'_>,
    answers: &Answers,
    key: &Value,
    other: &Value,
) -> Result<bool, Memory>
    ensures { IfOk result (λ b. b
        ≡ said_key (view key.now) (as_key (filled ((seen world.now).reads) (answer_to answers.now) (view other.now)))) }
{
    let other = fill(alloc, world, answers, other)?;
    let other = as_key(alloc, &other)?;
    Ok(same_key(key, &other))
}
