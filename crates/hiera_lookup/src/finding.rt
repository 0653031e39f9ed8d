//! What the sources have for a key.
ghost use Rattle.std.specs.Prelude.{◌≡◌, ◌<◌, ◌∷◌, IfOk, map, option_map, option_and_then, vec_len};
ghost use Rattle.pp_values.specs.Views.{view, views};
ghost use Rattle.hiera_config.specs.Meant.{MeetsBy};
ghost use Rattle.hiera_config.specs.Found.{source_views};
ghost use Rattle.hiera_merge.specs.Digging.{dug};
ghost use Rattle.hiera_merge.specs.Merges.{merged};
ghost use Rattle.hiera_lookup.specs.Found.{found, found_in, dug_or_refused, root_of, steps_of};
ghost use Rattle.hiera_lookup.specs.World.{seen};

use crate::refusals::mismatch_at;
use crate::world::World;
use hiera_config::{Refused, Source, highest_value, sources};
use hiera_merge::{Merge, dig, merged, parts, root, steps};
use pp_values::{Memory, Value, copy};
use std::alloc::Global;

/// The values of the key's root in the layers, those of the module too where one is given, merged, and dug by the
/// key's steps.
pub fn find_value(
    alloc: Global,
    world: &World<'_>,
    of_module: Option<&str>,
    key: &str,
    merge: Merge,
) -> Result<Option<Value>, Refused>
    ensures { MeetsBy (option_map view) result
        (found (seen world.now) (option_map (λ t. t.now) of_module.entry) key.now merge) }
{
    let parts = parts(alloc, key)?;
    let root_key = root(&parts);
    match merge {
        Merge::First => {
            let value = highest_value(alloc, world.data, &world.variables, of_module, root_key)?;
            Ok(part_if(alloc, value, steps(&parts))?)
        }
        _ => {
            let sources = sources(alloc, world.data, &world.variables, of_module, root_key)?;
            found_in(alloc, key, steps(&parts), merge, sources)
        }
    }
}

fn found_in(
    alloc: Global,
    key: &str,
    steps: &[&str],
    merge: Merge,
    sources: Vec<Source>,
) -> Result<Option<Value>, Refused>
    requires { map (λ x. x.now) steps.now ≡ steps_of key.now }
    ensures { MeetsBy (option_map view) result (found_in key.now merge (source_views sources.items)) }
{
    let mut values = into_values(alloc, sources)?;
    if values.is_empty() {
        return Ok(None);
    }
    let high = take_first(&mut values);
    found_among(alloc, key, steps, merge, high, values)
}

fn found_among(
    alloc: Global,
    key: &str,
    steps: &[&str],
    merge: Merge,
    high: Value,
    lower: Vec<Value>,
) -> Result<Option<Value>, Refused>
    requires { map (λ x. x.now) steps.now ≡ steps_of key.now }
    ensures { MeetsBy (option_map view) result (dug_or_refused key.now (merged merge (view high) (views lower.items))) }
{
    match merged(alloc, merge, high, lower)? {
        Some(value) => Ok(part(alloc, value, steps)?),
        None => Err(mismatch_at(alloc, key)),
    }
}

/// The values without their paths.
fn into_values(alloc: Global, sources: Vec<Source>) -> Result<Vec<Value>, Memory>
    ensures { IfOk result (λ v. views v.items ≡ map (λ s. view s.value) sources.items) }
{
    let mut values = Vec::with_capacity(alloc, sources.len())?;
    for source in sources {
        values.push(source.into_value())?;
    }
    Ok(values)
}

fn take_first(values: &mut Vec<Value>) -> Value
    requires { 0 < vec_len values.old }
    ensures { views values.old.items ≡ view result ∷ views values.new.items }
{
    values.remove(0)
}

/// What the steps lead to. Without steps that is the value itself, and nothing is copied.
fn part(alloc: Global, value: Value, steps: &[&str]) -> Result<Option<Value>, Memory>
    ensures { IfOk result (λ o. option_map view o ≡ dug (map (λ x. x.now) steps.now) (view value)) }
{
    if steps.is_empty() {
        return Ok(Some(value));
    }
    copy_option(alloc, dig(&value, steps))
}

fn part_if(alloc: Global, value: Option<Value>, steps: &[&str]) -> Result<Option<Value>, Memory>
    ensures { IfOk result (λ o. option_map view o
        ≡ option_and_then (dug (map (λ x. x.now) steps.now)) (option_map view value)) }
{
    match value {
        Some(value) => part(alloc, value, steps),
        None => Ok(None),
    }
}

fn copy_option(alloc: Global, value: Option<&Value>) -> Result<Option<Value>, Memory>
    ensures { IfOk result (λ o. option_map view o ≡ option_map (λ v. view v.now) value.entry) }
{
    match value {
        Some(value) => Ok(Some(copy(alloc, value)?)),
        None => Ok(None),
    }
}

/// The root of a dotted key: what stands before its first dot.
pub fn root_of<'a>(alloc: Global, key: &'a str) -> Result<&'a str, Memory>
    ensures { IfOk result (λ r. r.now ≡ root_of key.now) }
{
    let parts = parts(alloc, key)?;
    Ok(root(&parts))
}
