//! Look-ups, and the look-ups within them.
ghost use Rattle.std.specs.Prelude.{◌≡◌, [], option_map};
ghost use Rattle.pp_values.specs.Views.{view};
ghost use Rattle.hiera_config.specs.Meant.{MeetsBy};
ghost use Rattle.hiera_lookup.specs.Look.{answer, answers, interpolated, option_for, merge_for, look_within, look};
ghost use Rattle.hiera_lookup.specs.Looked.{looked_view};
ghost use Rattle.hiera_lookup.specs.World.{seen};

use crate::answer::{Answer, Answers};
use crate::asking::{Ask, add_asks};
use crate::busy::{is_busy, with_key};
use crate::filling::fill;
use crate::finding::{find_value, root_of};
use crate::looked::Looked;
use crate::option_reading::option_in;
use crate::plain_options::plain_option;
use crate::refusals::{loop_at, too_deep};
use crate::world::World;
use hiera_config::{OPTIONS, Refused, bad_interpolation, is_literal, module_of};
use hiera_merge::Merge;
use pp_values::{Texts, Value};
use std::alloc::Global;

/// Looks a key up within the look-ups of the busy keys. `left` is how many look-ups may still begin within one another.
#[cycle(look)]
pub fn look(
    alloc: Global,
    world: &World<'_>,
    busy: &Texts,
    of_module: Option<&str>,
    key: &str,
    merge: Option<Merge>,
    left: u64,
) -> Result<Looked, Refused>
    ensures { MeetsBy looked_view result
        (look (seen world.now) left busy.now (option_map (λ t. t.now) of_module.entry) key.now merge) }
{
    if is_busy(busy, key) {
        return Err(loop_at(alloc, key));
    }
    if left == 0 {
        return Err(too_deep(alloc));
    }
    let busy = with_key(alloc, busy, key)?;
    look_within(alloc, world, &busy, of_module, key, merge, left - 1)
}

#[cycle(look)]
fn look_within(
    alloc: Global,
    world: &World<'_>,
    busy: &Texts,
    of_module: Option<&str>,
    key: &str,
    merge: Option<Merge>,
    left: u64,
) -> Result<Looked, Refused>
    ensures { MeetsBy looked_view result
        (look_within (seen world.now) (look (seen world.now) left) busy.now
        (option_map (λ t. t.now) of_module.entry) key.now merge) }
{
    let merge = merge_for(alloc, world, busy, of_module, key, merge, left)?;
    let value = find_value(alloc, world, of_module, key, merge)?;
    interpolated(alloc, world, busy, value, left)
}

#[cycle(look)]
fn merge_for(
    alloc: Global,
    world: &World<'_>,
    busy: &Texts,
    of_module: Option<&str>,
    key: &str,
    merge: Option<Merge>,
    left: u64,
) -> Result<Merge, Refused>
    ensures { MeetsBy (λ m. m) result
        (merge_for (seen world.now) (look (seen world.now) left) busy.now
        (option_map (λ t. t.now) of_module.entry) key.now merge) }
{
    match merge {
        Some(merge) => Ok(merge),
        None => {
            let root = root_of(alloc, key)?;
            option_for(alloc, world, busy, of_module, root, left)
        }
    }
}

/// Most options are plain, and are not looked up whole for one key.
#[cycle(look)]
fn option_for(
    alloc: Global,
    world: &World<'_>,
    busy: &Texts,
    of_module: Option<&str>,
    root: &str,
    left: u64,
) -> Result<Merge, Refused>
    ensures { MeetsBy (λ m. m) result
        (option_for (seen world.now) (look (seen world.now) left) busy.now
        (option_map (λ t. t.now) of_module.entry) root.now) }
{
    if root == OPTIONS {
        return Ok(Merge::Hash);
    }
    if let Some(merge) = plain_option(alloc, world, busy, of_module, root, left)? {
        return Ok(merge);
    }
    let options = look(
        alloc,
        world,
        busy,
        of_module,
        OPTIONS,
        Some(Merge::Hash),
        left,
    )?;
    option_in(alloc, world, of_module, root, &options)
}

/// The value, with what it asks for looked up first, in order, and then filled in. Most values ask for nothing, and are
/// handed on as they are.
#[cycle(look)]
fn interpolated(
    alloc: Global,
    world: &World<'_>,
    busy: &Texts,
    value: Option<Value>,
    left: u64,
) -> Result<Looked, Refused>
    ensures { MeetsBy looked_view result
        (interpolated (seen world.now) (look (seen world.now) left) busy.now (option_map view value)) }
{
    match value {
        None => Ok(without_answers(alloc, None)),
        Some(value) => {
            if is_literal(&value) {
                return Ok(without_answers(alloc, Some(value)));
            }
            interpolated_value(alloc, world, busy, &value, left)
        }
    }
}

/// What was found where nothing was looked up for it.
fn without_answers(alloc: Global, value: Option<Value>) -> Looked
    ensures { looked_view result ≡ (option_map view value, []) }
{
    Looked {
        value,
        answers: Answers::new(alloc),
    }
}

#[cycle(look)]
fn interpolated_value(
    alloc: Global,
    world: &World<'_>,
    busy: &Texts,
    value: &Value,
    left: u64,
) -> Result<Looked, Refused>
    ensures { MeetsBy looked_view result
        (interpolated (seen world.now) (look (seen world.now) left) busy.now (Some (view value.now))) }
{
    let mut asked = Vec::new(alloc);
    add_asks(alloc, &mut asked, value)?;
    let answers = answers(alloc, world, busy, &asked, left)?;
    let value = fill(alloc, world, &answers, value)?;
    Ok(Looked {
        value: Some(value),
        answers,
    })
}

#[cycle(look)]
fn answers(
    alloc: Global,
    world: &World<'_>,
    busy: &Texts,
    asked: &[Ask],
    left: u64,
) -> Result<Answers, Refused>
    ensures { MeetsBy (λ l. l) result
        (answers (look (seen world.now) left) busy.now [] asked.now) }
{
    let mut done = Answers::new(alloc);
    for ask in asked {
        done = done.with(alloc, answer(alloc, world, busy, ask, left)?)?;
    }
    Ok(done)
}

#[cycle(look)]
fn answer(
    alloc: Global,
    world: &World<'_>,
    busy: &Texts,
    ask: &Ask,
    left: u64,
) -> Result<Answer, Refused>
    ensures { MeetsBy (λ a. a) result (answer (look (seen world.now) left) busy.now ask.now) }
{
    match ask {
        Ask::Key(key) => {
            let looked = look(
                alloc,
                world,
                busy,
                module_of(key.as_str()),
                key.as_str(),
                None,
                left,
            )?;
            Ok(Answer::new(key.copy(alloc)?, looked.value))
        }
        Ask::Broken(text) => Err(bad_interpolation(alloc, text.as_str())),
    }
}
