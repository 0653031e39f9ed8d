//! The function `realize`.
ghost use Rattle.std.specs.Prelude.{◌≡◌, [], IfOk};
ghost use Rattle.eval_calls.specs.Realizing as spec;
ghost use Rattle.eval_world.specs.Outcomes.{Gives, nothing, same};
ghost use Rattle.pp_funcs.specs.Lists.{behind};
ghost use Rattle.pp_values.specs.Views.{view, views};

use crate::names::wrong;
use eval_classes::flattened;
use eval_collectors::realize as realize_one;
use eval_world::{Evaluated, Here, World};
use pp_values::{Memory, Reference, Refs, Stop, Text, Value, Values};
use std::alloc::Global;

/// `realize`, with its arguments there. The answer is Undef.
#[tactic(auto, unfolding(crate::specs::Realizing::realized))]
pub fn realize(
    world: &mut World<'_>,
    function: &Text,
    arguments: &Values,
    line: u32,
    here: Here,
) -> Result<Evaluated, Stop>
    ensures { Gives same (spec.realized function.now arguments.now line here world.old) result world.new }
{
    match references_asked(world.heap.alloc(), arguments)? {
        Some(references) => realize_all(world, references.as_slice(), line, here),
        None => Err(Stop::Fault(wrong(world, function, line, here)?)),
    }
}

/// The references that are asked for, lists flattened; `None` where there is no argument, or where one is no reference.
fn references_asked(alloc: Global, arguments: &Values) -> Result<Option<Refs>, Memory>
    ensures { IfOk result (λ o. o ≡ spec.references_asked arguments.now) }
{
    match arguments.as_slice() {
        [] => Ok(None),
        [_, ..] => references_of(alloc, arguments.as_slice()),
    }
}

#[tactic(auto, unfolding(crate::specs::Realizing::arguments_from))]
fn references_of(alloc: Global, arguments: &[Value]) -> Result<Option<Refs>, Memory>
    ensures { IfOk result (λ o. o ≡ spec.arguments_from [] (views arguments.now)) }
{
    let mut done = Refs::new(alloc);
    let mut rest = arguments;
    while let Some((argument, more)) = rest.split_first() {
        let members = flattened(alloc, argument)?;
        match with_references(alloc, done, members.as_slice())? {
            Some(references) => done = references,
            None => return Ok(None),
        }
        rest = more;
    }
    Ok(Some(done))
}

/// These references, and those in the values behind them; `None` where a value is none.
#[tactic(auto, unfolding(crate::specs::Realizing::references_from))]
fn with_references(alloc: Global, mut done: Refs, values: &[&Value]) -> Result<Option<Refs>, Memory>
    ensures { IfOk result (λ o. o ≡ spec.references_from done (behind values.now)) }
{
    for value in values {
        match reference_in(alloc, value)? {
            Some(reference) => done.push(reference)?,
            None => return Ok(None),
        }
    }
    Ok(Some(done))
}

fn reference_in(alloc: Global, value: &Value) -> Result<Option<Reference>, Memory>
    ensures { IfOk result (λ o. o ≡ spec.reference_in (view value.now)) }
{
    match value {
        Value::Ref(reference) => Ok(Some(reference.get().copy(alloc)?)),
        _ => Ok(None),
    }
}

#[tactic(auto, unfolding(crate::specs::Realizing::realize_all))]
fn realize_all(
    world: &mut World<'_>,
    references: &[Reference],
    line: u32,
    here: Here,
) -> Result<Evaluated, Stop>
    ensures { Gives same (spec.realize_all references.now line here world.old) result world.new }
{
    realize_each(world, references, line, here)?;
    Ok(Evaluated::new(Value::Undef))
}

/// One reference after another.
#[tactic(auto, unfolding(crate::specs::Realizing::realize_from))]
fn realize_each(
    world: &mut World<'_>,
    references: &[Reference],
    line: u32,
    here: Here,
) -> Result<(), Stop>
    ensures { Gives nothing (spec.realize_from references.now line here world.old) result world.new }
{
    let mut rest = references;
    while let Some((reference, more)) = rest.split_first() {
        realize_one(world, reference, line, here)?;
        rest = more;
    }
    Ok(())
}
