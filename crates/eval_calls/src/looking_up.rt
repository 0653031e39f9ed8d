//! The function `lookup`.
ghost use Rattle.std.specs.Prelude.{None, Some, option_map};
ghost use Rattle.eval_calls.specs.LookUps as spec;
ghost use Rattle.eval_world.specs.Outcomes.{Gives, same};
ghost use Rattle.pp_values.specs.Views.{view};

use crate::names::wrong;
use crate::request::Request;
use crate::requests::request_of;
use eval_world::{Evaluated, Here, World};
use expr_eval::is_of;
use hiera_merge::Merge;
use pp_values::{Place, Stop, Text, Value, Values, What};
use scope_core::ScopeId;

/// `lookup`, with its arguments there.
#[tactic(auto, unfolding(crate::specs::LookUps::lookup_rule))]
pub fn look_up(
    world: &World<'_>,
    function: &Text,
    arguments: &Values,
    line: u32,
    here: Here,
) -> Result<Evaluated, Stop>
    ensures { Gives same (spec.lookup_rule function.now arguments.now line here world.now) result world.now }
{
    match request_of(world.heap.alloc(), arguments.as_slice())? {
        Some(request) => find_value(world, &request, line, here),
        None => Err(Stop::Fault(wrong(world, function, line, here)?)),
    }
}

/// The value of the first key that has one, or what stands in for it, tested against the type that is asked for.
#[tactic(auto, unfolding(crate::specs::LookUps::found_rule))]
fn find_value(
    world: &World<'_>,
    request: &Request<'_>,
    line: u32,
    here: Here,
) -> Result<Evaluated, Stop>
    ensures { Gives same (spec.found_rule (spec.request_seen request.now) line here world.now) result world.now }
{
    let at = world.place(here, line)?;
    let merge = request.options.merge;
    let found = first_found(world, here.scope, request.keys.as_slice(), merge, &at)?;
    let value = found_or(world, found, request, line, here)?;
    of_type(world, request.options.of_type, value, line, here)
}

fn found_or(
    world: &World<'_>,
    found: Option<Evaluated>,
    request: &Request<'_>,
    line: u32,
    here: Here,
) -> Result<Evaluated, Stop>
    ensures { Gives same (spec.found_or found (spec.request_seen request.now) line here world.now) result world.now }
{
    match found {
        Some(value) => Ok(value),
        None => default_or_fault(world, request, line, here),
    }
}

/// The value, where it is of the type that is asked for; else F8.
fn of_type(
    world: &World<'_>,
    kind: Option<&Value>,
    value: Evaluated,
    line: u32,
    here: Here,
) -> Result<Evaluated, Stop>
    ensures { Gives same (spec.of_type (option_map spec.value_seen kind.entry) value line here world.now) result
        world.now }
{
    match kind {
        None => Ok(value),
        Some(kind) => of_kind(world, kind, value, line, here),
    }
}

fn of_kind(
    world: &World<'_>,
    kind: &Value,
    value: Evaluated,
    line: u32,
    here: Here,
) -> Result<Evaluated, Stop>
    ensures { Gives same (spec.of_type (Some (view kind.now)) value line here world.now) result world.now }
{
    let at = world.place(here, line)?;
    if is_of(world.heap.alloc(), value.as_value(), kind, &at)? {
        return Ok(value);
    }
    let name = Text::from_str(world.heap.alloc(), "lookup")?;
    Err(Stop::Fault(world.fault(here, line, What::TypeMismatch(name))?))
}

#[tactic(auto, unfolding(crate::specs::LookUps::first_found))]
fn first_found(
    world: &World<'_>,
    scope: ScopeId,
    keys: &[Text],
    merge: Option<Merge>,
    at: &Place,
) -> Result<Option<Evaluated>, Stop>
    ensures { Gives same (spec.first_found scope.number keys.now merge at.now world.now) result world.now }
{
    let mut rest = keys;
    while let Some((key, more)) = rest.split_first() {
        match world.look_up(scope, key, merge, at)? {
            Some(value) => return Ok(Some(value)),
            None => rest = more,
        }
    }
    Ok(None)
}

fn default_or_fault(
    world: &World<'_>,
    request: &Request<'_>,
    line: u32,
    here: Here,
) -> Result<Evaluated, Stop>
    ensures { Gives same (spec.default_or_fault (option_map spec.value_seen request.now.options.default)
        request.now.keys line here world.now) result world.now }
{
    match request.options.default {
        Some(value) => Ok(Evaluated::copy_of(world.heap.alloc(), value)?),
        None => missing(world, request.keys.as_slice(), line, here),
    }
}

fn missing(world: &World<'_>, keys: &[Text], line: u32, here: Here) -> Result<Evaluated, Stop>
    ensures { Gives same (spec.default_or_fault None keys.now line here world.now) result world.now }
{
    let key = match keys {
        [] => Text::from_str(world.heap.alloc(), "")?,
        [first, ..] => first.copy(world.heap.alloc())?,
    };
    Err(Stop::Fault(world.fault(here, line, What::LookupMissing(key))?))
}
