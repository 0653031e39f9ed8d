//! Which functions there are.
ghost use Rattle.std.specs.Prelude.{◌≡◌, IfOk, option_map, unwrap_or};
ghost use Rattle.pp_values.specs.Faults.{fault};
ghost use Rattle.pp_values.specs.declared.fault.What.TheVariants as what;
ghost use Rattle.eval_calls.specs.Names as spec;
ghost use Rattle.eval_world.specs.Worlds.{place_at};
ghost use Rattle.pp_tree.specs.Names.{without_front_colons};

use eval_world::{Here, World};
use pp_funcs::{Function, needs_evaluator};
use pp_values::{Fault, Memory, Text, What};
use std::alloc::Global;

/// Whether the function writes a line of the log.
pub fn is_log(function: &Text) -> bool
    ensures { result ≡ spec.is_log function.now }
{
    function.is("debug")
        || function.is("info")
        || function.is("notice")
        || function.is("warning")
        || function.is("err")
}

/// Whether the function is one of its arguments alone.
pub fn is_computed(function: &Text) -> bool
    ensures { result ≡ spec.is_computed function.now }
{
    Function::from_name(function).is_some()
}

/// Whether each site has a function of this name.
pub fn is_function(function: &Text) -> bool
    ensures { result ≡ spec.is_function function.now }
{
    needs_evaluator(function) || is_computed(function)
}

/// The name without a leading `::`, where it has one.
pub fn without_colons(alloc: Global, written: &Text) -> Result<Option<Text>, Memory>
    ensures { IfOk result (λ o. unwrap_or o written.now ≡ without_front_colons written.now) }
{
    match behind_colons(written.as_str()) {
        Some(name) => Ok(Some(Text::from_str(alloc, name)?)),
        None => Ok(None),
    }
}

#[tactic(auto, using(pp_tree::proofs::Colons::kept))]
fn behind_colons(text: &str) -> Option<&str>
    ensures { unwrap_or (option_map (λ t. t.now) result) text.now ≡ without_front_colons text.now }
{
    match text.strip_prefix("::") {
        Some(rest) => Some(rest),
        None => None,
    }
}

/// The fault that a function does not take what it is given.
pub fn wrong(world: &World<'_>, function: &Text, line: u32, here: Here) -> Result<Fault, Memory>
    ensures { IfOk result (λ f. f ≡ fault (place_at world.now here line) (what.WrongArguments function.now)) }
{
    let function = function.copy(world.heap.alloc())?;
    world.fault(here, line, What::WrongArguments(function))
}

/// The fault that there is no function of this name.
pub fn unknown(world: &World<'_>, function: &Text, line: u32, here: Here) -> Result<Fault, Memory>
    ensures { IfOk result (λ f. f ≡ fault (place_at world.now here line) (what.UnknownFunction function.now)) }
{
    let function = function.copy(world.heap.alloc())?;
    world.fault(here, line, What::UnknownFunction(function))
}
