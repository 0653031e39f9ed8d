//! Calls whose arguments have their values, and stray lambdas.
ghost use Rattle.std.specs.Prelude.{◌≡◌, false, is_some, None, IfSome};
ghost use Rattle.eval_calls.specs.Calls as spec;
ghost use Rattle.eval_calls.specs.Known.{is_of_known};
ghost use Rattle.eval_world.specs.Nests.{Nests};
ghost use Rattle.eval_world.specs.Outcomes.{Gives, same};
ghost use Rattle.eval_world.specs.Worlds.{answered_at};
ghost use Rattle.pp_funcs.specs.Functions.{applied};
ghost use Rattle.pp_funcs.specs.Names.{needs_evaluator};
ghost use Rattle.pp_values.specs.Views.{views};

use crate::functions::{call_defined, refuse_defined};
use crate::looking_up::look_up;
use crate::names::{is_computed, is_function, is_log, wrong};
use crate::realizing::realize;
use crate::templating::{epp, inline_epp};
use eval_classes::{Including, include};
use eval_world::{Evaluated, Forms, Goal, Here, Meaning, World, is_splat, only};
use expr_eval::{LambdaFunction, joined};
use pp_funcs::{call_pure_of, needs_evaluator};
use pp_tree::Args;
use pp_values::{Stop, Text, Value, Values};
use std::slice;

/// A call without a lambda.
#[tactic(auto, unfolding(crate::specs::Calls::plain_rule))]
pub fn call_plain<
    F: Fn(&mut World<'_>, Goal<'_>, Here, u32) -> Result<Evaluated, Stop>,
    M: Meaning,
>(
    forms: &Forms<F, M>,
    world: &mut World<'_>,
    function: &Text,
    arguments: Values,
    line: u32,
    here: Here,
) -> Result<Evaluated, Stop>
    requires { Nests (M.within forms.now.left) forms.now.left (F.pre forms.now.inner) (F.post forms.now.inner) }
    ensures { Gives same (spec.plain_rule (M.within forms.now.left) function.now arguments line here world.old)
        result world.new }
{
    if needs_evaluator(function) {
        call_evaluated(forms, world, function, &arguments, line, here)
    } else {
        call_other(forms, world, function, arguments, line, here)
    }
}

/// A function of its arguments alone, or else one that the site defines.
#[tactic(auto, unfolding(crate::specs::Calls::other_rule))]
fn call_other<F: Fn(&mut World<'_>, Goal<'_>, Here, u32) -> Result<Evaluated, Stop>, M: Meaning>(
    forms: &Forms<F, M>,
    world: &mut World<'_>,
    function: &Text,
    arguments: Values,
    line: u32,
    here: Here,
) -> Result<Evaluated, Stop>
    requires nests { Nests (M.within forms.now.left) forms.now.left (F.pre forms.now.inner) (F.post forms.now.inner) }
    requires plain { needs_evaluator function.now ≡ false }
    ensures { Gives same (spec.other_rule (M.within forms.now.left) function.now arguments line here world.old)
        result world.new }
{
    if is_computed(function) {
        compute(world, function, arguments.as_slice(), line, here)
    } else {
        call_defined(forms, world, function, arguments, line, here)
    }
}

/// A function of its arguments alone whose one argument is a variable: it takes the value without a copy. None where
/// that is not so.
pub fn call_known<
    F: Fn(&mut World<'_>, Goal<'_>, Here, u32) -> Result<Evaluated, Stop>,
    M: Meaning,
>(
    forms: &Forms<F, M>,
    world: &World<'_>,
    function: &Text,
    arguments: &Args,
    line: u32,
    here: Here,
) -> Option<Result<Evaluated, Stop>>
    ensures which { is_some result
        ≡ is_of_known forms.now.left function.now arguments.now here world.now.scopes }
    ensures said { IfSome result (λ r. Gives same
        (spec.invoked (M.within forms.now.left) function.now arguments.now None line here world.now) r world.now) }
{
    let argument = only(arguments.as_slice())?;
    if is_splat(argument) {
        return None;
    }
    let value = forms.known(world, argument, here)?;
    if needs_evaluator(function) {
        return None;
    }
    if !is_computed(function) {
        return None;
    }
    Some(compute(world, function, slice::from_ref(value), line, here))
}

/// A function of its arguments alone.
fn compute(
    world: &World<'_>,
    function: &Text,
    arguments: &[Value],
    line: u32,
    here: Here,
) -> Result<Evaluated, Stop>
    requires { needs_evaluator function.now ≡ false }
    ensures { Gives same (answered_at (applied function.now (views arguments.now)) line here world.now) result world.now }
{
    let at = world.place(here, line)?;
    Ok(Evaluated::new(call_pure_of(world.heap.alloc(), function, arguments, &at)?))
}

/// A function that needs the log, a lambda, a template or the site.
#[tactic(auto, unfolding(crate::specs::Calls::evaluated_rule))]
fn call_evaluated<
    F: Fn(&mut World<'_>, Goal<'_>, Here, u32) -> Result<Evaluated, Stop>,
    M: Meaning,
>(
    forms: &Forms<F, M>,
    world: &mut World<'_>,
    function: &Text,
    arguments: &Values,
    line: u32,
    here: Here,
) -> Result<Evaluated, Stop>
    requires { Nests (M.within forms.now.left) forms.now.left (F.pre forms.now.inner) (F.post forms.now.inner) }
    ensures { Gives same (spec.evaluated_rule (M.within forms.now.left) function.now arguments.now line here world.old)
        result world.new }
{
    if is_log(function) {
        return log(world, function, arguments);
    }
    match LambdaFunction::from_name(function) {
        Some(_) => Err(Stop::Fault(wrong(world, function, line, here)?)),
        None => call_site(forms, world, function, arguments, line, here),
    }
}

/// A function that needs the site.
#[tactic(auto, unfolding(crate::specs::Calls::site_rule))]
fn call_site<F: Fn(&mut World<'_>, Goal<'_>, Here, u32) -> Result<Evaluated, Stop>, M: Meaning>(
    forms: &Forms<F, M>,
    world: &mut World<'_>,
    function: &Text,
    arguments: &Values,
    line: u32,
    here: Here,
) -> Result<Evaluated, Stop>
    requires { Nests (M.within forms.now.left) forms.now.left (F.pre forms.now.inner) (F.post forms.now.inner) }
    ensures { Gives same (spec.site_rule (M.within forms.now.left) function.now arguments.now line here world.old)
        result world.new }
{
    match Including::from_name(function) {
        Some(including) => include(forms, world, including, function, arguments, line, here),
        None => call_template(forms, world, function, arguments, line, here),
    }
}

/// `epp`, `inline_epp`, or what stands behind them.
#[tactic(auto, unfolding(crate::specs::Calls::template_or_data))]
fn call_template<F: Fn(&mut World<'_>, Goal<'_>, Here, u32) -> Result<Evaluated, Stop>, M: Meaning>(
    forms: &Forms<F, M>,
    world: &mut World<'_>,
    function: &Text,
    arguments: &Values,
    line: u32,
    here: Here,
) -> Result<Evaluated, Stop>
    requires { Nests (M.within forms.now.left) forms.now.left (F.pre forms.now.inner) (F.post forms.now.inner) }
    ensures { Gives same (spec.template_or_data (M.within forms.now.left) function.now arguments.now line here world.old)
        result world.new }
{
    if function.is("epp") {
        epp(forms, world, function, arguments, line, here)
    } else if function.is("inline_epp") {
        inline_epp(forms, world, function, arguments, line, here)
    } else {
        call_data(world, function, arguments, line, here)
    }
}

/// `lookup`, or `realize`.
#[tactic(auto, unfolding(crate::specs::Calls::data_rule))]
fn call_data(
    world: &mut World<'_>,
    function: &Text,
    arguments: &Values,
    line: u32,
    here: Here,
) -> Result<Evaluated, Stop>
    ensures { Gives same (spec.data_rule function.now arguments.now line here world.old) result world.new }
{
    if function.is("lookup") {
        look_up(world, function, arguments, line, here)
    } else {
        realize(world, function, arguments, line, here)
    }
}

/// Writes a line of the log.
#[tactic(auto, unfolding(crate::specs::Calls::log_rule))]
fn log(world: &mut World<'_>, function: &Text, arguments: &Values) -> Result<Evaluated, Stop>
    ensures { Gives same (spec.log_rule function.now arguments.now world.old) result world.new }
{
    let level = function.copy(world.heap.alloc())?;
    let text = joined(world.heap.alloc(), arguments)?;
    world.write_log(level, text)?;
    Ok(Evaluated::new(Value::Undef))
}

/// The fault of a lambda that is handed to what takes none.
#[tactic(auto, unfolding(crate::specs::Calls::stray_lambda_rule))]
pub fn refuse_lambda(
    world: &World<'_>,
    function: &Text,
    line: u32,
    here: Here,
) -> Result<Evaluated, Stop>
    ensures { Gives same (spec.stray_lambda_rule function.now line here world.now) result world.now }
{
    if is_function(function) {
        return Err(Stop::Fault(wrong(world, function, line, here)?));
    }
    refuse_defined(world, function, line, here)
}
