//! Calls: `f(1, $a) |$x| { }`, `$a.f(1)` and `notice $a`.
ghost use Rattle.std.specs.Prelude.{◌≡◌, ◌∷◌, is_some, IfOk, IfSome};
ghost use Rattle.eval_calls.specs.Calls as spec;
ghost use Rattle.eval_calls.specs.Known.{is_known_call};
ghost use Rattle.eval_calls.specs.Lambdas.{opened};
ghost use Rattle.eval_world.specs.Nests.{Nests};
ghost use Rattle.eval_world.specs.Outcomes.{Gives, same};

use crate::iterating::call_with_lambda;
use crate::names::without_colons;
use crate::plain::{call_known, call_plain, refuse_lambda};
use eval_world::{Evaluated, Forms, Goal, Here, Meaning, World};
use expr_eval::LambdaFunction;
use pp_tree::{Call, Lambda, Words};
use pp_values::{Memory, Stop, Text, Values};
use std::alloc::Global;

/// `f(1, $a)`, with or without a lambda. The line is that of the whole expression. A leading `::` of the function's name is
/// dropped.
#[tactic(auto, unfolding(crate::specs::Calls::call_rule))]
pub fn call<F: Fn(&mut World<'_>, Goal<'_>, Here, u32) -> Result<Evaluated, Stop>, M: Meaning>(
    forms: &Forms<F, M>,
    world: &mut World<'_>,
    call: &Call,
    line: u32,
    here: Here,
) -> Result<Evaluated, Stop>
    requires { Nests (M.within forms.now.left) forms.now.left (F.pre forms.now.inner) (F.post forms.now.inner) }
    ensures { Gives same (spec.call_rule (M.within forms.now.left) call.now line here world.old) result world.new }
{
    match without_colons(world.heap.alloc(), &call.function)? {
        Some(function) => call_as(forms, world, &function, call, line, here),
        None => call_as(forms, world, &call.function, call, line, here),
    }
}

/// The function of this name, with the arguments and the lambda of a call.
#[tactic(auto, unfolding(crate::specs::Calls::invoked))]
fn call_as<F: Fn(&mut World<'_>, Goal<'_>, Here, u32) -> Result<Evaluated, Stop>, M: Meaning>(
    forms: &Forms<F, M>,
    world: &mut World<'_>,
    function: &Text,
    call: &Call,
    line: u32,
    here: Here,
) -> Result<Evaluated, Stop>
    requires { Nests (M.within forms.now.left) forms.now.left (F.pre forms.now.inner) (F.post forms.now.inner) }
    ensures { Gives same (spec.invoked_as (M.within forms.now.left) function.now call.now line here world.old) result
        world.new }
{
    if let Some(result) = known(forms, world, function, call, line, here) {
        return result;
    }
    let arguments = forms.values(world, &call.args, here)?;
    called(forms, world, function, call, arguments, line, here)
}

/// The same without a lambda, where the argument need not be copied.
fn known<F: Fn(&mut World<'_>, Goal<'_>, Here, u32) -> Result<Evaluated, Stop>, M: Meaning>(
    forms: &Forms<F, M>,
    world: &World<'_>,
    function: &Text,
    call: &Call,
    line: u32,
    here: Here,
) -> Option<Result<Evaluated, Stop>>
    ensures which { is_some result ≡ is_known_call forms.now.left function.now call.now here world.now.scopes }
    ensures said { IfSome result (λ r. Gives same
        (spec.invoked_as (M.within forms.now.left) function.now call.now line here world.now) r world.now) }
{
    match &call.lambda {
        None => call_known(forms, world, function, &call.args, line, here),
        Some(_) => None,
    }
}

/// `x.f(1)` is `f(x, 1)`, where `x` has its value already.
#[tactic(auto, unfolding(crate::specs::Calls::method_rule))]
pub fn method<F: Fn(&mut World<'_>, Goal<'_>, Here, u32) -> Result<Evaluated, Stop>, M: Meaning>(
    forms: &Forms<F, M>,
    world: &mut World<'_>,
    receiver: Evaluated,
    call: &Call,
    line: u32,
    here: Here,
) -> Result<Evaluated, Stop>
    requires { Nests (M.within forms.now.left) forms.now.left (F.pre forms.now.inner) (F.post forms.now.inner) }
    ensures { Gives same (spec.method_rule (M.within forms.now.left) receiver call.now line here world.old) result
        world.new }
{
    match without_colons(world.heap.alloc(), &call.function)? {
        Some(function) => call_on(forms, world, receiver, &function, call, line, here),
        None => call_on(forms, world, receiver, &call.function, call, line, here),
    }
}

/// The function of this name, with the receiver before the arguments of a call.
#[tactic(auto, unfolding(crate::specs::Calls::invoked_on))]
fn call_on<F: Fn(&mut World<'_>, Goal<'_>, Here, u32) -> Result<Evaluated, Stop>, M: Meaning>(
    forms: &Forms<F, M>,
    world: &mut World<'_>,
    receiver: Evaluated,
    function: &Text,
    call: &Call,
    line: u32,
    here: Here,
) -> Result<Evaluated, Stop>
    requires { Nests (M.within forms.now.left) forms.now.left (F.pre forms.now.inner) (F.post forms.now.inner) }
    ensures { Gives same (spec.invoked_on_as (M.within forms.now.left) receiver function.now call.now line here world.old)
        result world.new }
{
    let arguments = forms.values(world, &call.args, here)?;
    let arguments = with_receiver(world.heap.alloc(), receiver, arguments)?;
    called(forms, world, function, call, arguments, line, here)
}

/// `notice $a`: a call without parentheses, which takes no lambda.
#[tactic(auto, unfolding(crate::specs::Calls::words_rule, crate::specs::Calls::invoked))]
pub fn words<F: Fn(&mut World<'_>, Goal<'_>, Here, u32) -> Result<Evaluated, Stop>, M: Meaning>(
    forms: &Forms<F, M>,
    world: &mut World<'_>,
    words: &Words,
    here: Here,
) -> Result<Evaluated, Stop>
    requires { Nests (M.within forms.now.left) forms.now.left (F.pre forms.now.inner) (F.post forms.now.inner) }
    ensures { Gives same (spec.words_rule (M.within forms.now.left) words.now here world.old) result world.new }
{
    let arguments = forms.values(world, &words.args, here)?;
    call_plain(forms, world, &words.function, arguments, words.at, here)
}

/// The values with the receiver before them.
fn with_receiver(alloc: Global, receiver: Evaluated, rest: Values) -> Result<Values, Memory>
    ensures { IfOk result (λ l. l ≡ receiver ∷ rest) }
{
    let mut items = Vec::new(alloc);
    items.push(receiver.into_value())?;
    items.append(&mut rest.into_vec())?;
    Values::from_vec(items)
}

/// The function of these arguments.
fn called<F: Fn(&mut World<'_>, Goal<'_>, Here, u32) -> Result<Evaluated, Stop>, M: Meaning>(
    forms: &Forms<F, M>,
    world: &mut World<'_>,
    function: &Text,
    call: &Call,
    arguments: Values,
    line: u32,
    here: Here,
) -> Result<Evaluated, Stop>
    requires { Nests (M.within forms.now.left) forms.now.left (F.pre forms.now.inner) (F.post forms.now.inner) }
    ensures { Gives same (spec.called_as (M.within forms.now.left) function.now call.now arguments line here world.old)
        result world.new }
{
    match &call.lambda {
        None => call_plain(forms, world, function, arguments, line, here),
        Some(lambda) => { with_lambda(forms, world, function, lambda.get(), arguments, line, here) }
    }
}

#[tactic(auto, unfolding(crate::specs::Calls::with_lambda_rule))]
fn with_lambda<F: Fn(&mut World<'_>, Goal<'_>, Here, u32) -> Result<Evaluated, Stop>, M: Meaning>(
    forms: &Forms<F, M>,
    world: &mut World<'_>,
    function: &Text,
    lambda: &Lambda,
    arguments: Values,
    line: u32,
    here: Here,
) -> Result<Evaluated, Stop>
    requires { Nests (M.within forms.now.left) forms.now.left (F.pre forms.now.inner) (F.post forms.now.inner) }
    ensures { Gives same (spec.with_lambda_rule (M.within forms.now.left) function.now (opened lambda.now) arguments
        line here world.old) result world.new }
{
    match LambdaFunction::from_name(function) {
        Some(taking) => call_with_lambda(forms, world, taking, lambda, arguments, line, here),
        None => refuse_lambda(world, function, line, here),
    }
}
