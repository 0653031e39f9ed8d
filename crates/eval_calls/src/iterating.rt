//! The functions that take a lambda.
ghost use Rattle.std.specs.Prelude.{◌≡◌, [], map, option_map};
ghost use Rattle.std.specs.Option.{option_copied};
ghost use Rattle.expr_eval.specs.Turns.{only};
ghost use Rattle.eval_calls.specs.Iterating as spec;
ghost use Rattle.eval_calls.specs.Lambdas.{opened};
ghost use Rattle.eval_world.specs.Nests.{Nests};
ghost use Rattle.eval_world.specs.Outcomes.{Gives, same};
ghost use Rattle.pp_values.specs.Views.{view, views};

use crate::lambdas::{call_lambda, call_with_one, call_with_two, param_count};
use crate::turn_queue::TurnQueue;
use eval_world::{Evaluated, Forms, Goal, Here, Meaning, World};
use expr_eval::{
    Iteration, LambdaFunction, decides, gather, reduced_over, turn_of_with, turns_of,
    wrong_arguments,
};
use pp_tree::Lambda;
use pp_values::{Stop, Value, Values};

/// A call of a function that takes a lambda.
#[tactic(auto, unfolding(crate::specs::Iterating::lambda_function_rule))]
pub fn call_with_lambda<
    F: Fn(&mut World<'_>, Goal<'_>, Here, u32) -> Result<Evaluated, Stop>,
    M: Meaning,
>(
    forms: &Forms<F, M>,
    world: &mut World<'_>,
    function: LambdaFunction,
    lambda: &Lambda,
    arguments: Values,
    line: u32,
    here: Here,
) -> Result<Evaluated, Stop>
    requires { Nests (M.within forms.now.left) forms.now.left (F.pre forms.now.inner) (F.post forms.now.inner) }
    ensures { Gives same (spec.lambda_function_rule (M.within forms.now.left) function (opened lambda.now) arguments
        line here world.old) result world.new }
{
    match function {
        LambdaFunction::Iterate(iteration) => {
            iterate(
                forms,
                world,
                iteration,
                lambda,
                arguments.as_slice(),
                line,
                here,
            )
        }
        LambdaFunction::Reduce => reduce(forms, world, lambda, &arguments, line, here),
        LambdaFunction::With => with(forms, world, lambda, arguments, line, here),
    }
}

/// `each`, `map`, `filter`, `any` and `all`, which take one argument.
#[tactic(auto, unfolding(crate::specs::Iterating::iterate_rule))]
fn iterate<F: Fn(&mut World<'_>, Goal<'_>, Here, u32) -> Result<Evaluated, Stop>, M: Meaning>(
    forms: &Forms<F, M>,
    world: &mut World<'_>,
    function: Iteration,
    lambda: &Lambda,
    arguments: &[Value],
    line: u32,
    here: Here,
) -> Result<Evaluated, Stop>
    requires { Nests (M.within forms.now.left) forms.now.left (F.pre forms.now.inner) (F.post forms.now.inner) }
    ensures { Gives same (spec.iterate_rule (M.within forms.now.left) function (opened lambda.now) (views
        arguments.now) line here world.old) result world.new }
{
    match arguments {
        [value] => over(forms, world, function, lambda, value, line, here),
        _ => refused(world, function, line, here),
    }
}

fn refused(world: &World<'_>, function: Iteration, line: u32, here: Here) -> Result<Evaluated, Stop>
    ensures { Gives same (spec.refused function line here world.now) result world.now }
{
    let at = world.place(here, line)?;
    Err(Stop::Fault(wrong_arguments(world.heap.alloc(), function.name(), &at)?))
}

/// A list whose members the lambda takes one by one has no list of turns.
#[tactic(auto, using(crate::proofs::Members::over_members))]
fn over<F: Fn(&mut World<'_>, Goal<'_>, Here, u32) -> Result<Evaluated, Stop>, M: Meaning>(
    forms: &Forms<F, M>,
    world: &mut World<'_>,
    function: Iteration,
    lambda: &Lambda,
    value: &Value,
    line: u32,
    here: Here,
) -> Result<Evaluated, Stop>
    requires { Nests (M.within forms.now.left) forms.now.left (F.pre forms.now.inner) (F.post forms.now.inner) }
    ensures { Gives same (spec.over_rule (M.within forms.now.left) function (opened lambda.now) (view value.now) line
        here world.old) result world.new }
{
    match (param_count(lambda)?, value) {
        (1, Value::List(members)) => {
            let members = members.as_slice();
            over_members(forms, world, function, lambda, value, members, line, here)
        }
        _ => over_turns(forms, world, function, lambda, value, line, here),
    }
}

/// The same of a value with these members, one by one.
#[tactic(auto, unfolding(crate::specs::Iterating::gathered_rule))]
fn over_members<F: Fn(&mut World<'_>, Goal<'_>, Here, u32) -> Result<Evaluated, Stop>, M: Meaning>(
    forms: &Forms<F, M>,
    world: &mut World<'_>,
    function: Iteration,
    lambda: &Lambda,
    value: &Value,
    members: &[Value],
    line: u32,
    here: Here,
) -> Result<Evaluated, Stop>
    requires { Nests (M.within forms.now.left) forms.now.left (F.pre forms.now.inner) (F.post forms.now.inner) }
    ensures { Gives same (spec.gathered_rule (M.within forms.now.left) function (opened lambda.now) (view value.now)
        (map only (views members.now)) line here world.old) result world.new }
{
    let results = take_members(forms, world, function, lambda, members, line, here)?;
    Ok(Evaluated::new(gather(world.heap.alloc(), function, value, results)?))
}

#[tactic(auto, unfolding(crate::specs::Iterating::over_rule))]
fn over_turns<F: Fn(&mut World<'_>, Goal<'_>, Here, u32) -> Result<Evaluated, Stop>, M: Meaning>(
    forms: &Forms<F, M>,
    world: &mut World<'_>,
    function: Iteration,
    lambda: &Lambda,
    value: &Value,
    line: u32,
    here: Here,
) -> Result<Evaluated, Stop>
    requires { Nests (M.within forms.now.left) forms.now.left (F.pre forms.now.inner) (F.post forms.now.inner) }
    ensures { Gives same (spec.over_rule (M.within forms.now.left) function (opened lambda.now) (view value.now) line
        here world.old) result world.new }
{
    let at = world.place(here, line)?;
    let count = param_count(lambda)?;
    let turns = turns_of(world.heap.alloc(), function, value, count, &at)?;
    let turns = TurnQueue::new(world.heap.alloc(), turns)?;
    let results = take_turns(forms, world, function, lambda, turns, line, here)?;
    Ok(Evaluated::new(gather(world.heap.alloc(), function, value, results)?))
}

/// What the lambda gives for each member, up to the one that decides.
#[tactic(auto, unfolding(crate::specs::Iterating::turns_from))]
fn take_members<F: Fn(&mut World<'_>, Goal<'_>, Here, u32) -> Result<Evaluated, Stop>, M: Meaning>(
    forms: &Forms<F, M>,
    world: &mut World<'_>,
    function: Iteration,
    lambda: &Lambda,
    members: &[Value],
    line: u32,
    here: Here,
) -> Result<Values, Stop>
    requires { Nests (M.within forms.now.left) forms.now.left (F.pre forms.now.inner) (F.post forms.now.inner) }
    ensures { Gives same (spec.turns_from (M.within forms.now.left) function (opened lambda.now) [] (map only (views
        members.now)) line here world.old) result world.new }
{
    let mut done = Values::from_vec(Vec::with_capacity(world.heap.alloc(), members.len())?)?;
    let mut rest = members;
    while let Some((member, more)) = rest.split_first() {
        let argument = Evaluated::copy_of(world.heap.alloc(), member)?;
        let result = call_with_one(forms, world, lambda, argument, line, here)?;
        let is_last = decides(function, result.as_value());
        done.push(result.into_value())?;
        if is_last {
            return Ok(done);
        }
        rest = more;
    }
    Ok(done)
}

/// What the lambda gives in each turn, up to the one that decides.
#[tactic(auto, unfolding(crate::specs::Iterating::turns_from))]
fn take_turns<F: Fn(&mut World<'_>, Goal<'_>, Here, u32) -> Result<Evaluated, Stop>, M: Meaning>(
    forms: &Forms<F, M>,
    world: &mut World<'_>,
    function: Iteration,
    lambda: &Lambda,
    turns: TurnQueue,
    line: u32,
    here: Here,
) -> Result<Values, Stop>
    requires { Nests (M.within forms.now.left) forms.now.left (F.pre forms.now.inner) (F.post forms.now.inner) }
    ensures { Gives same (spec.turns_from (M.within forms.now.left) function (opened lambda.now) [] turns line
        here world.old) result world.new }
{
    let mut done = Values::new(world.heap.alloc());
    let mut left = turns;
    while let Some(turn) = left.take() {
        let result = call_lambda(forms, world, lambda, turn, line, here)?;
        let is_last = decides(function, result.as_value());
        done.push(result.into_value())?;
        if is_last {
            return Ok(done);
        }
    }
    Ok(done)
}

/// `reduce`. The members of a list are not copied to go through them.
#[tactic(auto, using(crate::proofs::Members::reduced_members, crate::proofs::Members::reduced_from))]
fn reduce<F: Fn(&mut World<'_>, Goal<'_>, Here, u32) -> Result<Evaluated, Stop>, M: Meaning>(
    forms: &Forms<F, M>,
    world: &mut World<'_>,
    lambda: &Lambda,
    arguments: &Values,
    line: u32,
    here: Here,
) -> Result<Evaluated, Stop>
    requires { Nests (M.within forms.now.left) forms.now.left (F.pre forms.now.inner) (F.post forms.now.inner) }
    ensures { Gives same (spec.reduce_rule (M.within forms.now.left) (opened lambda.now) arguments.now line here
        world.old) result world.new }
{
    if param_count(lambda)? != 2 {
        return reduce_copies(forms, world, lambda, arguments, line, here);
    }
    if let Some(members) = list_alone(arguments) {
        return reduced(forms, world, lambda, members.as_slice(), line, here);
    }
    if let Some((members, start)) = list_and_start(arguments) {
        let memo = Evaluated::copy_of(world.heap.alloc(), start)?;
        return reduce_rest(forms, world, lambda, memo, members.as_slice(), line, here);
    }
    reduce_copies(forms, world, lambda, arguments, line, here)
}

/// The members of a list.
#[tactic(auto, using(crate::proofs::Members::members_back))]
fn list_members(value: &Value) -> Option<&Values>
    ensures { option_copied result ≡ spec.list_members (view value.now) }
{
    match value {
        Value::List(members) => Some(members),
        _ => None,
    }
}

fn list_alone(arguments: &Values) -> Option<&Values>
    ensures { option_copied result ≡ spec.list_alone arguments.now }
{
    match arguments.as_slice() {
        [value] => list_members(value),
        _ => None,
    }
}

fn list_and_start(arguments: &Values) -> Option<(&Values, &Value)>
    ensures { option_map (λ p. (p.0.now, view p.1.now)) result ≡ spec.list_and_start arguments.now }
{
    match arguments.as_slice() {
        [value, start] => {
            let members = list_members(value)?;
            Some((members, start))
        }
        _ => None,
    }
}

#[tactic(auto, unfolding(crate::specs::Iterating::reduce_rule))]
fn reduce_copies<F: Fn(&mut World<'_>, Goal<'_>, Here, u32) -> Result<Evaluated, Stop>, M: Meaning>(
    forms: &Forms<F, M>,
    world: &mut World<'_>,
    lambda: &Lambda,
    arguments: &Values,
    line: u32,
    here: Here,
) -> Result<Evaluated, Stop>
    requires { Nests (M.within forms.now.left) forms.now.left (F.pre forms.now.inner) (F.post forms.now.inner) }
    ensures { Gives same (spec.reduce_rule (M.within forms.now.left) (opened lambda.now) arguments.now line here
        world.old) result world.new }
{
    let at = world.place(here, line)?;
    let count = param_count(lambda)?;
    let members = reduced_over(world.heap.alloc(), arguments, count, &at)?;
    reduced(forms, world, lambda, members.as_slice(), line, here)
}

#[tactic(auto, unfolding(crate::specs::Iterating::reduced))]
fn reduced<F: Fn(&mut World<'_>, Goal<'_>, Here, u32) -> Result<Evaluated, Stop>, M: Meaning>(
    forms: &Forms<F, M>,
    world: &mut World<'_>,
    lambda: &Lambda,
    members: &[Value],
    line: u32,
    here: Here,
) -> Result<Evaluated, Stop>
    requires { Nests (M.within forms.now.left) forms.now.left (F.pre forms.now.inner) (F.post forms.now.inner) }
    ensures { Gives same (spec.reduced (M.within forms.now.left) (opened lambda.now) (views members.now) line here
        world.old) result world.new }
{
    match members {
        [] => Ok(Evaluated::new(Value::Undef)),
        [first, rest @ ..] => {
            let memo = Evaluated::copy_of(world.heap.alloc(), first)?;
            reduce_rest(forms, world, lambda, memo, rest, line, here)
        }
    }
}

/// The memo after each member in turn.
#[tactic(auto, unfolding(crate::specs::Iterating::reduce_from))]
fn reduce_rest<F: Fn(&mut World<'_>, Goal<'_>, Here, u32) -> Result<Evaluated, Stop>, M: Meaning>(
    forms: &Forms<F, M>,
    world: &mut World<'_>,
    lambda: &Lambda,
    memo: Evaluated,
    members: &[Value],
    line: u32,
    here: Here,
) -> Result<Evaluated, Stop>
    requires { Nests (M.within forms.now.left) forms.now.left (F.pre forms.now.inner) (F.post forms.now.inner) }
    ensures { Gives same (spec.reduce_from (M.within forms.now.left) (opened lambda.now) memo (views members.now) line
        here world.old) result world.new }
{
    let mut memo = memo;
    let mut rest = members;
    while let Some((member, more)) = rest.split_first() {
        let member = Evaluated::copy_of(world.heap.alloc(), member)?;
        memo = call_with_two(forms, world, lambda, memo, member, line, here)?;
        rest = more;
    }
    Ok(memo)
}

#[tactic(auto, unfolding(crate::specs::Iterating::with_rule))]
fn with<F: Fn(&mut World<'_>, Goal<'_>, Here, u32) -> Result<Evaluated, Stop>, M: Meaning>(
    forms: &Forms<F, M>,
    world: &mut World<'_>,
    lambda: &Lambda,
    arguments: Values,
    line: u32,
    here: Here,
) -> Result<Evaluated, Stop>
    requires { Nests (M.within forms.now.left) forms.now.left (F.pre forms.now.inner) (F.post forms.now.inner) }
    ensures { Gives same (spec.with_rule (M.within forms.now.left) (opened lambda.now) arguments line here world.old)
        result world.new }
{
    let at = world.place(here, line)?;
    let count = param_count(lambda)?;
    let turn = turn_of_with(world.heap.alloc(), arguments, count, &at)?;
    call_lambda(forms, world, lambda, turn, line, here)
}
