//! A call of a lambda.
ghost use Rattle.std.specs.Prelude.{◌≡◌, ◌∷◌, [], IfOk, Some};
ghost use Rattle.eval_calls.specs.Lambdas as spec;
ghost use Rattle.eval_world.specs.Nests.{Nests};
ghost use Rattle.eval_world.specs.Outcomes.{Gives, nothing, same};
ghost use Rattle.pp_values.specs.Views.{view};

use eval_classes::{accepted, has_type};
use eval_world::{Evaluated, Forms, Goal, Here, Meaning, World};
use pp_tree::{Expr, Lambda, Param};
use pp_values::{Memory, Stop, Text, Value, Values};

/// How many parameters a lambda has.
pub fn param_count(lambda: &Lambda) -> Result<u32, Memory>
    ensures { IfOk result (λ n. n ≡ spec.param_count (spec.opened lambda.now)) }
{
    match u32::try_from(lambda.params.len()) {
        Ok(count) => Ok(count),
        Err(_) => Err(Memory),
    }
}

/// One call of a lambda with these arguments, which move into its parameters, in a scope of its own. The lambda belongs
/// to the call that begins at this line.
#[tactic(auto, unfolding(crate::specs::Lambdas::lambda_rule))]
pub fn call_lambda<
    F: Fn(&mut World<'_>, Goal<'_>, Here, u32) -> Result<Evaluated, Stop>,
    M: Meaning,
>(
    forms: &Forms<F, M>,
    world: &mut World<'_>,
    lambda: &Lambda,
    arguments: Values,
    line: u32,
    here: Here,
) -> Result<Evaluated, Stop>
    requires { Nests (M.within forms.now.left) forms.now.left (F.pre forms.now.inner) (F.post forms.now.inner) }
    ensures { Gives same (spec.lambda_rule (M.within forms.now.left) (spec.opened lambda.now) arguments line here
        world.old) result world.new }
{
    let own = world.enter_lambda(here)?;
    bind(forms, world, lambda.params.as_slice(), arguments, line, own)?;
    let value = forms.block(world, &lambda.block, line, own)?;
    world.leave(own);
    Ok(value)
}

/// One call of a lambda with this argument, which moves into its parameter.
#[tactic(auto, unfolding(crate::specs::Lambdas::lambda_rule))]
pub fn call_with_one<
    F: Fn(&mut World<'_>, Goal<'_>, Here, u32) -> Result<Evaluated, Stop>,
    M: Meaning,
>(
    forms: &Forms<F, M>,
    world: &mut World<'_>,
    lambda: &Lambda,
    argument: Evaluated,
    line: u32,
    here: Here,
) -> Result<Evaluated, Stop>
    requires { Nests (M.within forms.now.left) forms.now.left (F.pre forms.now.inner) (F.post forms.now.inner) }
    ensures { Gives same (spec.lambda_rule (M.within forms.now.left) (spec.opened lambda.now) (argument ∷ []) line here
        world.old) result world.new }
{
    let own = world.enter_lambda(here)?;
    bind_last(forms, world, lambda.params.as_slice(), argument, line, own)?;
    let value = forms.block(world, &lambda.block, line, own)?;
    world.leave(own);
    Ok(value)
}

/// One call of a lambda with these two arguments, which move into its parameters.
#[tactic(auto, unfolding(crate::specs::Lambdas::lambda_rule))]
pub fn call_with_two<
    F: Fn(&mut World<'_>, Goal<'_>, Here, u32) -> Result<Evaluated, Stop>,
    M: Meaning,
>(
    forms: &Forms<F, M>,
    world: &mut World<'_>,
    lambda: &Lambda,
    first: Evaluated,
    second: Evaluated,
    line: u32,
    here: Here,
) -> Result<Evaluated, Stop>
    requires { Nests (M.within forms.now.left) forms.now.left (F.pre forms.now.inner) (F.post forms.now.inner) }
    ensures { Gives same (spec.lambda_rule (M.within forms.now.left) (spec.opened lambda.now) (first ∷ second ∷ []) line
        here world.old) result world.new }
{
    let own = world.enter_lambda(here)?;
    bind_both(
        forms,
        world,
        lambda.params.as_slice(),
        first,
        second,
        line,
        own,
    )?;
    let value = forms.block(world, &lambda.block, line, own)?;
    world.leave(own);
    Ok(value)
}

/// Sets each parameter to its argument.
#[tactic(auto, unfolding(crate::specs::Lambdas::bind_from))]
fn bind<F: Fn(&mut World<'_>, Goal<'_>, Here, u32) -> Result<Evaluated, Stop>, M: Meaning>(
    forms: &Forms<F, M>,
    world: &mut World<'_>,
    params: &[Param],
    arguments: Values,
    line: u32,
    own: Here,
) -> Result<(), Stop>
    requires { Nests (M.within forms.now.left) forms.now.left (F.pre forms.now.inner) (F.post forms.now.inner) }
    ensures { Gives nothing (spec.bind_from (M.within forms.now.left) params.now arguments line own world.old) result
        world.new }
{
    let mut params = params;
    let mut left = arguments.into_vec().into_iter();
    while let Some((param, more)) = params.split_first() {
        let Some(argument) = left.next() else {
            return Ok(());
        };
        bind_one(forms, world, param, Evaluated::new(argument), line, own)?;
        params = more;
    }
    Ok(())
}

/// Sets the first two parameters.
#[inline(always)]
#[tactic(auto, unfolding(crate::specs::Lambdas::bind_from))]
fn bind_both<F: Fn(&mut World<'_>, Goal<'_>, Here, u32) -> Result<Evaluated, Stop>, M: Meaning>(
    forms: &Forms<F, M>,
    world: &mut World<'_>,
    params: &[Param],
    first: Evaluated,
    second: Evaluated,
    line: u32,
    own: Here,
) -> Result<(), Stop>
    requires { Nests (M.within forms.now.left) forms.now.left (F.pre forms.now.inner) (F.post forms.now.inner) }
    ensures { Gives nothing (spec.bind_from (M.within forms.now.left) params.now (first ∷ second ∷ []) line own
        world.old) result world.new }
{
    match params {
        [] => Ok(()),
        [param, rest @ ..] => {
            bind_one(forms, world, param, first, line, own)?;
            bind_last(forms, world, rest, second, line, own)?;
            Ok(())
        }
    }
}

/// Sets the first parameter. Those behind it have no argument.
#[inline(always)]
#[tactic(auto, unfolding(crate::specs::Lambdas::bind_from), using(crate::proofs::Binding::no_arguments))]
fn bind_last<F: Fn(&mut World<'_>, Goal<'_>, Here, u32) -> Result<Evaluated, Stop>, M: Meaning>(
    forms: &Forms<F, M>,
    world: &mut World<'_>,
    params: &[Param],
    argument: Evaluated,
    line: u32,
    own: Here,
) -> Result<(), Stop>
    requires { Nests (M.within forms.now.left) forms.now.left (F.pre forms.now.inner) (F.post forms.now.inner) }
    ensures { Gives nothing (spec.bind_from (M.within forms.now.left) params.now (argument ∷ []) line own world.old)
        result world.new }
{
    match params {
        [] => Ok(()),
        [param, _rest @ ..] => {
            bind_one(forms, world, param, argument, line, own)?;
            Ok(())
        }
    }
}

#[inline(always)]
#[tactic(auto, unfolding(crate::specs::Lambdas::bind_rule))]
fn bind_one<F: Fn(&mut World<'_>, Goal<'_>, Here, u32) -> Result<Evaluated, Stop>, M: Meaning>(
    forms: &Forms<F, M>,
    world: &mut World<'_>,
    param: &Param,
    argument: Evaluated,
    line: u32,
    own: Here,
) -> Result<(), Stop>
    requires { Nests (M.within forms.now.left) forms.now.left (F.pre forms.now.inner) (F.post forms.now.inner) }
    ensures { Gives nothing (spec.bind_rule (M.within forms.now.left) param.now argument line own world.old) result
        world.new }
{
    check_type(forms, world, param, argument.as_value(), line, own)?;
    world.assign(own, &param.name, argument, param.at)
}

/// Where the parameter has a type, its argument is of it, else F8 at the call.
#[inline(always)]
fn check_type<F: Fn(&mut World<'_>, Goal<'_>, Here, u32) -> Result<Evaluated, Stop>, M: Meaning>(
    forms: &Forms<F, M>,
    world: &mut World<'_>,
    param: &Param,
    argument: &Value,
    line: u32,
    own: Here,
) -> Result<(), Stop>
    requires { Nests (M.within forms.now.left) forms.now.left (F.pre forms.now.inner) (F.post forms.now.inner) }
    ensures { Gives nothing (spec.typed (M.within forms.now.left) param.now.kind (view argument.now) param.now.name
        line own world.old) result world.new }
{
    match &param.kind {
        None => Ok(()),
        Some(kind) => check_kind(forms, world, kind, argument, &param.name, line, own),
    }
}

fn check_kind<F: Fn(&mut World<'_>, Goal<'_>, Here, u32) -> Result<Evaluated, Stop>, M: Meaning>(
    forms: &Forms<F, M>,
    world: &mut World<'_>,
    kind: &Expr,
    argument: &Value,
    name: &Text,
    line: u32,
    own: Here,
) -> Result<(), Stop>
    requires { Nests (M.within forms.now.left) forms.now.left (F.pre forms.now.inner) (F.post forms.now.inner) }
    ensures { Gives nothing (spec.typed (M.within forms.now.left) (Some kind.now) (view argument.now) name.now line own
        world.old) result world.new }
{
    let fits = has_type(forms, world, kind, argument, own)?;
    let at = world.place(own, line)?;
    accepted(world.heap.alloc(), fits, name, &at)
}
