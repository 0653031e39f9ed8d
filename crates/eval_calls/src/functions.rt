//! Calls of functions that the site defines.
ghost use Rattle.std.specs.Prelude.{◌≡◌, IfOk};
ghost use Rattle.eval_calls.specs.Functions as spec;
ghost use Rattle.eval_classes.specs.Parameters.{typed};
ghost use Rattle.eval_world.specs.Nests.{Nests};
ghost use Rattle.eval_world.specs.Outcomes.{Gives, nothing, same};
ghost use Rattle.pp_values.specs.Faults.{fault};
ghost use Rattle.pp_values.specs.Views.{view, views};
ghost use Rattle.pp_values.specs.declared.fault.What.TheVariants as what;

use crate::names::{unknown, wrong};
use eval_classes::{SiteFunction, accepted, function_found, has_type};
use eval_world::{Evaluated, Forms, Goal, Here, Meaning, World};
use expr_eval::is_of;
use pp_tree::{Expr, Param};
use pp_values::{Fault, Memory, Place, Stop, Text, Value, Values, What};
use std::alloc::Global;

/// A call of the function of this name, where the site defines one.
#[tactic(auto, unfolding(crate::specs::Functions::defined_rule))]
pub fn call_defined<
    F: Fn(&mut World<'_>, Goal<'_>, Here, u32) -> Result<Evaluated, Stop>,
    M: Meaning,
>(
    forms: &Forms<F, M>,
    world: &mut World<'_>,
    name: &Text,
    arguments: Values,
    line: u32,
    here: Here,
) -> Result<Evaluated, Stop>
    requires { Nests (M.within forms.now.left) forms.now.left (F.pre forms.now.inner) (F.post forms.now.inner) }
    ensures { Gives same (spec.defined_rule (M.within forms.now.left) name.now arguments line here world.old) result
        world.new }
{
    match function_found(world.heap.alloc(), &world.environment, name)? {
        Some(found) => {
            let at = world.place(here, line)?;
            call_function(forms, world, &found, name, arguments, &at)
        }
        None => Err(Stop::Fault(unknown(world, name, line, here)?)),
    }
}

/// The fault of a lambda that is handed to a function which is none of the listed ones.
#[tactic(auto, unfolding(crate::specs::Functions::lambda_refused))]
pub fn refuse_defined(
    world: &World<'_>,
    name: &Text,
    line: u32,
    here: Here,
) -> Result<Evaluated, Stop>
    ensures { Gives same (spec.lambda_refused name.now line here world.now) result world.now }
{
    match function_found(world.heap.alloc(), &world.environment, name)? {
        Some(_found) => Err(Stop::Fault(wrong(world, name, line, here)?)),
        None => Err(Stop::Fault(unknown(world, name, line, here)?)),
    }
}

/// A call of a function with these arguments, which move into its parameters. Its faults stand at the call's place.
#[tactic(auto, unfolding(crate::specs::Functions::function_rule))]
fn call_function<F: Fn(&mut World<'_>, Goal<'_>, Here, u32) -> Result<Evaluated, Stop>, M: Meaning>(
    forms: &Forms<F, M>,
    world: &mut World<'_>,
    found: &SiteFunction<'_>,
    name: &Text,
    arguments: Values,
    at: &Place,
) -> Result<Evaluated, Stop>
    requires { Nests (M.within forms.now.left) forms.now.left (F.pre forms.now.inner) (F.post forms.now.inner) }
    ensures { Gives same (spec.function_rule (M.within forms.now.left) (found.now.function.now, found.now.file)
        name.now arguments at.now world.old) result world.new }
{
    let params = found.function.params.as_slice();
    if taken_by(arguments.as_slice(), params) {
        return run_function(forms, world, found, name, arguments, at);
    }
    Err(Stop::Fault(wrong_at(world.heap.alloc(), name, at)?))
}

fn wrong_at(alloc: Global, name: &Text, at: &Place) -> Result<Fault, Memory>
    ensures { IfOk result (λ f. f ≡ fault at.now (what.WrongArguments name.now)) }
{
    let at = at.copy(alloc)?;
    let name = name.copy(alloc)?;
    Fault::new(alloc, at, What::WrongArguments(name))
}

/// Whether these values are not more than there are parameters, and each parameter that is left over has a default.
#[tactic(auto, unfolding(crate::specs::Functions::taken_by))]
fn taken_by(arguments: &[Value], params: &[Param]) -> bool
    ensures { result ≡ spec.taken_by (views arguments.now) params.now }
{
    let mut left = arguments;
    let mut rest = params;
    while let Some((_argument, after)) = left.split_first() {
        let Some((_param, more)) = rest.split_first() else {
            return false;
        };
        left = after;
        rest = more;
    }
    have_defaults(rest)
}

#[tactic(auto, unfolding(crate::specs::Functions::have_defaults))]
fn have_defaults(params: &[Param]) -> bool
    ensures { result ≡ spec.have_defaults params.now }
{
    let mut rest = params;
    while let Some((param, more)) = rest.split_first() {
        match &param.default {
            Some(_default) => rest = more,
            None => return false,
        }
    }
    true
}

/// The parameters, the body, and the test of what it gives, in a scope that ends with the call.
#[tactic(auto, unfolding(crate::specs::Functions::run_function))]
fn run_function<F: Fn(&mut World<'_>, Goal<'_>, Here, u32) -> Result<Evaluated, Stop>, M: Meaning>(
    forms: &Forms<F, M>,
    world: &mut World<'_>,
    found: &SiteFunction<'_>,
    name: &Text,
    arguments: Values,
    at: &Place,
) -> Result<Evaluated, Stop>
    requires { Nests (M.within forms.now.left) forms.now.left (F.pre forms.now.inner) (F.post forms.now.inner) }
    ensures { Gives same (spec.run_function (M.within forms.now.left) (found.now.function.now, found.now.file)
        name.now arguments at.now world.old) result world.new }
{
    let function = found.function;
    let own = world.enter_function(&found.file)?;
    bind(forms, world, function.params.as_slice(), arguments, at, own)?;
    let value = forms.block(world, &function.block, function.at, own)?;
    check_result(
        forms,
        world,
        &function.return_type,
        value.as_value(),
        name,
        at,
        own,
    )?;
    world.leave(own);
    Ok(value)
}

/// Sets each parameter to its argument, and those that are left over to their defaults.
#[tactic(auto, unfolding(crate::specs::Functions::bind_from))]
fn bind<F: Fn(&mut World<'_>, Goal<'_>, Here, u32) -> Result<Evaluated, Stop>, M: Meaning>(
    forms: &Forms<F, M>,
    world: &mut World<'_>,
    params: &[Param],
    arguments: Values,
    at: &Place,
    own: Here,
) -> Result<(), Stop>
    requires { Nests (M.within forms.now.left) forms.now.left (F.pre forms.now.inner) (F.post forms.now.inner) }
    ensures { Gives nothing (spec.bind_from (M.within forms.now.left) params.now arguments at.now own world.old) result
        world.new }
{
    let mut params = params;
    let mut left = arguments.into_vec().into_iter();
    while let Some((param, more)) = params.split_first() {
        let Some(argument) = left.next() else {
            return bind_defaults(forms, world, params, at, own);
        };
        bind_one(forms, world, param, Evaluated::new(argument), at, own)?;
        params = more;
    }
    Ok(())
}

/// Sets each parameter to its default.
#[tactic(auto, unfolding(crate::specs::Functions::defaults_from))]
fn bind_defaults<F: Fn(&mut World<'_>, Goal<'_>, Here, u32) -> Result<Evaluated, Stop>, M: Meaning>(
    forms: &Forms<F, M>,
    world: &mut World<'_>,
    params: &[Param],
    at: &Place,
    own: Here,
) -> Result<(), Stop>
    requires { Nests (M.within forms.now.left) forms.now.left (F.pre forms.now.inner) (F.post forms.now.inner) }
    ensures { Gives nothing (spec.defaults_from (M.within forms.now.left) params.now at.now own world.old) result
        world.new }
{
    let mut rest = params;
    while let Some((param, more)) = rest.split_first() {
        bind_default(forms, world, param, at, own)?;
        rest = more;
    }
    Ok(())
}

#[tactic(auto, unfolding(crate::specs::Functions::default_rule))]
fn bind_default<F: Fn(&mut World<'_>, Goal<'_>, Here, u32) -> Result<Evaluated, Stop>, M: Meaning>(
    forms: &Forms<F, M>,
    world: &mut World<'_>,
    param: &Param,
    at: &Place,
    own: Here,
) -> Result<(), Stop>
    requires { Nests (M.within forms.now.left) forms.now.left (F.pre forms.now.inner) (F.post forms.now.inner) }
    ensures { Gives nothing (spec.default_rule (M.within forms.now.left) param.now at.now own world.old) result world.new }
{
    let value = default_value(forms, world, &param.default, own)?;
    bind_one(forms, world, param, value, at, own)
}

/// The default of a parameter, one level further in, and Undef where it has none.
pub fn default_value<
    F: Fn(&mut World<'_>, Goal<'_>, Here, u32) -> Result<Evaluated, Stop>,
    M: Meaning,
>(
    forms: &Forms<F, M>,
    world: &mut World<'_>,
    default: &Option<Expr>,
    own: Here,
) -> Result<Evaluated, Stop>
    requires { Nests (M.within forms.now.left) forms.now.left (F.pre forms.now.inner) (F.post forms.now.inner) }
    ensures { Gives same (spec.default_value (M.within forms.now.left) default.now own world.old) result world.new }
{
    match default {
        Some(default) => forms.value(world, default, own),
        None => Ok(Evaluated::new(Value::Undef)),
    }
}

/// A parameter with its value: its type, and then its name. F8 stands at the call.
#[tactic(auto, unfolding(crate::specs::Functions::bind_rule))]
pub fn bind_one<F: Fn(&mut World<'_>, Goal<'_>, Here, u32) -> Result<Evaluated, Stop>, M: Meaning>(
    forms: &Forms<F, M>,
    world: &mut World<'_>,
    param: &Param,
    value: Evaluated,
    at: &Place,
    own: Here,
) -> Result<(), Stop>
    requires { Nests (M.within forms.now.left) forms.now.left (F.pre forms.now.inner) (F.post forms.now.inner) }
    ensures { Gives nothing (spec.bind_rule (M.within forms.now.left) param.now value at.now own world.old) result
        world.new }
{
    check_type(forms, world, param, value.as_value(), at, own)?;
    world.assign(own, &param.name, value, param.at)
}

/// Where the parameter has a type, its value is of it, else F8 at the call.
fn check_type<F: Fn(&mut World<'_>, Goal<'_>, Here, u32) -> Result<Evaluated, Stop>, M: Meaning>(
    forms: &Forms<F, M>,
    world: &mut World<'_>,
    param: &Param,
    value: &Value,
    at: &Place,
    own: Here,
) -> Result<(), Stop>
    requires { Nests (M.within forms.now.left) forms.now.left (F.pre forms.now.inner) (F.post forms.now.inner) }
    ensures { Gives nothing (typed (M.within forms.now.left) param.now.kind (view value.now) param.now.name at.now own
        world.old) result world.new }
{
    match &param.kind {
        None => Ok(()),
        Some(kind) => {
            let fits = has_type(forms, world, kind, value, own)?;
            accepted(world.heap.alloc(), fits, &param.name, at)
        }
    }
}

/// Where the function has a type, what it gives is of it, else F8 at the call.
fn check_result<F: Fn(&mut World<'_>, Goal<'_>, Here, u32) -> Result<Evaluated, Stop>, M: Meaning>(
    forms: &Forms<F, M>,
    world: &mut World<'_>,
    kind: &Option<Expr>,
    value: &Value,
    name: &Text,
    at: &Place,
    own: Here,
) -> Result<(), Stop>
    requires { Nests (M.within forms.now.left) forms.now.left (F.pre forms.now.inner) (F.post forms.now.inner) }
    ensures { Gives nothing (spec.result_typed (M.within forms.now.left) kind.now (view value.now) name.now at.now own
        world.old) result world.new }
{
    match kind {
        None => Ok(()),
        Some(kind) => {
            let fits = is_result(forms, world, kind, value, own)?;
            accepted(world.heap.alloc(), fits, name, at)
        }
    }
}

#[tactic(auto, unfolding(crate::specs::Functions::is_result))]
fn is_result<F: Fn(&mut World<'_>, Goal<'_>, Here, u32) -> Result<Evaluated, Stop>, M: Meaning>(
    forms: &Forms<F, M>,
    world: &mut World<'_>,
    kind: &Expr,
    value: &Value,
    own: Here,
) -> Result<bool, Stop>
    requires { Nests (M.within forms.now.left) forms.now.left (F.pre forms.now.inner) (F.post forms.now.inner) }
    ensures { Gives same (spec.is_result (M.within forms.now.left) kind.now (view value.now) own world.old) result
        world.new }
{
    let of_kind = forms.value(world, kind, own)?;
    let at = world.place(own, kind.at)?;
    is_of(world.heap.alloc(), value, of_kind.as_value(), &at)
}
