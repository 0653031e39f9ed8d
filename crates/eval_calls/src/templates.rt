//! Templates: what is given to one, and its text.
ghost use Rattle.std.specs.Prelude.{◌≡◌, IfOk, Some, option_map};
ghost use Rattle.eval_calls.specs.Templates as spec;
ghost use Rattle.eval_world.specs.Nests.{Nests};
ghost use Rattle.eval_world.specs.Outcomes.{Gives, nothing, same};
ghost use Rattle.eval_calls.specs.Renderings.{rendering_seen};
ghost use Rattle.pp_values.specs.Datum as d;
ghost use Rattle.pp_values.specs.Faults.{fault};
ghost use Rattle.pp_values.specs.Keys.{same_key};
ghost use Rattle.pp_values.specs.Views.{view, pair_views};
ghost use Rattle.pp_values.specs.declared.fault.What.TheVariants as what;

use crate::functions::{bind_one, default_value};
use crate::rendering::Rendering;
use crate::variable_names::is_variable;
use eval_world::{Evaluated, Forms, Goal, Here, Meaning, World};
use pp_tree::{Block, Expr, Param, Template};
use pp_values::{Fault, Memory, Place, Stop, Text, Value, What};
use std::alloc::Global;

/// The line at which a template is refused that stands too deep.
const FIRST_LINE: u32 = 1;

/// The text of a template, in the scope that it is rendered in: what is given to it is set there, and its block stands one
/// level further in.
#[tactic(auto, unfolding(crate::specs::Templates::template_rule))]
pub fn template<F: Fn(&mut World<'_>, Goal<'_>, Here, u32) -> Result<Evaluated, Stop>, M: Meaning>(
    forms: &Forms<F, M>,
    world: &mut World<'_>,
    rendering: &Rendering<'_>,
    own: Here,
) -> Result<Evaluated, Stop>
    requires { Nests (M.within forms.now.left) forms.now.left (F.pre forms.now.inner) (F.post forms.now.inner) }
    ensures { Gives same (spec.template_rule (M.within forms.now.left) (rendering_seen rendering.now) own world.old) result
        world.new }
{
    let alloc = world.heap.alloc();
    let read = world
        .environment
        .template(alloc, rendering.file, rendering.text)?;
    written(forms, world, read.get(), rendering, own)
}

/// The text of a template by its tree.
#[tactic(auto, unfolding(crate::specs::Templates::written_rule))]
fn written<F: Fn(&mut World<'_>, Goal<'_>, Here, u32) -> Result<Evaluated, Stop>, M: Meaning>(
    forms: &Forms<F, M>,
    world: &mut World<'_>,
    read: &Template,
    rendering: &Rendering<'_>,
    own: Here,
) -> Result<Evaluated, Stop>
    requires { Nests (M.within forms.now.left) forms.now.left (F.pre forms.now.inner) (F.post forms.now.inner) }
    ensures { Gives same (spec.written_rule (M.within forms.now.left) read.now (rendering_seen rendering.now) own world.old)
        result world.new }
{
    give(forms, world, read, rendering, own)?;
    let text = rendered(forms, world, &read.block, own)?;
    Ok(Evaluated::new(Value::Text(text)))
}

/// The text that a template's statements emit. What was emitted before is put apart meanwhile.
#[tactic(auto, unfolding(crate::specs::Templates::rendered_rule))]
fn rendered<F: Fn(&mut World<'_>, Goal<'_>, Here, u32) -> Result<Evaluated, Stop>, M: Meaning>(
    forms: &Forms<F, M>,
    world: &mut World<'_>,
    statements: &Block,
    own: Here,
) -> Result<Text, Stop>
    requires { Nests (M.within forms.now.left) forms.now.left (F.pre forms.now.inner) (F.post forms.now.inner) }
    ensures { Gives (λ t. d.text t) (spec.rendered_rule (M.within forms.now.left) statements.now own world.old) result
        world.new }
{
    let before = world.begin_rendering();
    drop(forms.block(world, statements, FIRST_LINE, own)?);
    Ok(world.end_rendering(before).into_text())
}

/// Sets the parameters of a template, or, where it declares none, each name that is given.
fn give<F: Fn(&mut World<'_>, Goal<'_>, Here, u32) -> Result<Evaluated, Stop>, M: Meaning>(
    forms: &Forms<F, M>,
    world: &mut World<'_>,
    read: &Template,
    rendering: &Rendering<'_>,
    own: Here,
) -> Result<(), Stop>
    requires { Nests (M.within forms.now.left) forms.now.left (F.pre forms.now.inner) (F.post forms.now.inner) }
    ensures { Gives nothing (spec.given_by (M.within forms.now.left) read.now.params
        (spec.pairs_given (rendering_seen rendering.now).given) (rendering_seen rendering.now) own world.old) result
        world.new }
{
    let given = pairs_given(rendering.given);
    match &read.params {
        Some(params) => give_params(forms, world, params.as_slice(), given, rendering, own),
        None => set_names(world, given, rendering.at, own),
    }
}

/// The pairs of a hash; none of another value.
#[tactic(auto, using(crate::proofs::Pairs::pairs_back))]
pub fn pairs_within(facts: &Value) -> &[(Value, Value)]
    ensures { pair_views result.now ≡ spec.pairs_within (view facts.now) }
{
    match facts {
        Value::Hash(pairs) => pairs.as_slice(),
        _ => &[],
    }
}

fn pairs_given<'a>(given: Option<&'a Value>) -> &'a [(Value, Value)]
    ensures { pair_views result.now ≡ spec.pairs_given (option_map (λ v. view v.now) given.entry) }
{
    match given {
        Some(value) => pairs_within(value),
        None => &[],
    }
}

/// F7 where a key is no parameter, or a parameter has neither a value nor a default.
fn give_params<F: Fn(&mut World<'_>, Goal<'_>, Here, u32) -> Result<Evaluated, Stop>, M: Meaning>(
    forms: &Forms<F, M>,
    world: &mut World<'_>,
    params: &[Param],
    given: &[(Value, Value)],
    rendering: &Rendering<'_>,
    own: Here,
) -> Result<(), Stop>
    requires { Nests (M.within forms.now.left) forms.now.left (F.pre forms.now.inner) (F.post forms.now.inner) }
    ensures { Gives nothing (spec.given_by (M.within forms.now.left) (Some params.now) (pair_views given.now)
        (rendering_seen rendering.now) own world.old) result world.new }
{
    if are_taken(params, given) {
        return bind_params(forms, world, params, given, rendering.at, own);
    }
    Err(Stop::Fault(not_taken(world.heap.alloc(), rendering)?))
}

fn not_taken(alloc: Global, rendering: &Rendering<'_>) -> Result<Fault, Memory>
    ensures { IfOk result (λ f. f ≡ fault rendering.now.at.now (what.WrongArguments rendering.now.function.now)) }
{
    let at = rendering.at.copy(alloc)?;
    let function = rendering.function.copy(alloc)?;
    Fault::new(alloc, at, What::WrongArguments(function))
}

/// Whether each key is the name of a parameter, and each parameter has a value or a default.
fn are_taken(params: &[Param], given: &[(Value, Value)]) -> bool
    ensures { result ≡ spec.are_taken params.now (pair_views given.now) }
{
    are_params(params, given) && are_given(given, params)
}

#[tactic(auto, unfolding(crate::specs::Templates::are_params))]
fn are_params(params: &[Param], given: &[(Value, Value)]) -> bool
    ensures { result ≡ spec.are_params params.now (pair_views given.now) }
{
    let mut rest = given;
    while let Some((pair, more)) = rest.split_first() {
        if !is_param(params, &pair.0) {
            return false;
        }
        rest = more;
    }
    true
}

fn is_param(params: &[Param], key: &Value) -> bool
    ensures { result ≡ spec.is_param params.now (view key.now) }
{
    match key {
        Value::Text(name) => has_param(params, name),
        _ => false,
    }
}

#[tactic(auto, unfolding(crate::specs::Templates::has_param))]
fn has_param(params: &[Param], name: &Text) -> bool
    ensures { result ≡ spec.has_param params.now name.now }
{
    let mut rest = params;
    while let Some((param, more)) = rest.split_first() {
        if param.name.is(name.as_str()) {
            return true;
        }
        rest = more;
    }
    false
}

#[tactic(auto, unfolding(crate::specs::Templates::are_given))]
fn are_given(given: &[(Value, Value)], params: &[Param]) -> bool
    ensures { result ≡ spec.are_given (pair_views given.now) params.now }
{
    let mut rest = params;
    while let Some((param, more)) = rest.split_first() {
        if !has_value(given_for(given, &param.name), &param.default) {
            return false;
        }
        rest = more;
    }
    true
}

fn has_value(given: Option<&Value>, default: &Option<Expr>) -> bool
    ensures { result ≡ spec.has_value (option_map (λ v. view v.now) given.entry) default.now }
{
    match given {
        Some(_value) => true,
        None => default.is_some(),
    }
}

/// What is given for a name.
fn given_for<'a>(given: &'a [(Value, Value)], name: &Text) -> Option<&'a Value>
    ensures { option_map (λ v. view v.now) result ≡ spec.given_for name.now (pair_views given.now) }
{
    for (key, value) in given {
        if is_text(key, name) {
            return Some(value);
        }
    }
    None
}

fn is_text(key: &Value, name: &Text) -> bool
    ensures { result ≡ same_key (d.text name.now) (view key.now) }
{
    match key {
        Value::Text(text) => name.is(text.as_str()),
        _ => false,
    }
}

/// Sets the parameters in order.
#[tactic(auto, unfolding(crate::specs::Templates::params_from))]
fn bind_params<F: Fn(&mut World<'_>, Goal<'_>, Here, u32) -> Result<Evaluated, Stop>, M: Meaning>(
    forms: &Forms<F, M>,
    world: &mut World<'_>,
    params: &[Param],
    given: &[(Value, Value)],
    at: &Place,
    own: Here,
) -> Result<(), Stop>
    requires { Nests (M.within forms.now.left) forms.now.left (F.pre forms.now.inner) (F.post forms.now.inner) }
    ensures { Gives nothing (spec.params_from (M.within forms.now.left) params.now (pair_views given.now) at.now own
        world.old) result world.new }
{
    let mut rest = params;
    while let Some((param, more)) = rest.split_first() {
        bind_param(forms, world, param, given, at, own)?;
        rest = more;
    }
    Ok(())
}

#[tactic(auto, unfolding(crate::specs::Templates::param_rule))]
fn bind_param<F: Fn(&mut World<'_>, Goal<'_>, Here, u32) -> Result<Evaluated, Stop>, M: Meaning>(
    forms: &Forms<F, M>,
    world: &mut World<'_>,
    param: &Param,
    given: &[(Value, Value)],
    at: &Place,
    own: Here,
) -> Result<(), Stop>
    requires { Nests (M.within forms.now.left) forms.now.left (F.pre forms.now.inner) (F.post forms.now.inner) }
    ensures { Gives nothing (spec.param_rule (M.within forms.now.left) param.now (pair_views given.now) at.now own
        world.old) result world.new }
{
    let said = given_for(given, &param.name);
    let value = value_or_default(forms, world, said, &param.default, own)?;
    bind_one(forms, world, param, value, at, own)
}

fn value_or_default<
    F: Fn(&mut World<'_>, Goal<'_>, Here, u32) -> Result<Evaluated, Stop>,
    M: Meaning,
>(
    forms: &Forms<F, M>,
    world: &mut World<'_>,
    given: Option<&Value>,
    default: &Option<Expr>,
    own: Here,
) -> Result<Evaluated, Stop>
    requires { Nests (M.within forms.now.left) forms.now.left (F.pre forms.now.inner) (F.post forms.now.inner) }
    ensures { Gives same (spec.value_or_default (M.within forms.now.left) (option_map (λ v. view v.now) given.entry)
        default.now own world.old) result world.new }
{
    match given {
        Some(value) => unless_undef(forms, world, value, default, own),
        None => default_value(forms, world, default, own),
    }
}

/// The value, but where it is Undef the default.
fn unless_undef<F: Fn(&mut World<'_>, Goal<'_>, Here, u32) -> Result<Evaluated, Stop>, M: Meaning>(
    forms: &Forms<F, M>,
    world: &mut World<'_>,
    value: &Value,
    default: &Option<Expr>,
    own: Here,
) -> Result<Evaluated, Stop>
    requires { Nests (M.within forms.now.left) forms.now.left (F.pre forms.now.inner) (F.post forms.now.inner) }
    ensures { Gives same (spec.unless_undef (M.within forms.now.left) (view value.now) default.now own world.old) result
        world.new }
{
    match value {
        Value::Undef => default_value(forms, world, default, own),
        _ => Ok(Evaluated::copy_of(world.heap.alloc(), value)?),
    }
}

/// Sets each name that is given and is one of a variable.
#[tactic(auto, unfolding(crate::specs::Templates::names_from))]
fn set_names(
    world: &mut World<'_>,
    given: &[(Value, Value)],
    at: &Place,
    own: Here,
) -> Result<(), Stop>
    ensures { Gives nothing (spec.names_from (pair_views given.now) at.now own world.old) result world.new }
{
    let mut rest = given;
    while let Some((pair, more)) = rest.split_first() {
        set_name(world, &pair.0, &pair.1, at, own)?;
        rest = more;
    }
    Ok(())
}

fn set_name(
    world: &mut World<'_>,
    name: &Value,
    value: &Value,
    at: &Place,
    own: Here,
) -> Result<(), Stop>
    ensures { Gives nothing (spec.name_by (view name.now) (view value.now) at.now own world.old) result world.new }
{
    match name {
        Value::Text(name) if is_variable(name.as_str().as_bytes()) => {
            let value = Evaluated::copy_of(world.heap.alloc(), value)?;
            world.assign_at(own, name, value, at)
        }
        _ => Ok(()),
    }
}
