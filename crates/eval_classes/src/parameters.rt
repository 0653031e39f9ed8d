//! The parameters of a class or of an instance.
ghost use Rattle.std.specs.Prelude.{◌≡◌, ◌++◌, [], Some, IfOk, codes};
ghost use Rattle.eval_classes.specs.Parameters as spec;
ghost use Rattle.eval_world.specs.Nests.{Nests};
ghost use Rattle.eval_world.specs.Outcomes.{Gives, nothing, same};
ghost use Rattle.pp_values.specs.Faults.{fault};
ghost use Rattle.pp_values.specs.Views.{view};
ghost use Rattle.pp_values.specs.declared.fault.What.TheVariants as what;
ghost use Rattle.res_core.specs.AttributeViews.{set_in};

use crate::attribute_set::AttributeSet;
use crate::attributes::is_value;
use crate::binding::Binding;
use crate::parameter_types::{accepted, has_type};
use eval_world::{Evaluated, Forms, Goal, Here, Meaning, World};
use pp_tree::Param;
use pp_values::{Fault, Memory, Stop, Text, Value, What};
use res_core::Attributes;
use scope_core::ScopeId;
use std::alloc::Global;

/// Binds the parameters in order. The answer is their values by the order of their names.
pub fn bind<F: Fn(&mut World<'_>, Goal<'_>, Here, u32) -> Result<Evaluated, Stop>, M: Meaning>(
    forms: &Forms<F, M>,
    world: &mut World<'_>,
    binding: &Binding,
    params: &[Param],
    own: Here,
) -> Result<Attributes, Stop>
    requires { Nests (M.within forms.now.left) forms.now.left (F.pre forms.now.inner) (F.post forms.now.inner) }
    ensures { Gives same (spec.bind_from (M.within forms.now.left) (set_in binding.now.given) [] params.now
        binding.now.of binding.now.at own world.old) result world.new }
{
    let set = bind_all(forms, world, binding, params, own)?;
    Ok(set.into_attributes(world.heap.alloc())?)
}

#[tactic(auto, unfolding(crate::specs::Parameters::bind_from))]
fn bind_all<F: Fn(&mut World<'_>, Goal<'_>, Here, u32) -> Result<Evaluated, Stop>, M: Meaning>(
    forms: &Forms<F, M>,
    world: &mut World<'_>,
    binding: &Binding,
    params: &[Param],
    own: Here,
) -> Result<AttributeSet, Stop>
    requires { Nests (M.within forms.now.left) forms.now.left (F.pre forms.now.inner) (F.post forms.now.inner) }
    ensures { Gives same (spec.bind_from (M.within forms.now.left) (set_in binding.now.given) [] params.now
        binding.now.of binding.now.at own world.old) result world.new }
{
    let mut done = AttributeSet::for_count(world.heap.alloc(), params.len())?;
    let mut rest = params;
    while let Some((param, more)) = rest.split_first() {
        done = with_param(forms, world, done, binding, param, own)?;
        rest = more;
    }
    Ok(done)
}

/// One parameter: its value, its type, its name in the scope.
#[tactic(auto, unfolding(crate::specs::Parameters::bind_rule))]
fn with_param<F: Fn(&mut World<'_>, Goal<'_>, Here, u32) -> Result<Evaluated, Stop>, M: Meaning>(
    forms: &Forms<F, M>,
    world: &mut World<'_>,
    done: AttributeSet,
    binding: &Binding,
    param: &Param,
    own: Here,
) -> Result<AttributeSet, Stop>
    requires { Nests (M.within forms.now.left) forms.now.left (F.pre forms.now.inner) (F.post forms.now.inner) }
    ensures { Gives same (spec.bind_rule (M.within forms.now.left) (set_in binding.now.given) done param.now
        binding.now.of binding.now.at own world.old) result world.new }
{
    let value = value(forms, world, binding, param, own)?;
    check_type(forms, world, binding, param, value.as_value(), own)?;
    let kept = Evaluated::copy_of(world.heap.alloc(), value.as_value())?;
    world.assign(own, &param.name, value, param.at)?;
    let name = param.name.copy(world.heap.alloc())?;
    Ok(done.with(name, kept)?)
}

/// Where the parameter has a type, its value is of it, else F8.
fn check_type<F: Fn(&mut World<'_>, Goal<'_>, Here, u32) -> Result<Evaluated, Stop>, M: Meaning>(
    forms: &Forms<F, M>,
    world: &mut World<'_>,
    binding: &Binding,
    param: &Param,
    value: &Value,
    own: Here,
) -> Result<(), Stop>
    requires { Nests (M.within forms.now.left) forms.now.left (F.pre forms.now.inner) (F.post forms.now.inner) }
    ensures { Gives nothing (spec.typed (M.within forms.now.left) param.now.kind (view value.now) param.now.name
        binding.now.at own world.old) result world.new }
{
    match &param.kind {
        None => Ok(()),
        Some(kind) => {
            let fits = has_type(forms, world, kind, value, own)?;
            accepted(world.heap.alloc(), fits, &param.name, &binding.at)
        }
    }
}

/// What was given, and else what stands behind it.
#[tactic(auto, unfolding(crate::specs::Parameters::value_rule))]
fn value<F: Fn(&mut World<'_>, Goal<'_>, Here, u32) -> Result<Evaluated, Stop>, M: Meaning>(
    forms: &Forms<F, M>,
    world: &mut World<'_>,
    binding: &Binding,
    param: &Param,
    own: Here,
) -> Result<Evaluated, Stop>
    requires { Nests (M.within forms.now.left) forms.now.left (F.pre forms.now.inner) (F.post forms.now.inner) }
    ensures { Gives same (spec.value_rule (M.within forms.now.left) (set_in binding.now.given) param.now binding.now.of
        binding.now.at own world.old) result world.new }
{
    match given_value(world.heap.alloc(), &binding.given, &param.name)? {
        Some(value) => Ok(value),
        None => data_or_default(forms, world, binding, param, own),
    }
}

/// What was given for a parameter, where that counts.
fn given_value(alloc: Global, given: &Attributes, name: &Text) -> Result<Option<Evaluated>, Memory>
    ensures { IfOk result (λ o. o ≡ spec.counted (set_in given.now name.now)) }
{
    match given.get(name) {
        Some(value) => counted_copy(alloc, value),
        None => Ok(None),
    }
}

fn counted_copy(alloc: Global, value: &Value) -> Result<Option<Evaluated>, Memory>
    ensures { IfOk result (λ o. o ≡ spec.counted (Some (view value.now))) }
{
    if is_value(value) {
        return Ok(Some(Evaluated::copy_of(alloc, value)?));
    }
    Ok(None)
}

/// What the site's data have, and else the default.
#[tactic(auto, unfolding(crate::specs::Parameters::data_or_default))]
fn data_or_default<
    F: Fn(&mut World<'_>, Goal<'_>, Here, u32) -> Result<Evaluated, Stop>,
    M: Meaning,
>(
    forms: &Forms<F, M>,
    world: &mut World<'_>,
    binding: &Binding,
    param: &Param,
    own: Here,
) -> Result<Evaluated, Stop>
    requires { Nests (M.within forms.now.left) forms.now.left (F.pre forms.now.inner) (F.post forms.now.inner) }
    ensures { Gives same (spec.data_or_default (M.within forms.now.left) param.now binding.now.of binding.now.at own
        world.old) result world.new }
{
    let found = data_value(world, binding, &param.name)?;
    match counted(found) {
        Some(value) => Ok(value),
        None => default_of(forms, world, binding, param, own),
    }
}

/// What the site's data have for a class's parameter, looked up in top scope. Nothing is looked up for an instance.
fn data_value(world: &World<'_>, binding: &Binding, name: &Text) -> Result<Option<Evaluated>, Stop>
    ensures { Gives same (spec.data_rule binding.now.of name.now binding.now.at world.now) result world.now }
{
    if binding.of.kind.as_text().is("class") {
        let key = data_key(world.heap.alloc(), &binding.of.title, name)?;
        return world.look_up(ScopeId::TOP, &key, None, &binding.at);
    }
    Ok(None)
}

/// The key of a parameter of this class.
fn data_key(alloc: Global, class: &Text, name: &Text) -> Result<Text, Memory>
    ensures { IfOk result (λ k. k ≡ class.now ++ codes "::" ++ name.now) }
{
    let (class, name) = (class.as_str(), name.as_str());
    let room = class.len().saturating_add(name.len()).saturating_add(2);
    let mut key = String::with_capacity(alloc, room)?;
    key.push_str(class)?;
    key.push_str("::")?;
    key.push_str(name)?;
    Ok(Text::new(key))
}

/// The value, unless it is Undef.
fn counted(found: Option<Evaluated>) -> Option<Evaluated>
    ensures { result ≡ spec.counted found }
{
    match found {
        Some(value) => counted_value(value),
        None => None,
    }
}

fn counted_value(value: Evaluated) -> Option<Evaluated>
    ensures { result ≡ spec.counted (Some value) }
{
    if is_value(value.as_value()) {
        return Some(value);
    }
    None
}

/// The default, or F9.
fn default_of<F: Fn(&mut World<'_>, Goal<'_>, Here, u32) -> Result<Evaluated, Stop>, M: Meaning>(
    forms: &Forms<F, M>,
    world: &mut World<'_>,
    binding: &Binding,
    param: &Param,
    own: Here,
) -> Result<Evaluated, Stop>
    requires { Nests (M.within forms.now.left) forms.now.left (F.pre forms.now.inner) (F.post forms.now.inner) }
    ensures { Gives same (spec.default_rule (M.within forms.now.left) param.now.default binding.now.of param.now.name
        binding.now.at own world.old) result world.new }
{
    match &param.default {
        Some(default) => forms.value(world, default, own),
        None => Err(Stop::Fault(missing(world.heap.alloc(), binding, &param.name)?)),
    }
}

fn missing(alloc: Global, binding: &Binding, name: &Text) -> Result<Fault, Memory>
    ensures { IfOk result (λ f. f ≡ fault binding.now.at (what.MissingParameter binding.now.of name.now)) }
{
    let at = binding.at.copy(alloc)?;
    let reference = binding.of.copy(alloc)?;
    let name = name.copy(alloc)?;
    Fault::new(alloc, at, What::MissingParameter { reference, name })
}
