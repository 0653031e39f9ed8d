//! What the arguments of `lookup` ask for.
ghost use Rattle.std.specs.Prelude.{◌≡◌, [], ◌∷◌, IfOk, Some, option_map};
ghost use Rattle.eval_calls.specs.LookUps as spec;
ghost use Rattle.pp_values.specs.Views.{view, views, pair_views};

use crate::request::{Options, Request};
use hiera_merge::{Merge, member, merge_in};
use pp_values::{Memory, Text, Texts, Value};
use std::alloc::Global;

/// What the arguments ask for; `None` where the function does not take them.
pub fn request_of<'a>(alloc: Global, arguments: &'a [Value]) -> Result<Option<Request<'a>>, Memory>
    ensures { IfOk result (λ o. option_map spec.request_seen o ≡ spec.request_of (views arguments.now)) }
{
    match arguments {
        [] => Ok(None),
        [key, rest @ ..] => match keys_in(alloc, key)? {
            Some(keys) => Ok(with_options(keys, options_in(rest))),
            None => Ok(None),
        },
    }
}

fn with_options<'a>(keys: Texts, options: Option<Options<'a>>) -> Option<Request<'a>>
    ensures { option_map spec.request_seen result
        ≡ spec.request_by (Some keys) (option_map spec.options_seen options.entry) }
{
    match options {
        Some(options) => Some(Request { keys, options }),
        None => None,
    }
}

/// The keys: a text, or a list of texts.
#[tactic(auto, using(expr_eval::proofs::Back::members_back))]
fn keys_in(alloc: Global, value: &Value) -> Result<Option<Texts>, Memory>
    ensures { IfOk result (λ o. o ≡ spec.keys_in (view value.now)) }
{
    match value {
        Value::Text(key) => Ok(Some(one_key(alloc, key)?)),
        Value::List(keys) => texts_in(alloc, keys.as_slice()),
        _ => Ok(None),
    }
}

fn one_key(alloc: Global, key: &Text) -> Result<Texts, Memory>
    ensures { IfOk result (λ l. l ≡ key.now ∷ []) }
{
    let mut keys = Texts::new(alloc);
    keys.push(key.copy(alloc)?)?;
    Ok(keys)
}

/// The texts that these values are; `None` where one is no text.
#[tactic(auto, unfolding(crate::specs::LookUps::keys_from))]
fn texts_in(alloc: Global, values: &[Value]) -> Result<Option<Texts>, Memory>
    ensures { IfOk result (λ o. o ≡ spec.keys_from [] (views values.now)) }
{
    let mut keys = Texts::new(alloc);
    for value in values {
        match value {
            Value::Text(key) => keys.push(key.copy(alloc)?)?,
            _ => return Ok(None),
        }
    }
    Ok(Some(keys))
}

/// What stands behind the key.
fn options_in<'a>(arguments: &'a [Value]) -> Option<Options<'a>>
    ensures { option_map spec.options_seen result ≡ spec.options_in (views arguments.now) }
{
    match arguments {
        [] => options_of(None, None, None),
        [one] => options_in_one(one),
        [data_type, merge] => options_of(Some(data_type), Some(merge), None),
        [data_type, merge, default] => options_of(Some(data_type), Some(merge), Some(default)),
        [_, _, _, _, ..] => None,
    }
}

/// One value alone: a hash of options, or what stands in the place of the type.
#[tactic(auto, using(expr_eval::proofs::Back::pairs_back))]
fn options_in_one<'a>(argument: &'a Value) -> Option<Options<'a>>
    ensures { option_map spec.options_seen result ≡ spec.options_in_one (view argument.now) }
{
    match argument {
        Value::Hash(pairs) => {
            if are_options(pairs.as_slice()) {
                named_options(argument)
            } else {
                None
            }
        }
        _ => options_of(Some(argument), None, None),
    }
}

fn named_options<'a>(options: &'a Value) -> Option<Options<'a>>
    ensures { option_map spec.options_seen result ≡ spec.named_options (view options.now) }
{
    options_of(
        member(options, "value_type"),
        member(options, "merge"),
        member(options, "default_value"),
    )
}

/// Whether a hash of options may have these members.
fn are_options(pairs: &[(Value, Value)]) -> bool
    ensures { result ≡ spec.are_options (pair_views pairs.now) }
{
    for (name, _value) in pairs {
        if !is_option(name) {
            return false;
        }
    }
    true
}

fn is_option(name: &Value) -> bool
    ensures { result ≡ spec.is_option (view name.now) }
{
    match name {
        Value::Text(name) => {
            name.is("value_type") || name.is("merge") || name.is("default_value")
        }
        _ => false,
    }
}

/// The options of what stands in these places; `None` where it may not stand there.
fn options_of<'a>(
    data_type: Option<&'a Value>,
    merge: Option<&Value>,
    default: Option<&'a Value>,
) -> Option<Options<'a>>
    ensures { option_map spec.options_seen result ≡ spec.options_of (option_map spec.value_seen data_type.entry)
        (option_map spec.value_seen merge.entry) (option_map spec.value_seen default.entry) }
{
    let of_type = type_given(data_type)?;
    let merge = merge_given(merge)?;
    Some(Options {
        of_type,
        merge,
        default,
    })
}

/// The data type, where there is one; `None` where something else stands in its place.
fn type_given<'a>(value: Option<&'a Value>) -> Option<Option<&'a Value>>
    ensures { option_map (option_map spec.value_seen) result
        ≡ spec.type_given (option_map spec.value_seen value.entry) }
{
    match value {
        None => Some(None),
        Some(value) => type_in(value),
    }
}

fn type_in<'a>(value: &'a Value) -> Option<Option<&'a Value>>
    ensures { option_map (option_map spec.value_seen) result ≡ spec.type_given (Some (view value.now)) }
{
    match value {
        Value::Undef => Some(None),
        Value::Kind(_) | Value::Ref(_) => Some(Some(value)),
        _ => None,
    }
}

/// The merge, where there is one; `None` where something else stands in its place.
fn merge_given(value: Option<&Value>) -> Option<Option<Merge>>
    ensures { result ≡ spec.merge_given (option_map spec.value_seen value.entry) }
{
    match value {
        None => Some(None),
        Some(value) => merge_of(value),
    }
}

fn merge_of(value: &Value) -> Option<Option<Merge>>
    ensures { result ≡ spec.merge_given (Some (view value.now)) }
{
    match value {
        Value::Undef => Some(None),
        _ => Some(Some(merge_in(value)?)),
    }
}
