//! What is wanted of a resource, against what is recorded.
ghost use Rattle.std.specs.Prelude.{◌≡◌, false, if◌then◌else◌, is_ok, IsTrue, IfOk, OnErr, option_map, option_copied};
ghost use Rattle.pp_values.specs.Plain.{is_plain_value};
ghost use Rattle.pp_values.specs.Views.{view};
ghost use Rattle.agent_machine.specs.Forms.{form_of};
ghost use Rattle.agent_machine.specs.States.{is_ensure, counts_as, ensure_word, service_word, ensure_in, is_ensured, is_recorded, removes, has, written};

use crate::form::{Form, is_word};
use crate::properties::Properties;
use crate::states::States;
use pp_ops::is_same;
use pp_values::{Kind, Memory, Reference, Text, Value};
use std::alloc::Global;

/// Whether the resource has the property at the wanted value.
#[tactic(auto, unfolding(crate::specs::States::has))]
pub fn has(state: &States, what: &Reference, name: &Text, value: &Value) -> bool
    ensures { result ≡ has what.now name.now (view value.now) state.now }
{
    if is_ensure(name) {
        is_ensured(
            ensure_word(&what.kind, value),
            ensure_in(name, state.get(what)),
        )
    } else {
        is_recorded(name, value, state.get(what))
    }
}

fn is_ensure(name: &Text) -> bool
    ensures { result ≡ is_ensure name.now }
{
    name.is("ensure")
}

/// What a wanted `ensure` counts as.
fn ensure_word<'a>(kind: &Kind, value: &'a Value) -> Form<'a>
    ensures { form_of result ≡ ensure_word kind.now (view value.now) }
{
    if is_word(value, "installed") {
        Form::Word("present")
    } else if kind.is("service") {
        service_word(value)
    } else {
        Form::Given(value)
    }
}

fn service_word(value: &Value) -> Form<'_>
    ensures { form_of result ≡ service_word (view value.now) }
{
    match value {
        Value::Flag(true) => Form::Word("running"),
        Value::Flag(false) => Form::Word("stopped"),
        _ => Form::Given(value),
    }
}

/// The current `ensure`.
fn ensure_in<'a>(name: &Text, known: Option<&'a Properties>) -> Form<'a>
    ensures { form_of result ≡ ensure_in name.now (option_copied known.entry) }
{
    match known {
        Some(properties) => match properties.get(name) {
            Some(value) => Form::Given(value),
            None => Form::Word("present"),
        },
        None => Form::Word("absent"),
    }
}

fn is_ensured(wanted: Form<'_>, current: Form<'_>) -> bool
    ensures { result ≡ is_ensured (form_of wanted.entry) (form_of current.entry) }
{
    if wanted.is_word("present") {
        !current.is_word("absent")
    } else {
        current.is_same(wanted)
    }
}

fn is_recorded(name: &Text, value: &Value, known: Option<&Properties>) -> bool
    ensures { result ≡ is_recorded name.now (view value.now) (option_copied known.entry) }
{
    match known {
        Some(properties) => match properties.get(name) {
            Some(own) => is_same(own, value),
            None => false,
        },
        None => false,
    }
}

/// Whether the write of a wanted value removes the record.
pub fn removes(name: &Text, value: &Value) -> bool
    ensures { result ≡ removes name.now (view value.now) }
{
    is_ensure(name) && is_word(value, "absent")
}

/// Writes a wanted value. Where there is no memory, the state stays as it was.
#[tactic(auto, unfolding(crate::specs::States::written))]
pub fn write(
    alloc: Global,
    state: &mut States,
    what: &Reference,
    name: &Text,
    value: &Value,
) -> Result<(), Memory>
    requires { IsTrue (is_plain_value (view value.now)) }
    ensures state { state.new ≡ (if is_ok result then written what.now name.now (view value.now) state.old else state.old) }
    ensures memory { OnErr result (removes name.now (view value.now) ≡ false) }
{
    if removes(name, value) {
        state.remove(what);
        Ok(())
    } else {
        let value = counts_as(alloc, what, name, value)?;
        state.set(alloc, what, name, value)
    }
}

/// What a wanted value counts as.
fn counts_as(alloc: Global, what: &Reference, name: &Text, value: &Value) -> Result<Value, Memory>
    requires { IsTrue (is_plain_value (view value.now)) }
    ensures value { IfOk result (λ v. view v ≡ counts_as what.now name.now (view value.now)) }
    ensures plain { IfOk result (λ v. IsTrue (is_plain_value (view v))) }
{
    let form = if is_ensure(name) {
        ensure_word(&what.kind, value)
    } else {
        Form::Given(value)
    };
    let value = form.to_value(alloc)?;
    Ok(value)
}
