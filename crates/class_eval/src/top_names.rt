//! What top scope holds before evaluation.
ghost use Rattle.std.specs.Prelude.{◌≡◌, [], if◌then◌else◌, IfOk, OnOk};
ghost use Rattle.pp_values.specs.Datum as d;
ghost use Rattle.pp_values.specs.Keys.{with_pair};
ghost use Rattle.pp_values.specs.Views.{view, pair_views};
ghost use Rattle.scope_core.specs.Scopes.{assign};
ghost use Rattle.class_eval.specs.TopNames as spec;

use eval_calls::{is_variable, pairs_within};
use pp_values::{Memory, Pairs, Place, Stop, Text, Value, copy};
use scope_core::{ScopeId, Scopes};
use std::alloc::Global;

/// Sets `facts`, `trusted`, `environment`, and each fact whose name is that of a variable and none of these.
pub fn put_top_names(
    alloc: Global,
    scopes: &mut Scopes,
    node: &Text,
    facts: &Value,
    at: &Place,
) -> Result<(), Memory>
    ensures { OnOk result (scopes.new ≡ spec.with_top_names node.now (view facts.now) scopes.old) }
{
    put_given(alloc, scopes, node, facts, at)?;
    put_facts(alloc, scopes, pairs_within(facts), at)
}

fn put_given(
    alloc: Global,
    scopes: &mut Scopes,
    node: &Text,
    facts: &Value,
    at: &Place,
) -> Result<(), Memory>
    ensures { OnOk result (scopes.new ≡ spec.with_given node.now (view facts.now) scopes.old) }
{
    put_named(alloc, scopes, "facts", copy(alloc, facts)?, at)?;
    put_named(alloc, scopes, "trusted", trusted(alloc, node)?, at)?;
    let production = Text::from_str(alloc, "production")?;
    put_named(alloc, scopes, "environment", Value::Text(production), at)
}

fn put_named(
    alloc: Global,
    scopes: &mut Scopes,
    name: &str,
    value: Value,
    at: &Place,
) -> Result<(), Memory>
    ensures { OnOk result (scopes.new ≡ spec.with_new name.now (view value) scopes.old) }
{
    let name = Text::from_str(alloc, name)?;
    put_new(alloc, scopes, &name, value, at)
}

/// Sets a name of top scope; one that is there already stays.
#[tactic(auto, unfolding(scope_core::specs::Scopes::assign))]
fn put_new(
    alloc: Global,
    scopes: &mut Scopes,
    name: &Text,
    value: Value,
    at: &Place,
) -> Result<(), Memory>
    ensures { OnOk result (scopes.new ≡ spec.with_new name.now (view value) scopes.old) }
{
    match scopes.assign(alloc, ScopeId::TOP, name, value, at) {
        Ok(()) => Ok(()),
        Err(Stop::Fault(_)) => Ok(()),
        Err(Stop::Memory) => Err(Memory),
    }
}

#[tactic(auto, unfolding(crate::specs::TopNames::with_facts))]
fn put_facts(
    alloc: Global,
    scopes: &mut Scopes,
    facts: &[(Value, Value)],
    at: &Place,
) -> Result<(), Memory>
    ensures { OnOk result (scopes.new ≡ spec.with_facts (pair_views facts.now) scopes.old) }
{
    let mut rest = facts;
    while let Some((fact, more)) = rest.split_first() {
        put_fact(alloc, scopes, &fact.0, &fact.1, at)?;
        rest = more;
    }
    Ok(())
}

fn put_fact(
    alloc: Global,
    scopes: &mut Scopes,
    name: &Value,
    value: &Value,
    at: &Place,
) -> Result<(), Memory>
    ensures { OnOk result (scopes.new ≡ spec.with_fact (view name.now) (view value.now) scopes.old) }
{
    match name {
        Value::Text(name) if is_variable(name.as_str().as_bytes()) => {
            put_new(alloc, scopes, name, copy(alloc, value)?, at)
        }
        _ => Ok(()),
    }
}

/// What is known of a node without its word, by its name.
fn trusted(alloc: Global, node: &Text) -> Result<Value, Memory>
    ensures { IfOk result (λ v. view v ≡ spec.trusted node.now) }
{
    let mut pairs = Pairs::new(alloc);
    put_pair(
        alloc,
        &mut pairs,
        "certname",
        Value::Text(node.copy(alloc)?),
    )?;
    put_pair(alloc, &mut pairs, "hostname", host_of(alloc, node)?)?;
    put_pair(alloc, &mut pairs, "domain", domain_of(alloc, node)?)?;
    put_pair(
        alloc,
        &mut pairs,
        "authenticated",
        Value::Text(Text::from_str(alloc, "remote")?),
    )?;
    put_pair(
        alloc,
        &mut pairs,
        "extensions",
        Value::Hash(Pairs::new(alloc)),
    )?;
    put_pair(
        alloc,
        &mut pairs,
        "external",
        Value::Hash(Pairs::new(alloc)),
    )?;
    Ok(Value::Hash(pairs))
}

fn put_pair(alloc: Global, pairs: &mut Pairs, key: &str, value: Value) -> Result<(), Memory>
    ensures { OnOk result (pairs.new ≡ with_pair (d.text key.now) (view value) pairs.old) }
{
    pairs.put(Value::Text(Text::from_str(alloc, key)?), value)
}

fn host_of(alloc: Global, node: &Text) -> Result<Value, Memory>
    ensures { IfOk result (λ v. view v ≡ spec.host_of node.now) }
{
    let host = match node.as_str().split_once('.') {
        Some((host, _)) => host,
        None => node.as_str(),
    };
    Ok(Value::Text(Text::from_str(alloc, host)?))
}

fn domain_of(alloc: Global, node: &Text) -> Result<Value, Memory>
    ensures { IfOk result (λ v. view v ≡ spec.domain_of node.now) }
{
    match node.as_str().split_once('.') {
        Some((_, domain)) => Ok(Value::Text(Text::from_str(alloc, domain)?)),
        None => Ok(Value::Undef),
    }
}
