//! What the functions that go through a list or a hash make of what their lambda gave.
ghost use Rattle.std.specs.Prelude.{◌≡◌, ◌++◌, IfOk, OnOk};
ghost use Rattle.std.specs.List.{list_all, list_any};
ghost use Rattle.pp_values.specs.Views.{view, views, pair_views};
ghost use Rattle.expr_eval.specs.Gathering.{kept, filtered, gathered, decides};
ghost use Rattle.expr_eval.specs.Truth.{is_true};

use crate::functions::Iteration;
use crate::truth::is_true;
use pp_values::{Memory, Pairs, Value, Values, copy};
use std::alloc::Global;

/// The value of `each`, `map`, `filter`, `any` or `all` of this value, where the lambda gave these results, in the order
/// of the turns: all of them, or for `any` and `all` those up to the one that decides. For `map` they move into the list.
pub fn gather(
    alloc: Global,
    function: Iteration,
    value: &Value,
    results: Values,
) -> Result<Value, Memory>
    ensures { IfOk result (λ v. view v ≡ gathered function (view value.now) results) }
{
    match function {
        Iteration::Each => copy(alloc, value),
        Iteration::Map => Ok(Value::List(results)),
        Iteration::Filter => filtered(alloc, value, results.as_slice()),
        Iteration::Any => Ok(Value::Flag(some_true(results.as_slice()))),
        Iteration::All => Ok(Value::Flag(all_true(results.as_slice()))),
    }
}

/// Whether this result of the lambda ends the call, so that no further turn is taken: one that is true ends `any`, and
/// one that is not ends `all`.
pub fn decides(function: Iteration, given: &Value) -> bool
    ensures { result ≡ decides function (view given.now) }
{
    match function {
        Iteration::Any => is_true(given),
        Iteration::All => !is_true(given),
        _ => false,
    }
}

fn some_true(results: &[Value]) -> bool
    ensures { result ≡ list_any is_true (views results.now) }
{
    for value in results {
        if is_true(value) {
            return true;
        }
    }
    false
}

fn all_true(results: &[Value]) -> bool
    ensures { result ≡ list_all is_true (views results.now) }
{
    for value in results {
        if !is_true(value) {
            return false;
        }
    }
    true
}

#[tactic(auto, using(crate::proofs::Back::members_back, crate::proofs::Back::pairs_back))]
fn filtered(alloc: Global, value: &Value, results: &[Value]) -> Result<Value, Memory>
    ensures { IfOk result (λ v. view v ≡ filtered (view value.now) (views results.now)) }
{
    match value {
        Value::List(items) => Ok(Value::List(kept_members(alloc, items.as_slice(), results)?)),
        Value::Hash(pairs) => Ok(Value::Hash(kept_pairs(alloc, pairs, results)?)),
        _ => copy(alloc, value),
    }
}

fn kept_members(alloc: Global, items: &[Value], results: &[Value]) -> Result<Values, Memory>
    ensures { IfOk result (λ l. l ≡ kept (views items.now) (views results.now)) }
{
    let mut kept = Values::new(alloc);
    let mut rest = results;
    for item in items {
        match rest {
            [given, after @ ..] => {
                rest = after;
                if is_true(given) {
                    kept.push(copy(alloc, item)?)?;
                }
            }
            [] => return Ok(kept),
        }
    }
    Ok(kept)
}

#[tactic(auto, using(crate::proofs::Distinct::distinct_kept))]
fn kept_pairs(alloc: Global, pairs: &Pairs, results: &[Value]) -> Result<Pairs, Memory>
    ensures { IfOk result (λ l. l ≡ kept pairs.now (views results.now)) }
{
    let mut kept = Vec::new(alloc);
    add_kept(alloc, &mut kept, pairs.as_slice(), results)?;
    Pairs::from_vec(kept)
}

fn add_kept(
    alloc: Global,
    out: &mut Vec<(Value, Value)>,
    pairs: &[(Value, Value)],
    results: &[Value],
) -> Result<(), Memory>
    ensures { OnOk result (pair_views out.new.items
        ≡ pair_views out.old.items ++ kept (pair_views pairs.now) (views results.now)) }
{
    let mut rest = results;
    for (key, value) in pairs {
        match rest {
            [given, after @ ..] => {
                rest = after;
                if is_true(given) {
                    out.push(copy_pair(alloc, key, value)?)?;
                }
            }
            [] => return Ok(()),
        }
    }
    Ok(())
}

fn copy_pair(alloc: Global, key: &Value, value: &Value) -> Result<(Value, Value), Memory>
    ensures { IfOk result (λ p. (view p.0 ≡ view key.now) × (view p.1 ≡ view value.now)) }
{
    let key = copy(alloc, key)?;
    let value = copy(alloc, value)?;
    Ok((key, value))
}
