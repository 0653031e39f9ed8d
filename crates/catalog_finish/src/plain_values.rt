//! Values as a catalog has them.
ghost use Rattle.std.specs.Prelude.{◌≡◌, IfOk};
ghost use Rattle.pp_values.specs.Views.{view};
ghost use Rattle.catalog_finish.specs.PlainForms.{plain_of, plain_list, plain_pairs};

use pp_values::{Boxed, Memory, Pairs, Value, Values, is_plain_value, text_of};
use std::alloc::Global;

/// The value with a data type and `default` as their texts, at any depth. What has none of them is moved.
#[tactic(auto, using(crate::proofs::PlainLemmas::plain_stays))]
pub fn plain_value(alloc: Global, value: Value) -> Result<Value, Memory>
    ensures { IfOk result (λ v. view v ≡ plain_of (view value)) }
{
    if is_plain_value(&value) {
        return Ok(value);
    }
    plain_copy(alloc, &value)
}

/// A copy of the value with a data type and `default` as their texts, at any depth.
#[cycle(plain)]
#[tactic(auto, using(crate::proofs::PlainLemmas::members_as_list, crate::proofs::PlainLemmas::pairs_as_list))]
pub fn plain_copy(alloc: Global, value: &Value) -> Result<Value, Memory>
    ensures { IfOk result (λ v. view v ≡ plain_of (view value.now)) }
{
    match value {
        Value::Undef => Ok(Value::Undef),
        Value::Flag(flag) => Ok(Value::Flag(*flag)),
        Value::Int(number) => Ok(Value::Int(*number)),
        Value::Text(text) => Ok(Value::Text(text.copy(alloc)?)),
        Value::List(items) => Ok(Value::List(plain_items(alloc, items)?)),
        Value::Hash(pairs) => Ok(Value::Hash(plain_hash(alloc, pairs)?)),
        Value::Ref(reference) => Ok(Value::Ref(Boxed::new(alloc, reference.get().copy(alloc)?)?)),
        Value::Kind(_) => Ok(Value::Text(text_of(alloc, value)?)),
        Value::Default => Ok(Value::Text(text_of(alloc, value)?)),
    }
}

#[cycle(plain)]
fn plain_items(alloc: Global, values: &Values) -> Result<Values, Memory>
    ensures { IfOk result (λ l. l ≡ plain_list values.now) }
{
    let mut items = Vec::new(alloc);
    for item in values.as_slice() {
        items.push(plain_copy(alloc, item)?)?;
    }
    Ok(Values::from_vec(items)?)
}

/// The keys of a hash are integers and texts, so they stay as they are.
#[cycle(plain)]
fn plain_hash(alloc: Global, pairs: &Pairs) -> Result<Pairs, Memory>
    ensures { IfOk result (λ l. l ≡ plain_pairs pairs.now) }
{
    let mut items = Vec::new(alloc);
    for (key, value) in pairs.as_slice() {
        let key = plain_copy(alloc, key)?;
        let value = plain_copy(alloc, value)?;
        items.push((key, value))?;
    }
    Ok(Pairs::from_vec(items)?)
}
