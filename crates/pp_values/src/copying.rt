//! Copies of values.
ghost use Rattle.std.specs.Prelude.{◌≡◌, IfOk};
ghost use Rattle.pp_values.specs.Views.{view};

use crate::memory::Memory;
use crate::pairs::Pairs;
use crate::type_copying::copy_type_box;
use crate::value::Value;
use crate::values::Values;
use sqlite_items::Boxed;
use std::alloc::Global;

/// A value that is the same in every part.
#[cycle(copy)]
pub fn copy(alloc: Global, value: &Value) -> Result<Value, Memory>
    ensures { IfOk result (λ v. view v ≡ view value.now) }
{
    match value {
        Value::Undef => Ok(Value::Undef),
        Value::Flag(flag) => Ok(Value::Flag(*flag)),
        Value::Int(number) => Ok(Value::Int(*number)),
        Value::Text(text) => Ok(Value::Text(text.copy(alloc)?)),
        Value::List(items) => Ok(Value::List(copy_values(alloc, items)?)),
        Value::Hash(pairs) => Ok(Value::Hash(copy_pairs(alloc, pairs)?)),
        Value::Ref(reference) => Ok(Value::Ref(Boxed::new(alloc, reference.get().copy(alloc)?)?)),
        Value::Kind(ptype) => Ok(Value::Kind(copy_type_box(alloc, ptype)?)),
        Value::Default => Ok(Value::Default),
    }
}

/// A list of the same values.
#[cycle(copy)]
pub fn copy_values(alloc: Global, values: &Values) -> Result<Values, Memory>
    ensures { IfOk result (λ l. l ≡ values.now) }
{
    let mut items = Vec::new(alloc);
    for item in values.as_slice() {
        items.push(copy(alloc, item)?)?;
    }
    Values::from_vec(items)
}

/// A hash of the same keys and values, in the same order.
#[cycle(copy)]
pub fn copy_pairs(alloc: Global, pairs: &Pairs) -> Result<Pairs, Memory>
    ensures { IfOk result (λ l. l ≡ pairs.now) }
{
    let mut items = Vec::new(alloc);
    for (key, value) in pairs.as_slice() {
        let key = copy(alloc, key)?;
        let value = copy(alloc, value)?;
        items.push((key, value))?;
    }
    Pairs::from_vec(items)
}
