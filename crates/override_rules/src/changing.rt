//! What one line makes of a value.
ghost use Rattle.std.specs.Prelude.{◌≡◌, IfOk, option_map};
ghost use Rattle.pp_values.specs.Views.{view, views};
ghost use Rattle.override_rules.specs.Changes.{set_to as set_to_meant, changed as changed_meant};
ghost use Rattle.override_rules.specs.Changes.{appended as appended_meant};

use pp_values::{Memory, Value, Values, copy};
use std::alloc::Global;

/// `=>` of a value: Undef unsets.
pub fn set_to(alloc: Global, value: &Value) -> Result<Option<Value>, Memory>
    ensures { IfOk result (λ o. option_map view o ≡ set_to_meant (view value.now)) }
{
    match value {
        Value::Undef => Ok(None),
        _ => Ok(Some(copy(alloc, value)?)),
    }
}

/// `+>` of a value.
fn appended(alloc: Global, value: &Value, old: Option<Value>) -> Result<Option<Value>, Memory>
    ensures { IfOk result (λ o. option_map view o ≡ appended_meant (view value.now) (option_map view old)) }
{
    match old {
        None => set_to(alloc, value),
        Some(old) => {
            let mut items = old.into_members(alloc)?.into_vec();
            let mut more = copy(alloc, value)?.into_members(alloc)?.into_vec();
            items.append(&mut more)?;
            Ok(Some(Value::List(Values::from_vec(items)?)))
        }
    }
}

/// What a line of this value makes of the old one, by `+>` or by `=>`.
pub fn changed(
    alloc: Global,
    append: bool,
    value: &Value,
    old: Option<Value>,
) -> Result<Option<Value>, Memory>
    ensures { IfOk result (λ o. option_map view o ≡ changed_meant append (view value.now) (option_map view old)) }
{
    if append {
        return appended(alloc, value, old);
    }
    set_to(alloc, value)
}
