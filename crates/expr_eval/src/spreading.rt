//! The splat `*`.
ghost use Rattle.std.specs.Prelude.{◌≡◌, [], IfOk};
ghost use Rattle.pp_values.specs.Views.{view};
ghost use Rattle.expr_eval.specs.Spreading.{spliced, spread};

use pp_ops::extended;
use pp_values::{Memory, Value, Values, copy};
use std::alloc::Global;

/// What `*value` puts among arguments or into a list: the members of a list, the pairs of a hash as lists of two, or the
/// value, be it Undef.
pub fn splice(alloc: Global, value: &Value) -> Result<Values, Memory>
    ensures { IfOk result (λ l. l ≡ spliced (view value.now)) }
{
    extended(alloc, &[], value)
}

/// The value of `*value` elsewhere: of a hash the list of its pairs, else the value itself.
pub fn spread(alloc: Global, value: &Value) -> Result<Value, Memory>
    ensures { IfOk result (λ v. view v ≡ spread (view value.now)) }
{
    match value {
        Value::Hash(_) => Ok(Value::List(splice(alloc, value)?)),
        _ => copy(alloc, value),
    }
}
