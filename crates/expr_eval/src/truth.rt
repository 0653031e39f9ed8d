//! Which values count as true.
ghost use Rattle.std.specs.Prelude.{◌≡◌};
ghost use Rattle.pp_values.specs.Views.{view};
ghost use Rattle.expr_eval.specs.Truth.{is_true};

use pp_values::Value;

/// Whether the value counts as true: only `false` and Undef don't.
pub fn is_true(value: &Value) -> bool
    ensures { result ≡ is_true (view value.now) }
{
    match value {
        Value::Undef => false,
        Value::Flag(flag) => *flag,
        _ => true,
    }
}
