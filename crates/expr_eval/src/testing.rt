//! `=~`, and the options of `case` and selectors.
ghost use Rattle.std.specs.Prelude.{◌≡◌};
ghost use Rattle.pp_values.specs.Answers.{Answers};
ghost use Rattle.pp_values.specs.Views.{view};
ghost use Rattle.expr_eval.specs.Testing.{is_of, is_accepted_by, option_takes};

use crate::faults::bad_operand;
use pp_types::accepts;
use pp_values::{Place, Stop, Value, equal};
use std::alloc::Global;

/// `value =~ kind`. `!~` is the other answer, with the same fault.
///
/// The right side is a data type or a reference. A reference counts as the type of its kind and title, which accepts no
/// value.
#[tactic(auto, using(crate::proofs::References::no_value_is_of))]
pub fn is_of(alloc: Global, value: &Value, kind: &Value, at: &Place) -> Result<bool, Stop>
    ensures { Answers result (is_of (view value.now) (view kind.now) at.now) }
{
    match kind {
        Value::Kind(kind) => Ok(accepts(kind.as_type(), value)),
        Value::Ref(_) => Ok(false),
        _ => Err(Stop::Fault(bad_operand(alloc, "=~", at)?)),
    }
}

/// Whether an option of a `case` or selector, other than the literal `default`, takes the control value.
///
/// A reference takes the reference that is equal to it, and nothing more: no value is of its type.
pub fn option_takes(option: &Value, control: &Value) -> bool
    ensures { result ≡ option_takes (view option.now) (view control.now) }
{
    equal(option, control) || is_accepted_by(option, control)
}

fn is_accepted_by(option: &Value, control: &Value) -> bool
    ensures { result ≡ is_accepted_by (view option.now) (view control.now) }
{
    match option {
        Value::Kind(kind) => accepts(kind.as_type(), control),
        _ => false,
    }
}
