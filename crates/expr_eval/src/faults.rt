//! The faults of steps.
ghost use Rattle.std.specs.Prelude.{◌≡◌, IfOk};
ghost use Rattle.expr_eval.specs.Faults.{bad_operand, wrong_arguments};

use pp_values::{Fault, Memory, Place, Text, What};
use std::alloc::Global;

/// The fault that an operator does not take its operands. It names the operator: `[]` for access, `=>` for a key of a
/// hash, `?` for a selector without a match, and `=~` for `!~` too.
pub fn bad_operand(alloc: Global, operator: &str, at: &Place) -> Result<Fault, Memory>
    ensures { IfOk result (λ f. f ≡ bad_operand operator.now at.now) }
{
    let operator = Text::from_str(alloc, operator)?;
    let at = at.copy(alloc)?;
    Fault::new(alloc, at, What::BadOperand(operator))
}

/// The fault that a function or data type does not take its arguments.
pub fn wrong_arguments(alloc: Global, name: &str, at: &Place) -> Result<Fault, Memory>
    ensures { IfOk result (λ f. f ≡ wrong_arguments name.now at.now) }
{
    let name = Text::from_str(alloc, name)?;
    let at = at.copy(alloc)?;
    Fault::new(alloc, at, What::WrongArguments(name))
}
