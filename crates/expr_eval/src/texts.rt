//! The text of a log line.
ghost use Rattle.std.specs.Prelude.{◌≡◌, IfOk};
ghost use Rattle.pp_funcs.specs.Texts.{joined};

use pp_values::{Memory, Text, Values};
use std::alloc::Global;

/// The texts of the values, with one space between each two.
pub fn joined(alloc: Global, values: &Values) -> Result<Text, Memory>
    ensures { IfOk result (λ t. t ≡ joined values.now) }
{
    pp_funcs::joined(alloc, values.as_slice())
}
