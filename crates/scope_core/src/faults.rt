ghost use Rattle.std.specs.Prelude.{◌≡◌, IfOk};
ghost use Rattle.pp_values.specs.Faults.{fault};
ghost use Rattle.pp_values.specs.declared.fault.What.TheVariants as what;

use pp_values::{Fault, Memory, Place, Text, What};
use std::alloc::Global;

/// The variable, as it is written after `$`, has no value.
pub fn unknown(alloc: Global, name: &Text, at: &Place) -> Result<Fault, Memory>
    ensures { IfOk result (λ f. f ≡ fault at.now (what.UnknownVariable name.now)) }
{
    let at = at.copy(alloc)?;
    let name = name.copy(alloc)?;
    Fault::new(alloc, at, What::UnknownVariable(name))
}

/// The variable has a value already.
pub fn reassigned(alloc: Global, name: &Text, at: &Place) -> Result<Fault, Memory>
    ensures { IfOk result (λ f. f ≡ fault at.now (what.Reassigned name.now)) }
{
    let at = at.copy(alloc)?;
    let name = name.copy(alloc)?;
    Fault::new(alloc, at, What::Reassigned(name))
}
