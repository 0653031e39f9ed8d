//! Refusals with their details.
ghost use Rattle.std.specs.Prelude.{◌≡◌, IfOk};
ghost use Rattle.pp_values.specs.declared.fault.What.TheVariants as what;
ghost use Rattle.hiera_config.specs.Meant.{Tells};

use hiera_config::Refused;
use pp_values::{Boxed, Memory, Text, What};
use std::alloc::Global;

/// The key is looked up within its own look-up.
pub fn loop_at(alloc: Global, key: &str) -> Refused
    ensures { Tells result (what.LookupLoop key.now) }
{
    match loop_of(alloc, key) {
        Ok(what) => Refused::Fault(what),
        Err(Memory) => Refused::Memory,
    }
}

fn loop_of(alloc: Global, key: &str) -> Result<Boxed<What>, Memory>
    ensures { IfOk result (λ w. w ≡ what.LookupLoop key.now) }
{
    let key = Text::from_str(alloc, key)?;
    Ok(Boxed::new(alloc, What::LookupLoop(key))?)
}

/// The merge does not take the values of the key.
pub fn mismatch_at(alloc: Global, key: &str) -> Refused
    ensures { Tells result (what.MergeMismatch key.now) }
{
    match mismatch_of(alloc, key) {
        Ok(what) => Refused::Fault(what),
        Err(Memory) => Refused::Memory,
    }
}

fn mismatch_of(alloc: Global, key: &str) -> Result<Boxed<What>, Memory>
    ensures { IfOk result (λ w. w ≡ what.MergeMismatch key.now) }
{
    let key = Text::from_str(alloc, key)?;
    Ok(Boxed::new(alloc, What::MergeMismatch(key))?)
}

/// Too many look-ups within one another.
pub fn too_deep(alloc: Global) -> Refused
    ensures { Tells result what.DepthLimit }
{
    match Boxed::new(alloc, What::DepthLimit) {
        Ok(what) => Refused::Fault(what),
        Err(_) => Refused::Memory,
    }
}
