//! Whether a resource takes an attribute.
ghost use Rattle.std.specs.Prelude.{◌≡◌, IfOk};
ghost use Rattle.pp_values.specs.Answers.{Answers};
ghost use Rattle.pp_values.specs.Faults.{fault};
ghost use Rattle.res_core.specs.AttributeChecks.{attribute_checked, native_checked, known_checked, is_known};
ghost use Rattle.res_core.specs.NativeTypes.{attributes_of};

use crate::known_names::KnownNames;
use crate::metaparameters::is_metaparameter;
use crate::native_type::NativeType;
use crate::natives::native;
use pp_values::{Fault, Memory, Place, Reference, Stop, Text, What};
use std::alloc::Global;

/// F5 where the kind is not native, and else F10 where the kind takes no attribute of this name.
#[tactic(auto, unfolding(crate::specs::AttributeChecks::attribute_checked))]
pub fn check_attribute(alloc: Global, what: &Reference, name: &Text, at: &Place) -> Result<(), Stop>
    ensures { Answers result (attribute_checked what.now name.now at.now) }
{
    check_native(alloc, what, native(what.kind.as_text()), name, at)
}

#[tactic(auto, unfolding(crate::specs::AttributeChecks::native_checked, crate::specs::AttributeChecks::known_checked))]
fn check_native(
    alloc: Global,
    what: &Reference,
    native: Option<NativeType>,
    name: &Text,
    at: &Place,
) -> Result<(), Stop>
    ensures { Answers result (native_checked what.now native name.now at.now) }
{
    match native {
        None => Err(Stop::Fault(unknown_type(alloc, what, at)?)),
        Some(native) if is_native_attribute(native, name) => Ok(()),
        Some(_) => Err(Stop::Fault(unknown_parameter(alloc, what, name, at)?)),
    }
}

/// F10 where neither these attributes nor the metaparameters have this name.
#[tactic(auto, unfolding(crate::specs::AttributeChecks::known_checked))]
pub fn check_known(
    alloc: Global,
    what: &Reference,
    known: &KnownNames,
    name: &Text,
    at: &Place,
) -> Result<(), Stop>
    ensures { Answers result (known_checked what.now known.now name.now at.now) }
{
    if is_known(known, name) {
        Ok(())
    } else {
        Err(Stop::Fault(unknown_parameter(alloc, what, name, at)?))
    }
}

/// Whether a resource whose kind has these attributes of its own takes one of this name.
pub fn is_known(known: &KnownNames, name: &Text) -> bool
    ensures { result ≡ is_known known.now name.now }
{
    known.has(name) || is_metaparameter(name)
}

fn is_native_attribute(native: NativeType, name: &Text) -> bool
    ensures { result ≡ is_known (attributes_of native) name.now }
{
    is_known(&KnownNames::of_native(native), name)
}

fn unknown_type(alloc: Global, what: &Reference, at: &Place) -> Result<Fault, Memory>
    ensures { IfOk result (λ f. f ≡ fault at.now (What.UnknownType what.now.kind)) }
{
    let name = what.kind.as_text().copy(alloc)?;
    let at = at.copy(alloc)?;
    Fault::new(alloc, at, What::UnknownType(name))
}

fn unknown_parameter(
    alloc: Global,
    what: &Reference,
    name: &Text,
    at: &Place,
) -> Result<Fault, Memory>
    ensures { IfOk result (λ f. f ≡ fault at.now (What.UnknownParameter what.now name.now)) }
{
    let reference = what.copy(alloc)?;
    let name = name.copy(alloc)?;
    let at = at.copy(alloc)?;
    Fault::new(alloc, at, What::UnknownParameter { reference, name })
}
