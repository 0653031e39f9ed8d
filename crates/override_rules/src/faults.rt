//! Why a line is refused.
ghost use Rattle.std.specs.Prelude.{◌≡◌, IfOk};
ghost use Rattle.override_rules.specs.Lines.{line_of};
ghost use Rattle.override_rules.specs.Meaning.{default_twice as default_twice_meant};
ghost use Rattle.override_rules.specs.Rights.{unknown as unknown_meant, already_set as already_set_meant};

use crate::override_line::OverrideLine;
use pp_values::{Fault, Kind, Memory, Place, Subject, Text, What};
use res_core::Declared;
use std::alloc::Global;

/// The resource takes no attribute of this name.
pub fn unknown(alloc: Global, item: &Declared, line: &OverrideLine) -> Result<Fault, Memory>
    ensures { IfOk result (λ f. f ≡ unknown_meant item.now (line_of line.now)) }
{
    let at = line.at.copy(alloc)?;
    let name = line.name.copy(alloc)?;
    let reference = item.reference(alloc)?;
    Fault::new(alloc, at, What::UnknownParameter { reference, name })
}

/// The line may not touch the attribute.
pub fn already_set(alloc: Global, item: &Declared, line: &OverrideLine) -> Result<Fault, Memory>
    ensures { IfOk result (λ f. f ≡ already_set_meant item.now (line_of line.now)) }
{
    let at = line.at.copy(alloc)?;
    let name = line.name.copy(alloc)?;
    let subject = Subject::Reference(item.reference(alloc)?);
    Fault::new(alloc, at, What::AlreadySet { subject, name })
}

/// The scope has a default for the kind and name already.
pub fn default_twice(alloc: Global, kind: &Kind, name: &Text, at: &Place) -> Result<Fault, Memory>
    ensures { IfOk result (λ f. f ≡ default_twice_meant kind.now name.now at.now) }
{
    let at = at.copy(alloc)?;
    let name = name.copy(alloc)?;
    let subject = Subject::Kind(kind.copy(alloc)?);
    Fault::new(alloc, at, What::AlreadySet { subject, name })
}
