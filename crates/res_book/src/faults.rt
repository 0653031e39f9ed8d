//! Why a resource is not declared.
ghost use Rattle.std.specs.Prelude.{◌≡◌, IfOk};
ghost use Rattle.res_book.specs.Rows.{class_virtual as class_virtual_at, duplicate as duplicate_at};
ghost use Rattle.res_book.specs.Rows.{too_many as too_many_at};

use pp_values::{Fault, Memory, Place, Subject, What};
use res_core::Declared;
use std::alloc::Global;

/// A class is declared as virtual or exported.
pub fn class_virtual(alloc: Global, item: &Declared) -> Result<Fault, Memory>
    ensures { IfOk result (λ f. f ≡ class_virtual_at item.now) }
{
    let at = item.at.copy(alloc)?;
    let reference = item.reference(alloc)?;
    Fault::new(alloc, at, What::ClassVirtual(Subject::Reference(reference)))
}

/// The reference was declared before, at that place.
pub fn duplicate(alloc: Global, item: &Declared, earlier: &Place) -> Result<Fault, Memory>
    ensures { IfOk result (λ f. f ≡ duplicate_at item.now earlier.now) }
{
    let at = item.at.copy(alloc)?;
    let reference = item.reference(alloc)?;
    let earlier = earlier.copy(alloc)?;
    Fault::new(alloc, at, What::Duplicate { reference, earlier })
}

/// There are as many declarations as there may be.
pub fn too_many(alloc: Global, item: &Declared) -> Result<Fault, Memory>
    ensures { IfOk result (λ f. f ≡ too_many_at item.now) }
{
    let at = item.at.copy(alloc)?;
    Fault::new(alloc, at, What::ResourceLimit)
}
