//! References of resources.
ghost use Rattle.std.specs.Prelude.{◌≡◌, IfOk};
ghost use Rattle.eval_collecting.specs.Matching as spec;

use pp_values::{Memory, Reference};
use res_core::Resource;
use std::alloc::Global;

/// The reference of a resource.
pub fn reference_of(alloc: Global, item: &Resource) -> Result<Reference, Memory>
    ensures { IfOk result (λ r. r ≡ spec.reference_of item.now) }
{
    let kind = item.kind.copy(alloc)?;
    let title = item.title.copy(alloc)?;
    Ok(Reference { kind, title })
}

/// Whether a resource has this reference.
#[tactic(auto, unfolding(crate::specs::Matching::named))]
pub fn is_named(wanted: &Reference, resource: &Resource) -> bool
    ensures { result ≡ spec.named wanted.now resource.now }
{
    wanted.kind == resource.kind && wanted.title == resource.title
}
