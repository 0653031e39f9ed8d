//! Copies of export sets.
ghost use Rattle.std.specs.Prelude.{◌≡◌, IfOk};

use pp_values::Memory;
use res_core::{ExportSet, Exported, Exports, PlainResource, copy_resource};
use std::alloc::Global;

/// The same set.
pub fn copy_set(alloc: Global, set: &ExportSet) -> Result<ExportSet, Memory>
    ensures { IfOk result (λ s. s ≡ set.now) }
{
    let mut items = Vec::with_capacity(alloc, set.items.len())?;
    for exported in set.items.as_slice() {
        items.push(copy_exported(alloc, exported)?)?;
    }
    Ok(ExportSet {
        items: Exports::from_vec(items),
    })
}

fn copy_exported(alloc: Global, exported: &Exported) -> Result<Exported, Memory>
    ensures { IfOk result (λ e. e ≡ exported.now) }
{
    let resource = copy_resource(alloc, exported.item.as_resource())?;
    Ok(Exported {
        node_place: exported.node_place.copy(alloc)?,
        item: PlainResource::new(resource),
    })
}
