ghost use Rattle.std.specs.Prelude.{◌≡◌, IfOk};

use crate::memory::Memory;
use crate::reference::Reference;
use sqlite_items::Items;
use std::alloc::Global;

/// A list of references.
pub type Refs = Items<Reference>;

/// A list of the same references.
pub fn copy_refs(alloc: Global, references: &Refs) -> Result<Refs, Memory>
    ensures { IfOk result (λ l. l ≡ references.now) }
{
    let mut items = Vec::new(alloc);
    for item in references.as_slice() {
        items.push(item.copy(alloc)?)?;
    }
    Ok(Refs::from_vec(items))
}
