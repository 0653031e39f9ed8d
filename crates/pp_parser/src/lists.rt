//! Lists that take no more room than they need.

ghost use Rattle.std.specs.Prelude.{◌≡◌, [], ◌∷◌, ◌++◌, OnOk};

use pp_values::{Items, Memory};
use std::alloc::Global;

/// Appends an item. Most lists of a manifest have one item, and take room for that alone: `more` says that others follow.
pub fn put<T: Drop>(alloc: Global, found: &mut Items<T>, item: T, more: bool) -> Result<(), Memory>
    ensures { OnOk result (found.new ≡ found.old ++ item ∷ []) }
{
    if more || !found.is_empty() {
        found.push(item)?;
        return Ok(());
    }
    let mut alone = Vec::with_capacity(alloc, 1)?;
    alone.push(item)?;
    *found = Items::from_vec(alone);
    Ok(())
}
