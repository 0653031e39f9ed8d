ghost use Rattle.std.specs.Prelude.{◌≡◌, IfOk};

use crate::memory::Memory;
use crate::place::Place;
use sqlite_items::Items;
use std::alloc::Global;

/// A list of places.
pub type Places = Items<Place>;

/// A list of the same places.
pub fn copy_places(alloc: Global, places: &Places) -> Result<Places, Memory>
    ensures { IfOk result (λ l. l ≡ places.now) }
{
    let mut items = Vec::new(alloc);
    for item in places.as_slice() {
        items.push(item.copy(alloc)?)?;
    }
    Ok(Places::from_vec(items))
}
