ghost use Rattle.std.specs.Prelude.{◌≡◌, IfOk};

use crate::memory::Memory;
use crate::text::Text;
use sqlite_items::Items;
use std::alloc::Global;

/// A list of texts.
pub type Texts = Items<Text>;

/// A list of the same texts.
pub fn copy_texts(alloc: Global, texts: &Texts) -> Result<Texts, Memory>
    ensures { IfOk result (λ l. l ≡ texts.now) }
{
    let mut items = Vec::new(alloc);
    for item in texts.as_slice() {
        items.push(item.copy(alloc)?)?;
    }
    Ok(Texts::from_vec(items))
}
