ghost use Rattle.std.specs.Prelude.{◌≡◌, IfOk};

use crate::memory::Memory;
use crate::text::Text;
use sqlite_items::Items;
use std::alloc::Global;

/// A list of pairs of texts, such as paths and what stands there.
pub type TextPairs = Items<(Text, Text)>;

/// A list of the same pairs.
pub fn copy_text_pairs(alloc: Global, pairs: &TextPairs) -> Result<TextPairs, Memory>
    ensures { IfOk result (λ l. l ≡ pairs.now) }
{
    let mut items = Vec::new(alloc);
    for (name, text) in pairs.as_slice() {
        let name = name.copy(alloc)?;
        let text = text.copy(alloc)?;
        items.push((name, text))?;
    }
    Ok(TextPairs::from_vec(items))
}
