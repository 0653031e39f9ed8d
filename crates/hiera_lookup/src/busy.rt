//! The keys that are being looked up.
ghost use Rattle.std.specs.Prelude.{◌≡◌, ◌∷◌, [], ◌++◌, IfOk};
ghost use Rattle.hiera_lookup.specs.Look.{is_busy};

use pp_values::{Memory, Text, Texts, copy_texts};
use std::alloc::Global;

pub fn is_busy(busy: &Texts, key: &str) -> bool
    ensures { result ≡ is_busy busy.now key.now }
{
    for other in busy.as_slice() {
        if other.as_str() == key {
            return true;
        }
    }
    false
}

pub fn with_key(alloc: Global, busy: &Texts, key: &str) -> Result<Texts, Memory>
    ensures { IfOk result (λ b. b ≡ busy.now ++ key.now ∷ []) }
{
    let mut longer = copy_texts(alloc, busy)?;
    longer.push(Text::from_str(alloc, key)?)?;
    Ok(longer)
}
