ghost use Rattle.std.specs.Prelude.{◌≡◌, IfOk};
ghost use Rattle.pp_values.specs.declared.fault.What.TheVariants as what;
ghost use Rattle.hiera_config.specs.Meant.{Tells};

use pp_values::{Memory, Text, What};
use sqlite_items::Boxed;
use std::alloc::{AllocError, AllocFailed, Global};

/// Why a look into data gave no value. The place of a fault is that of the whole look-up.
#[derive(Debug, Drop)]
pub enum Refused {
    Fault(Boxed<What>),
    Memory,
}

impl From<Memory> for Refused {
    ghost use Rattle.hiera_config.specs.declared.refused.Refused.TheVariants as refused;

    ghost from_gives = { λ _ s. s ≡ refused.Memory };

    fn from(_refused: Memory) -> Refused {
        Refused::Memory
    }
}

impl From<AllocError> for Refused {
    ghost use Rattle.hiera_config.specs.declared.refused.Refused.TheVariants as refused;

    ghost from_gives = { λ _ s. s ≡ refused.Memory };

    fn from(_refused: AllocError) -> Refused {
        Refused::Memory
    }
}

impl<T: Drop> From<AllocFailed<T>> for Refused {
    ghost use Rattle.hiera_config.specs.declared.refused.Refused.TheVariants as refused;

    ghost from_gives = { λ _ s. s ≡ refused.Memory };

    fn from(_refused: AllocFailed<T>) -> Refused {
        Refused::Memory
    }
}

/// The file at this path is faulty.
pub fn bad_data(alloc: Global, path: &str) -> Refused
    ensures { Tells result (what.BadData path.now) }
{
    match bad_data_at(alloc, path) {
        Ok(what) => Refused::Fault(what),
        Err(Memory) => Refused::Memory,
    }
}

fn bad_data_at(alloc: Global, path: &str) -> Result<Boxed<What>, Memory>
    ensures { IfOk result (λ w. w ≡ what.BadData path.now) }
{
    let path = Text::from_str(alloc, path)?;
    Ok(Boxed::new(alloc, What::BadData(path))?)
}

/// The interpolation is faulty that this text begins with.
pub fn bad_interpolation(alloc: Global, text: &str) -> Refused
    ensures { Tells result (what.BadInterpolation text.now) }
{
    match bad_interpolation_of(alloc, text) {
        Ok(what) => Refused::Fault(what),
        Err(Memory) => Refused::Memory,
    }
}

fn bad_interpolation_of(alloc: Global, text: &str) -> Result<Boxed<What>, Memory>
    ensures { IfOk result (λ w. w ≡ what.BadInterpolation text.now) }
{
    let text = Text::from_str(alloc, text)?;
    Ok(Boxed::new(alloc, What::BadInterpolation(text))?)
}
