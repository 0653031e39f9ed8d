ghost use Rattle.std.specs.Prelude.{◌≡◌};

use pp_values::Memory;
use std::alloc::{AllocError, AllocFailed};
use std::error::Error;
use std::fmt;

/// Why no entry was added.
#[derive(Clone, Copy, Debug, PartialEq, Eq)]
pub enum DoneStop {
    /// The history has as many entries as it may have: this many.
    Full(u32),
    Memory,
}

impl From<Memory> for DoneStop {
    ghost use Rattle.site_core.specs.declared.done_stop.DoneStop.TheVariants as stop;

    ghost from_gives = { λ _ e. e ≡ stop.Memory };

    fn from(_memory: Memory) -> DoneStop {
        DoneStop::Memory
    }
}

impl From<AllocError> for DoneStop {
    ghost use Rattle.site_core.specs.declared.done_stop.DoneStop.TheVariants as stop;

    ghost from_gives = { λ _ e. e ≡ stop.Memory };

    fn from(_refused: AllocError) -> DoneStop {
        DoneStop::Memory
    }
}

impl<T: Drop> From<AllocFailed<T>> for DoneStop {
    ghost use Rattle.site_core.specs.declared.done_stop.DoneStop.TheVariants as stop;

    ghost from_gives = { λ _ e. e ≡ stop.Memory };

    fn from(_refused: AllocFailed<T>) -> DoneStop {
        DoneStop::Memory
    }
}

impl fmt::Display for DoneStop {
    fn fmt<W: fmt::Write>(&self, f: &mut fmt::Formatter<W>) -> fmt::Result {
        match self {
            DoneStop::Full(length) => write!(f, "the history is full at {length} entries"),
            DoneStop::Memory => f.write_str("out of memory"),
        }
    }
}

impl Error for DoneStop {}
