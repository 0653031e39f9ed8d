ghost use Rattle.std.specs.Prelude.{◌≡◌};

use pp_values::Memory;
use std::alloc::{AllocError, AllocFailed};
use thiserror::Error;

/// Why a text gave no document.
#[derive(Clone, Copy, Debug, PartialEq, Eq, Error)]
pub enum DocStop {
    /// The line with this number, counted from 1, is the first one that is not as it is written.
    #[error("bad line {0}")]
    Bad(u32),
    #[error("out of memory")]
    Memory,
}

impl From<Memory> for DocStop {
    ghost use Rattle.json_documents.specs.declared.doc_stop.DocStop.TheVariants as stop;

    ghost from_gives = { λ _ s. s ≡ stop.Memory };

    fn from(_refused: Memory) -> DocStop {
        DocStop::Memory
    }
}

impl From<AllocError> for DocStop {
    ghost use Rattle.json_documents.specs.declared.doc_stop.DocStop.TheVariants as stop;

    ghost from_gives = { λ _ s. s ≡ stop.Memory };

    fn from(_refused: AllocError) -> DocStop {
        DocStop::Memory
    }
}

impl<T: Drop> From<AllocFailed<T>> for DocStop {
    ghost use Rattle.json_documents.specs.declared.doc_stop.DocStop.TheVariants as stop;

    ghost from_gives = { λ _ s. s ≡ stop.Memory };

    fn from(_refused: AllocFailed<T>) -> DocStop {
        DocStop::Memory
    }
}
