ghost use Rattle.std.specs.Prelude.{◌≡◌};

use pp_values::Memory;
use std::alloc::{AllocError, AllocFailed};
use std::error::Error;
use std::fmt;

/// Why a history is not gone on with.
#[derive(Clone, Copy, Debug, PartialEq, Eq)]
pub enum ResumeStop {
    /// The greatest author is this one, which leaves too few numbers for new ones.
    Authors(u32),
    Memory,
}

impl From<Memory> for ResumeStop {
    ghost use Rattle.site_core.specs.declared.resume_stop.ResumeStop.TheVariants as stop;

    ghost from_gives = { λ _ e. e ≡ stop.Memory };

    fn from(_memory: Memory) -> ResumeStop {
        ResumeStop::Memory
    }
}

impl From<AllocError> for ResumeStop {
    ghost use Rattle.site_core.specs.declared.resume_stop.ResumeStop.TheVariants as stop;

    ghost from_gives = { λ _ e. e ≡ stop.Memory };

    fn from(_refused: AllocError) -> ResumeStop {
        ResumeStop::Memory
    }
}

impl<T: Drop> From<AllocFailed<T>> for ResumeStop {
    ghost use Rattle.site_core.specs.declared.resume_stop.ResumeStop.TheVariants as stop;

    ghost from_gives = { λ _ e. e ≡ stop.Memory };

    fn from(_refused: AllocFailed<T>) -> ResumeStop {
        ResumeStop::Memory
    }
}

impl fmt::Display for ResumeStop {
    fn fmt<W: fmt::Write>(&self, f: &mut fmt::Formatter<W>) -> fmt::Result {
        match self {
            ResumeStop::Authors(author) => write!(f, "author {author} is too great"),
            ResumeStop::Memory => f.write_str("out of memory"),
        }
    }
}

impl Error for ResumeStop {}
