ghost use Rattle.std.specs.Prelude.{◌≡◌};

use pp_values::Memory;
use std::alloc::{AllocError, AllocFailed};
use std::error::Error;
use std::fmt;

/// Why bytes gave no site.
#[derive(Clone, Copy, Debug, PartialEq, Eq)]
pub enum SiteStop {
    /// They say none.
    Bad,
    Memory,
}

impl From<Memory> for SiteStop {
    ghost use Rattle.site_core.specs.declared.site_stop.SiteStop.TheVariants as stop;

    ghost from_gives = { λ _ e. e ≡ stop.Memory };

    fn from(_memory: Memory) -> SiteStop {
        SiteStop::Memory
    }
}

impl From<AllocError> for SiteStop {
    ghost use Rattle.site_core.specs.declared.site_stop.SiteStop.TheVariants as stop;

    ghost from_gives = { λ _ e. e ≡ stop.Memory };

    fn from(_refused: AllocError) -> SiteStop {
        SiteStop::Memory
    }
}

impl<T: Drop> From<AllocFailed<T>> for SiteStop {
    ghost use Rattle.site_core.specs.declared.site_stop.SiteStop.TheVariants as stop;

    ghost from_gives = { λ _ e. e ≡ stop.Memory };

    fn from(_refused: AllocFailed<T>) -> SiteStop {
        SiteStop::Memory
    }
}

impl fmt::Display for SiteStop {
    fn fmt<W: fmt::Write>(&self, f: &mut fmt::Formatter<W>) -> fmt::Result {
        match self {
            SiteStop::Bad => f.write_str("the bytes say no site"),
            SiteStop::Memory => f.write_str("out of memory"),
        }
    }
}

impl Error for SiteStop {}
