ghost use Rattle.std.specs.Prelude.{◌≡◌};

use pp_values::{Memory, Text};
use std::alloc::{AllocError, AllocFailed};
use std::error::Error;
use std::fmt;

/// Why no bundle was read.
#[derive(Debug, Drop)]
pub enum BundleStop {
    /// The bytes are no JSON in UTF-8, or it nests too deep.
    NotJson,
    /// What stands at this path is not of its kind, or is missing.
    BadShape(Text),
    /// What stands at this path is longer than it may be.
    TooLarge(Text),
    /// The call of the tree that named this path failed.
    TreeFault(Text),
    Memory,
}

impl From<Memory> for BundleStop {
    ghost use Rattle.site_bundle.specs.declared.bundle_stop.BundleStop.TheVariants as stop;

    ghost from_gives = { λ _ e. e ≡ stop.Memory };

    fn from(_memory: Memory) -> BundleStop {
        BundleStop::Memory
    }
}

impl From<AllocError> for BundleStop {
    ghost use Rattle.site_bundle.specs.declared.bundle_stop.BundleStop.TheVariants as stop;

    ghost from_gives = { λ _ e. e ≡ stop.Memory };

    fn from(_refused: AllocError) -> BundleStop {
        BundleStop::Memory
    }
}

impl<T: Drop> From<AllocFailed<T>> for BundleStop {
    ghost use Rattle.site_bundle.specs.declared.bundle_stop.BundleStop.TheVariants as stop;

    ghost from_gives = { λ _ e. e ≡ stop.Memory };

    fn from(_refused: AllocFailed<T>) -> BundleStop {
        BundleStop::Memory
    }
}

impl fmt::Display for BundleStop {
    fn fmt<W: fmt::Write>(&self, f: &mut fmt::Formatter<W>) -> fmt::Result {
        match self {
            BundleStop::NotJson => f.write_str("the bundle is no JSON"),
            BundleStop::BadShape(path) => write!(f, "{path} is not of its kind"),
            BundleStop::TooLarge(path) => write!(f, "{path} is too large"),
            BundleStop::TreeFault(path) => write!(f, "the tree failed at {path}"),
            BundleStop::Memory => f.write_str("out of memory"),
        }
    }
}

impl Error for BundleStop {}
