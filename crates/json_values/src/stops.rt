ghost use Rattle.std.specs.Prelude.{◌≡◌};

use pp_values::Memory;
use std::alloc::{AllocError, AllocFailed};
use thiserror::Error;

/// What becomes of a number that is no 64-bit integer.
#[derive(Clone, Copy, Debug, PartialEq, Eq)]
pub enum Numbers {
    /// It is `Undef`, as in facts.
    Lenient,
    /// The whole is refused, as in data.
    Strict,
}

/// Why JSON data gave no value.
#[derive(Clone, Copy, Debug, PartialEq, Eq, Error)]
pub enum DataStop {
    #[error("a number is no 64-bit integer")]
    Number,
    #[error("out of memory")]
    Memory,
}

impl From<Memory> for DataStop {
    ghost use Rattle.json_values.specs.declared.stops.DataStop.TheVariants as stop;

    ghost from_gives = { λ _ s. s ≡ stop.Memory };

    fn from(_refused: Memory) -> DataStop {
        DataStop::Memory
    }
}

impl From<AllocError> for DataStop {
    ghost use Rattle.json_values.specs.declared.stops.DataStop.TheVariants as stop;

    ghost from_gives = { λ _ s. s ≡ stop.Memory };

    fn from(_refused: AllocError) -> DataStop {
        DataStop::Memory
    }
}

impl<T: Drop> From<AllocFailed<T>> for DataStop {
    ghost use Rattle.json_values.specs.declared.stops.DataStop.TheVariants as stop;

    ghost from_gives = { λ _ s. s ≡ stop.Memory };

    fn from(_refused: AllocFailed<T>) -> DataStop {
        DataStop::Memory
    }
}

/// Why a value has no form, or JSON is no value's form.
#[derive(Clone, Copy, Debug, PartialEq, Eq, Error)]
pub enum FormStop {
    #[error("no form of a value")]
    NoForm,
    #[error("out of memory")]
    Memory,
}

impl From<Memory> for FormStop {
    ghost use Rattle.json_values.specs.declared.stops.FormStop.TheVariants as stop;

    ghost from_gives = { λ _ s. s ≡ stop.Memory };

    fn from(_refused: Memory) -> FormStop {
        FormStop::Memory
    }
}

impl From<AllocError> for FormStop {
    ghost use Rattle.json_values.specs.declared.stops.FormStop.TheVariants as stop;

    ghost from_gives = { λ _ s. s ≡ stop.Memory };

    fn from(_refused: AllocError) -> FormStop {
        FormStop::Memory
    }
}

impl<T: Drop> From<AllocFailed<T>> for FormStop {
    ghost use Rattle.json_values.specs.declared.stops.FormStop.TheVariants as stop;

    ghost from_gives = { λ _ s. s ≡ stop.Memory };

    fn from(_refused: AllocFailed<T>) -> FormStop {
        FormStop::Memory
    }
}
