ghost use Rattle.std.specs.Prelude.{◌≡◌};

use pp_values::{Memory, Text};
use std::alloc::{AllocError, AllocFailed};
use std::error::Error;
use std::fmt;

/// Why JSON is no machine.
#[derive(Debug, Drop)]
pub enum MachineStop {
    /// What stands at this path is not of its kind.
    Bad(Text),
    Memory,
}

impl From<Memory> for MachineStop {
    ghost use Rattle.agent_docs.specs.declared.machine_stop.MachineStop.TheVariants as stop;

    ghost from_gives = { λ _ s. s ≡ stop.Memory };

    fn from(_refused: Memory) -> MachineStop {
        MachineStop::Memory
    }
}

impl From<AllocError> for MachineStop {
    ghost use Rattle.agent_docs.specs.declared.machine_stop.MachineStop.TheVariants as stop;

    ghost from_gives = { λ _ s. s ≡ stop.Memory };

    fn from(_refused: AllocError) -> MachineStop {
        MachineStop::Memory
    }
}

impl<T: Drop> From<AllocFailed<T>> for MachineStop {
    ghost use Rattle.agent_docs.specs.declared.machine_stop.MachineStop.TheVariants as stop;

    ghost from_gives = { λ _ s. s ≡ stop.Memory };

    fn from(_refused: AllocFailed<T>) -> MachineStop {
        MachineStop::Memory
    }
}

impl fmt::Display for MachineStop {
    fn fmt<W: fmt::Write>(&self, f: &mut fmt::Formatter<W>) -> fmt::Result {
        match self {
            MachineStop::Bad(path) => write!(f, "{path} is not of its kind"),
            MachineStop::Memory => f.write_str("out of memory"),
        }
    }
}

impl Error for MachineStop {}
