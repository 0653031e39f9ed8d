use pp_values::{Memory, Refs};
use std::alloc::AllocError;

/// Why a catalog was not applied, or not all of it.
#[derive(Debug, Drop)]
pub enum RunStop {
    /// Each of these stands before or around the next one, and the last one before or around the first.
    Cycle(Refs),
    Memory,
}

impl From<Memory> for RunStop {
    ghost use Rattle.std.specs.Prelude.{◌≡◌};
    ghost use Rattle.agent_transaction.specs.declared.run_stop.RunStop.TheVariants as stop;

    ghost from_gives = { λ _ e. e ≡ stop.Memory };

    fn from(_refused: Memory) -> RunStop {
        RunStop::Memory
    }
}

impl From<AllocError> for RunStop {
    ghost use Rattle.std.specs.Prelude.{◌≡◌};
    ghost use Rattle.agent_transaction.specs.declared.run_stop.RunStop.TheVariants as stop;

    ghost from_gives = { λ _ e. e ≡ stop.Memory };

    fn from(_refused: AllocError) -> RunStop {
        RunStop::Memory
    }
}
