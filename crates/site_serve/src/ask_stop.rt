ghost use Rattle.std.specs.Prelude.{◌≡◌};

use crate::refusal::Refusal;
use pp_values::Memory;

/// Why nothing was read that a request asks.
#[derive(Clone, Copy, Debug, PartialEq, Eq)]
pub(crate) enum AskStop {
    Refused(Refusal),
    Memory,
}

impl From<Memory> for AskStop {
    ghost use Rattle.site_serve.specs.declared.ask_stop.AskStop.TheVariants as stop;

    ghost from_gives = { λ _ s. s ≡ stop.Memory };

    fn from(_memory: Memory) -> AskStop {
        AskStop::Memory
    }
}
