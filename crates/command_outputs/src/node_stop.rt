ghost use Rattle.std.specs.Prelude.{◌≡◌};

use pp_values::{Fault, Memory};

/// Why a node of a site has no catalog.
#[derive(Debug, Drop)]
pub enum NodeStop {
    /// The site doesn't list it.
    Unknown,

    /// Its compile is refused.
    Fault(Fault),

    Memory,
}

impl From<Memory> for NodeStop {
    ghost use Rattle.command_outputs.specs.declared.node_stop.NodeStop.TheVariants as stop;

    ghost from_gives = { λ _ e. e ≡ stop.Memory };

    fn from(_memory: Memory) -> NodeStop {
        NodeStop::Memory
    }
}
