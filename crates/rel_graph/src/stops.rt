use res_core::Indexes;
use std::alloc::AllocError;

/// Why there is no graph.
#[derive(Debug, Drop)]
pub enum GraphStop {
    /// These resources contain each other, each the next one, and the last one the first.
    Contains(Indexes),
    Memory,
}

/// Why there is no order.
#[derive(Debug, Drop)]
pub enum OrderStop {
    /// These resources come before each other, each directly before the next one, and the last one before the first.
    Cycle(Indexes),
    Memory,
}

impl From<AllocError> for OrderStop {
    ghost use Rattle.std.specs.Prelude.{◌≡◌};
    ghost use Rattle.rel_graph.specs.declared.stops.OrderStop.TheVariants as stop;

    ghost from_gives = { λ _ e. e ≡ stop.Memory };

    fn from(_refused: AllocError) -> OrderStop {
        OrderStop::Memory
    }
}

impl From<AllocError> for GraphStop {
    ghost use Rattle.std.specs.Prelude.{◌≡◌};
    ghost use Rattle.rel_graph.specs.declared.stops.GraphStop.TheVariants as stop;

    ghost from_gives = { λ _ e. e ≡ stop.Memory };

    fn from(_refused: AllocError) -> GraphStop {
        GraphStop::Memory
    }
}
