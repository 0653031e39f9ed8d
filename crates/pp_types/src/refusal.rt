//! Why a type is not made of its arguments, before its name and place are known.
use pp_values::Memory;
use std::alloc::AllocError;

/// Why there is no type.
#[derive(Clone, Copy)]
pub enum Halt {
    /// The arguments are others than the type takes.
    Refused,
    Memory,
}

impl From<Memory> for Halt {
    ghost use Rattle.std.specs.Prelude.{◌≡◌};
    ghost use Rattle.pp_types.specs.declared.refusal.Halt.TheVariants as halt;

    ghost from_gives = { λ _ h. h ≡ halt.Memory };

    fn from(_refused: Memory) -> Halt {
        Halt::Memory
    }
}

impl From<AllocError> for Halt {
    ghost use Rattle.std.specs.Prelude.{◌≡◌};
    ghost use Rattle.pp_types.specs.declared.refusal.Halt.TheVariants as halt;

    ghost from_gives = { λ _ h. h ≡ halt.Memory };

    fn from(_refused: AllocError) -> Halt {
        Halt::Memory
    }
}
