//! Why a function has no result, before its name and its place are known.
use pp_values::{Memory, Text};

/// What is wrong with a call.
#[derive(Drop)]
pub enum Refusal {
    /// No function has that name.
    Unknown,
    /// The function takes another number or other kinds of arguments.
    Arguments,
    /// The result is no 64-bit integer.
    Range,
    /// The call asks for a failure, with this message.
    Failed(Text),
}

/// Why a step gave no value.
#[derive(Drop)]
pub enum Halt {
    Refused(Refusal),
    Memory,
}

impl From<Memory> for Halt {
    ghost use Rattle.std.specs.Prelude.{◌≡◌};
    ghost use Rattle.pp_funcs.specs.declared.refusal.Halt.TheVariants as halt;

    ghost from_gives = { λ _ h. h ≡ halt.Memory };

    fn from(_refused: Memory) -> Halt {
        Halt::Memory
    }
}
