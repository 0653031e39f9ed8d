//! Why an operator has no result, before its operator and its place are known.
use pp_values::Memory;

/// What is wrong with the operands.
#[derive(Clone, Copy)]
pub enum Refusal {
    /// They are of kinds that the operator does not take.
    Operand,
    /// The result is no 64-bit integer.
    Range,
    /// The divisor is 0.
    Zero,
}

/// Why a step gave no value.
#[derive(Clone, Copy)]
pub enum Halt {
    Refused(Refusal),
    Memory,
}

impl From<Memory> for Halt {
    ghost use Rattle.std.specs.Prelude.{◌≡◌};
    ghost use Rattle.pp_ops.specs.declared.refusal.Halt.TheVariants as halt;

    ghost from_gives = { λ _ h. h ≡ halt.Memory };

    fn from(_refused: Memory) -> Halt {
        Halt::Memory
    }
}
