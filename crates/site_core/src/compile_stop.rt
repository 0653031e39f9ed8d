ghost use Rattle.std.specs.Prelude.{◌≡◌};

use pp_values::Memory;
use std::alloc::{AllocError, AllocFailed};

/// Why a compile gave no catalog.
#[derive(Debug, Drop)]
pub enum CompileStop<F> {
    Fault(F),
    Memory,
}

impl<F> From<Memory> for CompileStop<F> {
    ghost use Rattle.site_core.specs.declared.compile_stop.CompileStop.TheVariants as stop;

    ghost from_gives = { λ _ e. e ≡ stop.Memory };

    fn from(_memory: Memory) -> CompileStop<F> {
        CompileStop::Memory
    }
}

impl<F> From<AllocError> for CompileStop<F> {
    ghost use Rattle.site_core.specs.declared.compile_stop.CompileStop.TheVariants as stop;

    ghost from_gives = { λ _ e. e ≡ stop.Memory };

    fn from(_refused: AllocError) -> CompileStop<F> {
        CompileStop::Memory
    }
}

impl<T: Drop, F> From<AllocFailed<T>> for CompileStop<F> {
    ghost use Rattle.site_core.specs.declared.compile_stop.CompileStop.TheVariants as stop;

    ghost from_gives = { λ _ e. e ≡ stop.Memory };

    fn from(_refused: AllocFailed<T>) -> CompileStop<F> {
        CompileStop::Memory
    }
}
