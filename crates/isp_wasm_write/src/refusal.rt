//! Why a function is not written.
ghost use Rattle.std.specs.Prelude.{◌≡◌};
ghost use Rattle.isp_wasm_write.specs.declared.refusal.Refusal.TheVariants.{Memory};

use std::alloc::{AllocError, AllocFailed};

/// Why a function is not written.
#[derive(Clone, Copy, Debug, PartialEq, Eq)]
pub enum Refusal {
    /// Memory was refused.
    Memory,
    /// A register has no local, or a place or a text is not there: none of accepted code is so.
    NoLocal,
    /// An engine takes at most 1,000 parameters; an array is two.
    TooManyParameters,
    /// An engine takes at most 50,000 locals, the parameters among them.
    TooManyLocals,
    /// The number of an instruction has 32 bits.
    TooLong,
}

impl From<AllocError> for Refusal {
    ghost from_gives = { λ _ e. e ≡ Memory };

    fn from(_error: AllocError) -> Refusal {
        Refusal::Memory
    }
}

impl<T: Drop> From<AllocFailed<T>> for Refusal {
    ghost from_gives = { λ _ e. e ≡ Memory };

    fn from(_error: AllocFailed<T>) -> Refusal {
        Refusal::Memory
    }
}
