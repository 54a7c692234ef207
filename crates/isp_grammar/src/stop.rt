//! Why a reading stopped.
ghost use Rattle.std.specs.Prelude.{◌≡◌};
ghost use Rattle.isp_grammar.specs.declared.stop.Stop.TheVariants.{Memory};

use std::alloc::{AllocError, AllocFailed};

/// What is wrong with the refused token.
#[derive(Clone, Copy)]
pub enum Why {
    Unexpected,
    TooDeep,
}

/// A refusal, and how many tokens are left from the refused one on.
#[derive(Clone, Copy)]
pub struct Refusal {
    pub why: Why,
    pub left: usize,
}

#[derive(Drop)]
pub enum Stop {
    Memory,
    Refused(Refusal),
}

impl From<AllocError> for Stop {
    ghost from_gives = { λ _ e. e ≡ Memory };

    fn from(_error: AllocError) -> Stop {
        Stop::Memory
    }
}

impl<T: Drop> From<AllocFailed<T>> for Stop {
    ghost from_gives = { λ _ e. e ≡ Memory };

    fn from(_error: AllocFailed<T>) -> Stop {
        Stop::Memory
    }
}
