//! Why an evaluation is refused.
ghost use Rattle.std.specs.Prelude.{◌≡◌};
ghost use Rattle.isp_entry.specs.declared.fault.EvalFault.TheVariants.{Memory};

use isp_independence::Dependence;
use std::alloc::{AllocError, AllocFailed};
use thiserror::Error;

/// Why an evaluation is refused.
#[derive(Clone, Copy, Debug, PartialEq, Eq, Error)]
pub enum EvalFault {
    /// 0: memory was refused.
    #[error("memory")]
    Memory,
    /// 50: no exported function has the entry's name and the signature of the arguments.
    #[error("50 NoEntry")]
    NoEntry,
    /// 80: the entry is not independent, by this breach. Of `one_by_one` alone.
    #[error("80 NotIndependent")]
    NotIndependent(Dependence),
}

impl From<AllocError> for EvalFault {
    ghost from_gives = { λ _ e. e ≡ Memory };

    fn from(_error: AllocError) -> EvalFault {
        EvalFault::Memory
    }
}

impl<T: Drop> From<AllocFailed<T>> for EvalFault {
    ghost from_gives = { λ _ e. e ≡ Memory };

    fn from(_error: AllocFailed<T>) -> EvalFault {
        EvalFault::Memory
    }
}
