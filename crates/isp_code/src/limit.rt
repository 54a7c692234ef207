//! Why code does not take what is added.
ghost use Rattle.std.specs.Prelude.{◌≡◌};
ghost use Rattle.isp_code.specs.declared.limit.CodeLimit.TheVariants.{Memory};

use std::alloc::{AllocError, AllocFailed};
use std::error::Error;
use std::fmt;

/// What is added to code was not taken, and the code is as before.
#[derive(Clone, Copy, Debug, PartialEq, Eq)]
pub enum CodeLimit {
    /// 0: memory was refused.
    Memory,
    /// 46: the text of code cannot have it.
    OverLimit,
}

impl fmt::Display for CodeLimit {
    ghost use Rattle.std.specs.Prelude.{Some};
    ghost use Rattle.isp_code.specs.Limits.{limit_text};

    ghost output = { λ l. Some (limit_text l) };

    fn fmt<W: fmt::Write>(&self, f: &mut fmt::Formatter<W>) -> fmt::Result {
        match self {
            CodeLimit::Memory => f.write_str("memory"),
            CodeLimit::OverLimit => f.write_str("46 OverLimit"),
        }
    }
}

impl Error for CodeLimit {}

impl From<AllocError> for CodeLimit {
    ghost from_gives = { λ _ e. e ≡ Memory };

    fn from(_error: AllocError) -> CodeLimit {
        CodeLimit::Memory
    }
}

impl<T: Drop> From<AllocFailed<T>> for CodeLimit {
    ghost from_gives = { λ _ e. e ≡ Memory };

    fn from(_error: AllocFailed<T>) -> CodeLimit {
        CodeLimit::Memory
    }
}
