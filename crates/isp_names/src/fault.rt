//! Why nothing is renamed.
ghost use Rattle.std.specs.Prelude.{◌≡◌};
ghost use Rattle.isp_names.specs.declared.fault.RenameFault.TheVariants.{Memory};

use isp_lex::Fault;
use std::alloc::AllocError;
use thiserror::Error;

/// Why nothing is renamed.
#[derive(Clone, Copy, Debug, Error)]
pub enum RenameFault {
    /// Memory was refused.
    #[error("memory")]
    Memory,
    /// The text is no program.
    #[error("{0}")]
    NoProgram(Fault),
    /// No name of the program stands there.
    #[error("no name")]
    NoName,
    /// The new name is no word, or is reserved.
    #[error("not a name")]
    NotAName,
    /// The library has a function of the new name.
    #[error("a name of the library")]
    OfLibrary,
    /// The text with the new name is no program.
    #[error("{0}")]
    Clash(Fault),
    /// A name would stand for something else.
    #[error("captured")]
    Captured,
}

impl From<AllocError> for RenameFault {
    ghost from_gives = { λ _ e. e ≡ Memory };

    fn from(_error: AllocError) -> RenameFault {
        RenameFault::Memory
    }
}
