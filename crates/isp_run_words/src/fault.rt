//! Why words and files give no arguments.
ghost use Rattle.std.specs.Prelude.{◌≡◌};
ghost use Rattle.isp_run_words.specs.declared.fault.GivenFault.TheVariants.{Memory};

use isp_bind::BindFault;
use isp_files::FileFault;
use std::alloc::{AllocError, AllocFailed};

/// Why words and files give no arguments. Parameters and words are counted from 0.
#[derive(Clone, Copy, Debug, PartialEq, Eq)]
pub enum GivenFault {
    /// Memory was refused.
    Memory,
    /// The text that holds all arguments is refused: a number of the pages, 70 to 76.
    Whole { fault: BindFault },
    /// No word gives the parameter a value.
    Missing { parameter: usize },
    /// The text of the parameter is no value of its type: a number of the pages, 70 to 76.
    Text { parameter: usize, fault: BindFault },
    /// The file of the parameter is none of its format.
    File { parameter: usize, fault: FileFault },
    /// An array for a value, or an array of another type.
    WrongKind { parameter: usize },
    /// No parameter has the name of the word.
    Unknown { word: usize },
    /// A word before has the same name.
    Twice { word: usize },
}

impl From<AllocError> for GivenFault {
    ghost from_gives = { λ _ e. e ≡ Memory };

    fn from(_error: AllocError) -> GivenFault {
        GivenFault::Memory
    }
}

impl<T: Drop> From<AllocFailed<T>> for GivenFault {
    ghost from_gives = { λ _ e. e ≡ Memory };

    fn from(_error: AllocFailed<T>) -> GivenFault {
        GivenFault::Memory
    }
}
