//! Why bytes give no arguments, and why an answer is not written.
ghost use Rattle.std.specs.Prelude.{◌≡◌};
ghost use Rattle.isp_packed.specs.declared.fault.PackedFault.TheVariants.{Memory};

use std::alloc::{AllocError, AllocFailed};
use thiserror::Error;

/// Why bytes give no arguments. Parameters and elements are counted from 0.
#[derive(Clone, Copy, Debug, PartialEq, Eq, Error)]
pub enum PackedFault {
    /// Memory was refused.
    #[error("memory")]
    Memory,
    /// The bytes end before the parameter does.
    #[error("the bytes end before parameter {parameter} does")]
    Short { parameter: usize },
    /// There are bytes after those of the last parameter.
    #[error("there are bytes behind the last parameter")]
    Long,
    /// A number that the type of the parameter does not have: a bool above 1, or bits above the
    /// width. Where the parameter is no array, the element is 0.
    #[error("element {element} of parameter {parameter} is no value of its type")]
    OutOfRange { parameter: usize, element: usize },
    /// An array of more than 2^63 - 1 elements: no array of the machine has so many.
    #[error("parameter {parameter} has more than 9223372036854775807 elements")]
    TooLong { parameter: usize },
}

/// An answer takes more bytes than there are. It takes `wanted`.
#[derive(Clone, Copy, Debug, PartialEq, Eq, Error)]
#[error("the answer takes {wanted} bytes")]
pub struct NoRoom {
    pub wanted: usize,
}

impl From<AllocError> for PackedFault {
    ghost from_gives = { λ _ e. e ≡ Memory };

    fn from(_error: AllocError) -> PackedFault {
        PackedFault::Memory
    }
}

impl<T: Drop> From<AllocFailed<T>> for PackedFault {
    ghost from_gives = { λ _ e. e ≡ Memory };

    fn from(_error: AllocFailed<T>) -> PackedFault {
        PackedFault::Memory
    }
}
