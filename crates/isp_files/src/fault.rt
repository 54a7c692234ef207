//! Why bytes are no file of a format.
ghost use Rattle.std.specs.Prelude.{◌≡◌};
ghost use Rattle.isp_files.specs.declared.fault.FileFault.TheVariants.{Memory};
ghost use Rattle.isp_files.specs.declared.fault.Slip.TheVariants.{Memory as NoMemory};

use std::alloc::{AllocError, AllocFailed};
use thiserror::Error;

/// What is wrong with the bytes of a file.
#[derive(Clone, Copy, Debug, PartialEq, Eq, Error)]
pub enum Flaw {
    /// The file ends here, or the header of an NPY file, and more must follow.
    #[error("the file ends too early")]
    Ends,
    /// The file does not begin as one of its format.
    #[error("this is no file of its format")]
    Magic,
    /// An NPY file of a version other than 1.0, 2.0 and 3.0.
    #[error("this version is not known")]
    Version,
    /// A byte of a header that no header has here.
    #[error("no header goes on so")]
    Header,
    /// The three entries of an NPY header are not `descr`, `fortran_order` and `shape`.
    #[error("the header has no type, no order or no shape")]
    Keys,
    /// An NPY type with the big end first.
    #[error("numbers with the big end first")]
    BigEndian,
    /// An NPY type of floating point or complex numbers.
    #[error("floating point numbers")]
    Float,
    /// An NPY type of structures.
    #[error("structures")]
    Struct,
    /// Another NPY type that is neither bool nor whole numbers of 8 to 64 bits.
    #[error("elements of a type that isp does not have")]
    UnknownType,
    /// An NPY file with the first index next to each other.
    #[error("Fortran's order")]
    Fortran,
    /// A number above 2^63 - 1, or a shape with more elements than that.
    #[error("more elements than an array may have")]
    TooMany,
    /// An NPY shape of more than 64 dimensions.
    #[error("more than 64 dimensions")]
    TooDeep,
    /// The greatest sample of an image is 0, or above 65535.
    #[error("the greatest sample is not from 1 to 65535")]
    Maxval,
    /// A byte of a bool that is neither 0 nor 1, or a sample above the greatest that the header names.
    #[error("no value of its type")]
    NoValue,
    /// Bytes after the last element.
    #[error("more bytes than the elements take")]
    Long,
}

/// Why bytes are no file of a format.
#[derive(Clone, Copy, Debug, PartialEq, Eq, Error)]
pub enum FileFault {
    /// Memory was refused.
    #[error("memory")]
    Memory,
    /// The first thing that is wrong, and the byte where it stands, counted from 0.
    #[error("byte {byte}: {flaw}")]
    At { flaw: Flaw, byte: usize },
}

/// Why bytes cannot be read on: what is wrong, and how many bytes are left where it stands.
#[derive(Clone, Copy)]
pub(crate) enum Slip {
    Memory,
    At { flaw: Flaw, left: usize },
}

impl From<AllocError> for Slip {
    ghost from_gives = { λ _ e. e ≡ NoMemory };

    fn from(_error: AllocError) -> Slip {
        Slip::Memory
    }
}

impl<T: Drop> From<AllocFailed<T>> for Slip {
    ghost from_gives = { λ _ e. e ≡ NoMemory };

    fn from(_error: AllocFailed<T>) -> Slip {
        Slip::Memory
    }
}

impl From<AllocError> for FileFault {
    ghost from_gives = { λ _ e. e ≡ Memory };

    fn from(_error: AllocError) -> FileFault {
        FileFault::Memory
    }
}
