//! Why a text gives no arguments.
ghost use Rattle.std.specs.Prelude.{◌≡◌};

use std::alloc::{AllocError, AllocFailed};
use std::error::Error;
use std::fmt;

/// Why a JSON text gives no arguments. It is shown as its number and its name.
#[derive(Clone, Copy, Debug, PartialEq, Eq)]
pub enum BindFault {
    /// 0: memory was refused.
    Memory,
    /// 70: the text is no JSON.
    NotJson,
    /// 71: the text is no object.
    NotObject,
    /// 72: a parameter has no member.
    Missing,
    /// 73: a member has no parameter.
    Extra,
    /// 74: a member or an element is not of the parameter's kind: a whole number of at most 64
    /// bits for an integer type, `true` or `false` for bool, a list for an array.
    WrongKind,
    /// 75: a whole number that the element type has not.
    OutOfRange,
    /// 76: an array of more than 16,777,216 elements.
    TooLong,
}

impl fmt::Display for BindFault {
    ghost use Rattle.std.specs.Prelude.{Some};
    ghost use Rattle.isp_bind.specs.Faults.{fault_text};

    ghost output = { λ f. Some (fault_text f) };

    fn fmt<W: fmt::Write>(&self, f: &mut fmt::Formatter<W>) -> fmt::Result {
        match self {
            BindFault::Memory => f.write_str("memory"),
            BindFault::NotJson => f.write_str("70 NotJson"),
            BindFault::NotObject => f.write_str("71 NotObject"),
            BindFault::Missing => f.write_str("72 Missing"),
            BindFault::Extra => f.write_str("73 Extra"),
            BindFault::WrongKind => f.write_str("74 WrongKind"),
            BindFault::OutOfRange => f.write_str("75 OutOfRange"),
            BindFault::TooLong => f.write_str("76 TooLong"),
        }
    }
}

impl Error for BindFault {}

impl From<AllocError> for BindFault {
    ghost use Rattle.isp_bind.specs.declared.fault.BindFault.TheVariants.{Memory};

    ghost from_gives = { λ _ e. e ≡ Memory };

    fn from(_error: AllocError) -> BindFault {
        BindFault::Memory
    }
}

impl<T: Drop> From<AllocFailed<T>> for BindFault {
    ghost use Rattle.isp_bind.specs.declared.fault.BindFault.TheVariants.{Memory};

    ghost from_gives = { λ _ e. e ≡ Memory };

    fn from(_error: AllocFailed<T>) -> BindFault {
        BindFault::Memory
    }
}
