//! Why a text is no list of cases.
ghost use Rattle.std.specs.Prelude.{◌≡◌};

use std::alloc::{AllocError, AllocFailed};
use std::error::Error;
use std::fmt;

/// A member of a case.
#[derive(Clone, Copy, Debug, PartialEq, Eq)]
pub enum Member {
    Name,
    Entry,
    Arguments,
    Arrays,
    Trap,
}

/// Why a text is no list of cases. Cases are counted from 1.
#[derive(Clone, Copy, Debug, PartialEq, Eq)]
pub enum CaseFault {
    /// Memory was refused.
    Memory,
    /// The text is no JSON, from this line and column on.
    NotJson { line: usize, column: usize },
    /// It is no list.
    NotList,
    /// The case of this number is no object.
    NotObject(usize),
    /// It has no such member.
    Missing(usize, Member),
    /// The member is of another kind: the name, the entry and the trap are strings, a trap one of four, and the arrays are an object.
    WrongKind(usize, Member),
    /// It has neither an answer nor a trap.
    NothingWanted(usize),
    /// It has both.
    TwoWanted(usize),
}

impl fmt::Display for Member {
    fn fmt<W: fmt::Write>(&self, f: &mut fmt::Formatter<W>) -> fmt::Result {
        f.write_str(match self {
            Member::Name => "\"name\"",
            Member::Entry => "\"entry\"",
            Member::Arguments => "\"arguments\"",
            Member::Arrays => "\"arrays\" in \"answer\"",
            Member::Trap => "\"trap\"",
        })
    }
}

impl Member {
    // What stands there.
    fn kind(self) -> &'static str {
        match self {
            Member::Name | Member::Entry => "a string",
            Member::Arguments | Member::Arrays => "an object",
            Member::Trap => "\"divide\", \"index\", \"assert\" or \"depth\"",
        }
    }
}

impl fmt::Display for CaseFault {
    fn fmt<W: fmt::Write>(&self, f: &mut fmt::Formatter<W>) -> fmt::Result {
        match self {
            CaseFault::Memory => f.write_str("memory"),
            CaseFault::NotJson { line, column } => {
                write!(f, "line {line}, column {column}: not JSON")
            }
            CaseFault::NotList => f.write_str("not a list"),
            CaseFault::NotObject(number) => write!(f, "case {number}: not an object"),
            CaseFault::Missing(number, member) => {
                write!(f, "case {number}: {member} is missing")
            }
            CaseFault::WrongKind(number, member) => {
                write!(f, "case {number}: {member} is not {}", member.kind())
            }
            CaseFault::NothingWanted(number) => {
                write!(f, "case {number}: neither \"answer\" nor \"trap\"")
            }
            CaseFault::TwoWanted(number) => {
                write!(f, "case {number}: both \"answer\" and \"trap\"")
            }
        }
    }
}

impl Error for CaseFault {}

impl From<AllocError> for CaseFault {
    ghost use Rattle.isp_case_files.specs.declared.fault.CaseFault.TheVariants.{Memory};

    ghost from_gives = { λ _ e. e ≡ Memory };

    fn from(_error: AllocError) -> CaseFault {
        CaseFault::Memory
    }
}

impl<T: Drop> From<AllocFailed<T>> for CaseFault {
    ghost use Rattle.isp_case_files.specs.declared.fault.CaseFault.TheVariants.{Memory};

    ghost from_gives = { λ _ e. e ≡ Memory };

    fn from(_error: AllocFailed<T>) -> CaseFault {
        CaseFault::Memory
    }
}
