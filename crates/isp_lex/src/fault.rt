//! Why a source text is refused.
ghost use Rattle.std.specs.Prelude.{◌≡◌};
ghost use Rattle.isp_lex.specs.Faults.{name_of, number_of};
ghost use Rattle.isp_lex.specs.declared.fault.SourceFault.TheVariants.{Memory};

use isp_base::Span;
use std::alloc::{AllocError, AllocFailed};
use std::fmt;
use thiserror::Error;

/// The rule that a source text breaks. Each has a number, by which the order of two faults at one
/// place is decided.
#[derive(Clone, Copy, Debug, PartialEq, Eq)]
pub enum Rule {
    /// A character that begins no token.
    BadByte,
    /// A run of letters and digits that begins with a digit and is no number.
    BadNumber,
    /// A text literal that does not go on.
    BadText,
    /// A comment that is not closed.
    OpenComment,
    /// A source of more than 1,048,576 bytes.
    TooLong,
    /// The first token with which no program goes on.
    Unexpected,
    /// A tree that is deeper than 128.
    TooDeep,
    /// The first token with which no program goes on, where it is a word that this language leaves out.
    LeftOut,
    /// A name that nothing declares.
    UnknownName,
    /// A variable twice in one scope, or a function whose name is taken.
    NameTwice,
    /// A kind of expression other than its place asks.
    Mismatch,
    /// A wrong number of arguments.
    Arguments,
    /// An assignment to a constant.
    ConstAssigned,
    /// A `print` whose values are not as many as its places.
    BadPrint,
    /// A varying value where a uniform one is wanted.
    VaryingToUniform,
    /// A `break`, `continue` or `return` where none may stand.
    BadExit,
    /// A `foreach` in a `foreach`.
    NestedForeach,
    /// An exported function with a varying parameter or result.
    BadExport,
}

impl Rule {
    /// The rule's number.
    pub fn number(self) -> u8
        ensures { result ≡ number_of self }
    {
        match self {
            Rule::BadByte => 1,
            Rule::BadNumber => 2,
            Rule::BadText => 3,
            Rule::OpenComment => 4,
            Rule::TooLong => 5,
            Rule::Unexpected => 10,
            Rule::TooDeep => 11,
            Rule::LeftOut => 12,
            Rule::UnknownName => 20,
            Rule::NameTwice => 21,
            Rule::Mismatch => 22,
            Rule::Arguments => 23,
            Rule::ConstAssigned => 24,
            Rule::BadPrint => 25,
            Rule::VaryingToUniform => 30,
            Rule::BadExit => 31,
            Rule::NestedForeach => 32,
            Rule::BadExport => 33,
        }
    }

    /// The rule's name.
    pub fn name(self) -> &'static str
        ensures { result.now ≡ name_of self }
    {
        match self {
            Rule::BadByte => "BadByte",
            Rule::BadNumber => "BadNumber",
            Rule::BadText => "BadText",
            Rule::OpenComment => "OpenComment",
            Rule::TooLong => "TooLong",
            Rule::Unexpected => "Unexpected",
            Rule::TooDeep => "TooDeep",
            Rule::LeftOut => "LeftOut",
            Rule::UnknownName => "UnknownName",
            Rule::NameTwice => "NameTwice",
            Rule::Mismatch => "Mismatch",
            Rule::Arguments => "Arguments",
            Rule::ConstAssigned => "ConstAssigned",
            Rule::BadPrint => "BadPrint",
            Rule::VaryingToUniform => "VaryingToUniform",
            Rule::BadExit => "BadExit",
            Rule::NestedForeach => "NestedForeach",
            Rule::BadExport => "BadExport",
        }
    }
}

impl fmt::Display for Rule {
    ghost use Rattle.std.specs.Prelude.{Some};
    ghost use Rattle.isp_lex.specs.Faults.{rule_text};

    ghost output = { λ r. Some (rule_text r) };

    fn fmt<W: fmt::Write>(&self, f: &mut fmt::Formatter<W>) -> fmt::Result {
        write!(f, "{} {}", self.number(), self.name())
    }
}

/// A rule that a source text breaks, and where: byte places in the source.
#[derive(Clone, Copy, Debug, PartialEq, Eq, Error)]
#[error("{rule} at {span}")]
pub struct Fault {
    pub rule: Rule,
    pub span: Span,
}

/// Why a source text is refused.
#[derive(Clone, Copy, Debug, PartialEq, Eq, Error)]
pub enum SourceFault {
    /// 0: memory was refused.
    #[error("memory")]
    Memory,
    #[error("{0}")]
    Refused(Fault),
}

impl From<AllocError> for SourceFault {
    ghost from_gives = { λ _ e. e ≡ Memory };

    fn from(_error: AllocError) -> SourceFault {
        SourceFault::Memory
    }
}

impl<T: Drop> From<AllocFailed<T>> for SourceFault {
    ghost from_gives = { λ _ e. e ≡ Memory };

    fn from(_error: AllocFailed<T>) -> SourceFault {
        SourceFault::Memory
    }
}
