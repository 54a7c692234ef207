//! Why code is refused.
ghost use Rattle.std.specs.Prelude.{◌≡◌};
ghost use Rattle.isp_verify.specs.FaultTexts.{number_of, name_of};
ghost use Rattle.isp_verify.specs.declared.fault.VerifyFault.TheVariants.{Memory};

use std::alloc::{AllocError, AllocFailed};
use std::error::Error;
use std::fmt;

/// The rule that code breaks.
#[derive(Clone, Copy, Debug, PartialEq, Eq)]
pub enum Rule {
    /// A register, array, place or text that is not there.
    BadRegister,
    /// Another class, element type, kind of array or constant than the table of instructions asks, or a `ret` of another result.
    BadKind,
    /// A jump to a number that is no instruction.
    BadJump,
    /// A call of no function, or one that does not fit the function.
    BadCall,
    /// A name that stands twice, an exported function with a vector, or no mask.
    BadEntry,
    /// A last instruction that control falls off, or no instruction.
    FallsOff,
}

impl Rule {
    /// The rule's number.
    pub fn number(self) -> u32
        ensures { result ≡ number_of self }
    {
        match self {
            Rule::BadRegister => 40,
            Rule::BadKind => 41,
            Rule::BadJump => 42,
            Rule::BadCall => 43,
            Rule::BadEntry => 44,
            Rule::FallsOff => 45,
        }
    }

    /// The rule's name.
    pub fn name(self) -> &'static str
        ensures { result.now ≡ name_of self }
    {
        match self {
            Rule::BadRegister => "BadRegister",
            Rule::BadKind => "BadKind",
            Rule::BadJump => "BadJump",
            Rule::BadCall => "BadCall",
            Rule::BadEntry => "BadEntry",
            Rule::FallsOff => "FallsOff",
        }
    }
}

impl fmt::Display for Rule {
    ghost use Rattle.std.specs.Prelude.{Some};
    ghost use Rattle.isp_verify.specs.FaultTexts.{rule_text};

    ghost output = { λ r. Some (rule_text r) };

    fn fmt<W: fmt::Write>(&self, f: &mut fmt::Formatter<W>) -> fmt::Result {
        write!(f, "{} {}", self.number(), self.name())
    }
}

impl Error for Rule {}

/// A rule that code breaks, and where: the function and its instruction, by their numbers from 0.
#[derive(Clone, Copy, Debug, PartialEq, Eq)]
pub struct Fault {
    pub rule: Rule,
    pub function: usize,
    pub instruction: usize,
}

impl fmt::Display for Fault {
    ghost use Rattle.std.specs.Prelude.{Some};
    ghost use Rattle.isp_verify.specs.FaultTexts.{fault_text};

    ghost output = { λ f. Some (fault_text f) };

    fn fmt<W: fmt::Write>(&self, f: &mut fmt::Formatter<W>) -> fmt::Result {
        write!(
            f,
            "{} in function {}, instruction {}",
            self.rule, self.function, self.instruction
        )
    }
}

impl Error for Fault {}

/// Why code is refused.
#[derive(Clone, Copy, Debug, PartialEq, Eq)]
pub enum VerifyFault {
    /// 0: memory was refused.
    Memory,
    /// The first fault.
    Refused(Fault),
}

impl fmt::Display for VerifyFault {
    ghost use Rattle.std.specs.Prelude.{Some};
    ghost use Rattle.isp_verify.specs.FaultTexts.{refusal_text};

    ghost output = { λ v. Some (refusal_text v) };

    fn fmt<W: fmt::Write>(&self, f: &mut fmt::Formatter<W>) -> fmt::Result {
        match self {
            VerifyFault::Memory => f.write_str("memory"),
            VerifyFault::Refused(fault) => write!(f, "{}", *fault),
        }
    }
}

impl Error for VerifyFault {}

impl From<AllocError> for VerifyFault {
    ghost from_gives = { λ _ e. e ≡ Memory };

    fn from(_error: AllocError) -> VerifyFault {
        VerifyFault::Memory
    }
}

impl<T: Drop> From<AllocFailed<T>> for VerifyFault {
    ghost from_gives = { λ _ e. e ≡ Memory };

    fn from(_error: AllocFailed<T>) -> VerifyFault {
        VerifyFault::Memory
    }
}
