//! How a run stands.
ghost use Rattle.std.specs.Prelude.{◌≡◌};
ghost use Rattle.isp_machine.specs.declared.stop.StartFault.TheVariants.{Memory};

use isp_base::{Trap, Value};
use std::alloc::AllocError;
use std::error::Error;
use std::fmt;

/// Where a run stands after some instructions.
#[derive(Clone, Copy, Debug)]
pub enum Stop {
    /// It has come to its end.
    Ended,
    /// It has met a trap.
    Trapped(Trap),
    /// The budget is used up, and the run can go on.
    Running,
    /// Memory was refused. The run stands before the instruction that wanted it, and can go on.
    Memory,
}

/// Why a run does not begin.
#[derive(Clone, Copy, Debug, PartialEq, Eq)]
pub enum StartFault {
    /// 0: memory was refused.
    Memory,
    /// 50: no exported function has the entry's name and the signature of the arguments.
    NoEntry,
}

impl fmt::Display for StartFault {
    ghost use Rattle.std.specs.Prelude.{Some};
    ghost use Rattle.isp_machine.specs.StartTexts.{start_text};

    ghost output = { λ s. Some (start_text s) };

    fn fmt<W: fmt::Write>(&self, f: &mut fmt::Formatter<W>) -> fmt::Result {
        match self {
            StartFault::Memory => f.write_str("memory"),
            StartFault::NoEntry => f.write_str("50 NoEntry"),
        }
    }
}

impl Error for StartFault {}

impl From<AllocError> for StartFault {
    ghost from_gives = { λ _ e. e ≡ Memory };

    fn from(_error: AllocError) -> StartFault {
        StartFault::Memory
    }
}

/// What comes of one instruction: the run goes on, or it is at an end.
#[derive(Clone, Copy)]
pub(crate) enum Step {
    Went,
    Trapped(Trap),
    Ended(Option<Value>),
}
