//! Why `ispx run` does not end well.
ghost use Rattle.std.specs.Prelude.{◌≡◌};
ghost use Rattle.isp_run_stops.specs.Stopping.{status_of};

use isp_base::Trap;
use isp_lex::Fault;
use isp_messages::Element;
use isp_run_words::{GivenFault, OutputFault, Words};
use std::alloc::{AllocError, AllocFailed};

/// Why `ispx run` does not end well, with the exit status of each.
#[derive(Drop)]
pub enum RunStop<'a> {
    /// 2: a word that is none of a run.
    BadWord {
        word: &'a str,
        slip: Slip,
    },
    /// 6: the file of this name cannot be read.
    CannotRead(&'a str),
    /// 1: the source is refused.
    Source(Fault),
    /// 5: no function is exported under the name of the entry.
    NoEntry,
    /// 5: the words and their files give no arguments.
    NotGiven {
        words: Words,
        fault: GivenFault,
    },
    /// 5: the array of an output cannot be written so.
    NotPlanned {
        word: &'a str,
        fault: OutputFault,
    },
    /// 3: the run trapped, at this element where an access did.
    Trapped {
        trap: Trap,
        element: Option<Element>,
    },
    /// 4: as many instructions as may be run have not been enough.
    BudgetUsed,
    /// 6: the file of this name cannot be written.
    CannotWrite(&'a str),
    /// 6: the standard output cannot be written.
    NoOutput,
    /// 7: memory was refused.
    Memory,
}

/// What is wrong with a word.
#[derive(Clone, Copy, Debug, PartialEq, Eq)]
pub enum Slip {
    /// It is no `NAME=VALUE`.
    NoName,
    /// It holds all arguments, and is not alone.
    NotAlone,
    /// All arguments come from a file that is no JSON.
    NoObject,
    /// The file has no ending that is known.
    NoFormat,
    /// `zeros(..)` without lengths.
    NoLength,
    /// An output that is no `NAME=FILE`.
    NoEquals,
    /// An output to the file of another.
    SameFile,
}

impl From<AllocError> for RunStop<'_> {
    ghost use Rattle.isp_run_stops.specs.declared.stop.RunStop.TheVariants.{Memory};

    ghost from_gives = { λ _ stop. stop ≡ Memory };

    fn from(_error: AllocError) -> Self {
        RunStop::Memory
    }
}

impl<T: Drop> From<AllocFailed<T>> for RunStop<'_> {
    ghost use Rattle.isp_run_stops.specs.declared.stop.RunStop.TheVariants.{Memory};

    ghost from_gives = { λ _ stop. stop ≡ Memory };

    fn from(_error: AllocFailed<T>) -> Self {
        RunStop::Memory
    }
}

impl RunStop<'_> {
    /// The exit status.
    pub fn status(&self) -> u8
        ensures { result ≡ status_of self.now }
    {
        match self {
            RunStop::Source(_) => 1,
            RunStop::BadWord { .. } => 2,
            RunStop::Trapped { .. } => 3,
            RunStop::BudgetUsed => 4,
            RunStop::NoEntry | RunStop::NotGiven { .. } | RunStop::NotPlanned { .. } => 5,
            RunStop::CannotRead(_) | RunStop::CannotWrite(_) | RunStop::NoOutput => 6,
            RunStop::Memory => 7,
        }
    }
}
