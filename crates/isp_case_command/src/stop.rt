//! Why `ispx test` does not end well.
ghost use Rattle.std.specs.Prelude.{◌≡◌};
ghost use Rattle.isp_case_command.specs.Stopping.{status_of};

use isp_case_files::CaseFault;
use isp_lex::Fault;
use std::alloc::{AllocError, AllocFailed};

/// Why `ispx test` does not end well, with the exit status of each.
#[derive(Clone, Copy, Debug)]
pub enum TestStop {
    /// 1: a case does not hold.
    Differs,
    /// 1: the source is refused.
    Source(Fault),
    /// 5: the text of the cases is no list of cases.
    NoList(CaseFault),
    /// 6: the source cannot be read.
    NoSource,
    /// 6: the file of the cases cannot be read.
    NoCases,
    /// 6: the standard output cannot be written.
    NoOutput,
    /// 7: memory was refused.
    Memory,
}

impl TestStop {
    /// The exit status.
    pub fn status(self) -> u8
        ensures { result ≡ status_of self }
    {
        match self {
            TestStop::Differs | TestStop::Source(_) => 1,
            TestStop::NoList(_) => 5,
            TestStop::NoSource | TestStop::NoCases | TestStop::NoOutput => 6,
            TestStop::Memory => 7,
        }
    }
}

impl From<AllocError> for TestStop {
    ghost use Rattle.isp_case_command.specs.declared.stop.TestStop.TheVariants.{Memory};

    ghost from_gives = { λ _ stop. stop ≡ Memory };

    fn from(_error: AllocError) -> TestStop {
        TestStop::Memory
    }
}

impl<T: Drop> From<AllocFailed<T>> for TestStop {
    ghost use Rattle.isp_case_command.specs.declared.stop.TestStop.TheVariants.{Memory};

    ghost from_gives = { λ _ stop. stop ≡ Memory };

    fn from(_error: AllocFailed<T>) -> TestStop {
        TestStop::Memory
    }
}

impl From<CaseFault> for TestStop {
    ghost use Rattle.isp_case_command.specs.Stopping.{case_stop};

    ghost from_gives = { λ fault stop. stop ≡ case_stop fault };

    fn from(fault: CaseFault) -> TestStop {
        match fault {
            CaseFault::Memory => TestStop::Memory,
            _ => TestStop::NoList(fault),
        }
    }
}
