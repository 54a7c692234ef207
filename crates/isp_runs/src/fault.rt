//! Why code is not loaded, and why a run gives no report.
ghost use Rattle.std.specs.Prelude.{◌≡◌};
ghost use Rattle.isp_bind.specs.Faults.{fault_text};
ghost use Rattle.isp_runs.specs.RunFaults.{run_fault_text};

use isp_asm::AsmFault;
use isp_bind::BindFault;
use isp_output::SinkFault;
use isp_verify::VerifyFault;
use std::alloc::{AllocError, AllocFailed};
use std::error::Error;
use std::fmt;

/// Why a run gives no report. It is shown as its number and its name.
#[derive(Clone, Copy, Debug, PartialEq, Eq)]
pub enum RunFault {
    /// 0: memory was refused.
    Memory,
    /// 50: no exported function has the entry's name.
    NoEntry,
    /// 70 to 76: the arguments are refused. Of memory `Memory` tells, and never this.
    Arguments(BindFault),
    /// 81: the sink failed. `run_to` alone answers it.
    WriteFailed,
}

impl RunFault {
    /// Its number and its name, or `memory`.
    pub fn text(self) -> &'static str
        ensures { result.now ≡ run_fault_text self }
    {
        match self {
            RunFault::Memory => "memory",
            RunFault::NoEntry => "50 NoEntry",
            RunFault::Arguments(fault) => bind_fault_name(fault),
            RunFault::WriteFailed => "81 WriteFailed",
        }
    }
}

// The same of a refusal of arguments.
fn bind_fault_name(fault: BindFault) -> &'static str
    ensures { result.now ≡ fault_text fault }
{
    match fault {
        BindFault::Memory => "memory",
        BindFault::NotJson => "70 NotJson",
        BindFault::NotObject => "71 NotObject",
        BindFault::Missing => "72 Missing",
        BindFault::Extra => "73 Extra",
        BindFault::WrongKind => "74 WrongKind",
        BindFault::OutOfRange => "75 OutOfRange",
        BindFault::TooLong => "76 TooLong",
    }
}

impl fmt::Display for RunFault {
    ghost use Rattle.std.specs.Prelude.{Some};
    ghost use Rattle.isp_runs.specs.RunFaults.{run_fault_text};

    ghost output = { λ f. Some (run_fault_text f) };

    fn fmt<W: fmt::Write>(&self, f: &mut fmt::Formatter<W>) -> fmt::Result {
        f.write_str(self.text())
    }
}

impl Error for RunFault {}

impl From<AllocError> for RunFault {
    ghost use Rattle.isp_runs.specs.declared.fault.RunFault.TheVariants.{Memory};

    ghost from_gives = { λ _ e. e ≡ Memory };

    fn from(_error: AllocError) -> RunFault {
        RunFault::Memory
    }
}

impl<T: Drop> From<AllocFailed<T>> for RunFault {
    ghost use Rattle.isp_runs.specs.declared.fault.RunFault.TheVariants.{Memory};

    ghost from_gives = { λ _ e. e ≡ Memory };

    fn from(_error: AllocFailed<T>) -> RunFault {
        RunFault::Memory
    }
}

impl From<SinkFault> for RunFault {
    ghost use Rattle.isp_runs.specs.declared.fault.RunFault.TheVariants.{WriteFailed};

    ghost from_gives = { λ _ e. e ≡ WriteFailed };

    fn from(_fault: SinkFault) -> RunFault {
        RunFault::WriteFailed
    }
}

impl From<BindFault> for RunFault {
    ghost use Rattle.isp_runs.specs.RunFaults.{run_fault};

    ghost from_gives = { λ f e. e ≡ run_fault f };

    fn from(fault: BindFault) -> RunFault {
        match fault {
            BindFault::Memory => RunFault::Memory,
            _ => RunFault::Arguments(fault),
        }
    }
}

/// Why a text gives no image. It is shown as a number, a name and a place.
#[derive(Clone, Copy, Debug, PartialEq, Eq)]
pub enum CodeFault {
    /// 0: memory was refused.
    Memory,
    /// 60 to 63: the text is that of no code.
    Text(isp_asm::Fault),
    /// 40 to 45: the code is refused.
    Code(isp_verify::Fault),
}

impl fmt::Display for CodeFault {
    ghost use Rattle.std.specs.Prelude.{Some};
    ghost use Rattle.isp_runs.specs.CodeFaults.{code_fault_text};

    ghost output = { λ f. Some (code_fault_text f) };

    fn fmt<W: fmt::Write>(&self, f: &mut fmt::Formatter<W>) -> fmt::Result {
        match self {
            CodeFault::Memory => f.write_str("memory"),
            CodeFault::Text(fault) => write!(f, "{fault}"),
            CodeFault::Code(fault) => write!(f, "{fault}"),
        }
    }
}

impl Error for CodeFault {}

impl From<AsmFault> for CodeFault {
    ghost use Rattle.isp_runs.specs.CodeFaults.{text_refusal};

    ghost from_gives = { λ f e. e ≡ text_refusal f };

    fn from(fault: AsmFault) -> CodeFault {
        match fault {
            AsmFault::Memory => CodeFault::Memory,
            AsmFault::Refused(fault) => CodeFault::Text(fault),
        }
    }
}

impl From<VerifyFault> for CodeFault {
    ghost use Rattle.isp_runs.specs.CodeFaults.{code_refusal};

    ghost from_gives = { λ f e. e ≡ code_refusal f };

    fn from(fault: VerifyFault) -> CodeFault {
        match fault {
            VerifyFault::Memory => CodeFault::Memory,
            VerifyFault::Refused(fault) => CodeFault::Code(fault),
        }
    }
}
