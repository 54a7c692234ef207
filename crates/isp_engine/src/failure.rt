//! Why the program ends with a status other than 0.
ghost use Rattle.std.specs.Prelude.{◌≡◌};
ghost use Rattle.isp_engine.specs.Failures.{bind_failure, code_failure, eval_failure, run_failure, source_failure, status_of};

use isp_base::Trap;
use isp_bind::BindFault;
use isp_entry::EvalFault;
use isp_independence::Dependence;
use isp_lex::{Fault, SourceFault};
use isp_runs::{CodeFault, RunFault};
use std::alloc::AllocError;

/// Why the program ends with a status other than 0. Its line on standard error is `failure_line` (specs/Failures.antt).
#[derive(Drop)]
pub enum Failure<'a> {
    /// 1: the source is refused.
    Source(Fault),
    /// 3: a trap.
    Trapped(Trap),
    /// 4: as many instructions as may be run have not been enough.
    BudgetUsed,
    /// 4: a loop of this instance, run alone, would make more turns than it may.
    TurnsUsed(usize),
    /// 5: no such entry, or the arguments are refused. Of memory and a failed write the others tell, and never this.
    Run(RunFault),
    /// 6: the file of this name cannot be read.
    CannotRead(&'a str),
    /// 6: the output cannot be written.
    CannotWrite,
    /// 7: memory was refused.
    Memory,
    /// 8: the code is refused. Of memory `Memory` tells, and never this.
    Code(CodeFault),
    /// 9: the entry is not independent.
    NotIndependent(Dependence),
    /// 9: two instances, each run alone, clash at an element of the parameter of this name.
    NotApart { name: String, element: usize },
}

impl Failure<'_> {
    /// The exit status.
    pub fn status(&self) -> u8
        ensures { result ≡ status_of self.now }
    {
        match self {
            Failure::Source(_) => 1,
            Failure::Trapped(_) => 3,
            Failure::BudgetUsed | Failure::TurnsUsed(_) => 4,
            Failure::Run(_) => 5,
            Failure::CannotRead(_) | Failure::CannotWrite => 6,
            Failure::Memory => 7,
            Failure::Code(_) => 8,
            Failure::NotIndependent(_) | Failure::NotApart { .. } => 9,
        }
    }
}

impl From<SourceFault> for Failure<'_> {
    ghost from_gives = { λ fault failure. failure ≡ source_failure fault };

    fn from(fault: SourceFault) -> Self {
        match fault {
            SourceFault::Memory => Failure::Memory,
            SourceFault::Refused(fault) => Failure::Source(fault),
        }
    }
}

impl From<RunFault> for Failure<'_> {
    ghost from_gives = { λ fault failure. failure ≡ run_failure fault };

    fn from(fault: RunFault) -> Self {
        match fault {
            RunFault::Memory => Failure::Memory,
            RunFault::WriteFailed => Failure::CannotWrite,
            _ => Failure::Run(fault),
        }
    }
}

impl From<CodeFault> for Failure<'_> {
    ghost from_gives = { λ fault failure. failure ≡ code_failure fault };

    fn from(fault: CodeFault) -> Self {
        match fault {
            CodeFault::Memory => Failure::Memory,
            _ => Failure::Code(fault),
        }
    }
}

impl From<BindFault> for Failure<'_> {
    ghost from_gives = { λ fault failure. failure ≡ bind_failure fault };

    fn from(fault: BindFault) -> Self {
        match fault {
            BindFault::Memory => Failure::Memory,
            _ => Failure::Run(RunFault::Arguments(fault)),
        }
    }
}

impl From<EvalFault> for Failure<'_> {
    ghost from_gives = { λ fault failure. failure ≡ eval_failure fault };

    fn from(fault: EvalFault) -> Self {
        match fault {
            EvalFault::Memory => Failure::Memory,
            EvalFault::NoEntry => Failure::Run(RunFault::NoEntry),
            EvalFault::NotIndependent(dependence) => Failure::NotIndependent(dependence),
        }
    }
}

impl From<AllocError> for Failure<'_> {
    ghost use Rattle.isp_engine.specs.declared.failure.Failure.TheVariants.{Memory};

    ghost from_gives = { λ _ failure. failure ≡ Memory };

    fn from(_error: AllocError) -> Self {
        Failure::Memory
    }
}
