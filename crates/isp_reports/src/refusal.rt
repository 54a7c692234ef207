//! Why a call ends with a status other than 0.
ghost use Rattle.std.specs.Prelude.{◌≡◌};
ghost use Rattle.isp_reports.specs.Refusals.{in_json, refusal_of, status_of};

use isp_bind::BindFault;
use isp_engine::{Failure, RunFault};
use isp_packed::PackedFault;

/// Why a call ends with a status other than 0.
#[derive(Drop)]
pub enum Refusal<'a> {
    /// 2: no gang has so many instances.
    NoGang,
    /// As the program fails.
    Failed(Failure<'a>),
    /// 5: the bytes are not those of arguments. Of memory `Failed` tells, and never this.
    Arguments(PackedFault),
    /// 8: no module of WebAssembly is made of the code, and the line that says why.
    NoModule(String),
    /// 10: the room is too small.
    Short,
}

impl Refusal<'_> {
    /// The status of the call.
    pub(crate) fn status(&self) -> u8
        ensures { result ≡ status_of self.now }
    {
        match self {
            Refusal::NoGang => 2,
            Refusal::Failed(failure) => failure.status(),
            Refusal::Arguments(_) => 5,
            Refusal::NoModule(_) => 8,
            Refusal::Short => 10,
        }
    }
}

impl From<PackedFault> for Refusal<'_> {
    ghost from_gives = { λ fault refusal. refusal ≡ refusal_of fault };

    fn from(fault: PackedFault) -> Self {
        match fault {
            PackedFault::Memory => Refusal::Failed(Failure::Memory),
            _ => Refusal::Arguments(fault),
        }
    }
}

/// How the same arguments are refused in JSON.
pub(crate) fn in_json(fault: PackedFault) -> Failure<'static>
    ensures { result ≡ in_json fault }
{
    match fault {
        PackedFault::Memory => Failure::Memory,
        PackedFault::Short { .. } => Failure::Run(RunFault::Arguments(BindFault::Missing)),
        PackedFault::Long => Failure::Run(RunFault::Arguments(BindFault::Extra)),
        PackedFault::OutOfRange { .. } => Failure::Run(RunFault::Arguments(BindFault::OutOfRange)),
        PackedFault::TooLong { .. } => Failure::Run(RunFault::Arguments(BindFault::TooLong)),
    }
}
