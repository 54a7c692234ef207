//! A text is compiled, and an entry of it is run: the end as the promise of these very calls.
ghost use Rattle.std.specs.Prelude.{◌≡◌, List, Ok, IfOk, IfErr};
ghost use Rattle.isp_base.specs.declared.signature.Argument.{Argument};
ghost use Rattle.isp_runs.specs.Compilation.{IsCompilation};
ghost use Rattle.isp_front.specs.Front.{IsFaulty, IsSource};
ghost use Rattle.isp_lex.specs.declared.fault.Fault.{Fault};
ghost use Rattle.isp_typed.specs.Typed.{Program};
ghost use Rattle.isp_headline.specs.Answers.{Answers, Entered, IsMemory};
ghost use Rattle.isp_headline.specs.BoundHeadline.{IsFaithfulBound};
ghost use Rattle.isp_headline.specs.Headline.{IsFaithful};
ghost use Rattle.isp_headline.specs.ModuleHeadline.{IsModuleFaithful};

use crate::laws::{bound_headline, headline, module_headline};
use isp_base::Gang;
use isp_engine::{Image, Report, RunFault, compile, execute};
use isp_lex::SourceFault;
use std::alloc::Global;
use thiserror::Error;

/// Compiles a source text for a gang, as `compile` does.
///
/// The image does what the text means. From each exported function and all arguments the machine ends with some arrays, result and
/// output, or traps with some arrays and output, exactly when the gang does so, and otherwise goes on with the same output so far.
/// Where each instance stands alone, it ends with the arrays of its instances run one by one. A call in the image's module of WebAssembly
/// returns and traps as the gang ends and traps. The text of a program is not refused, but for memory. The refusals are those of `front`. 0:
/// memory was refused.
pub fn compile_as_meant(alloc: Global, text: &str, gang: Gang) -> Result<Image, SourceFault>
    ensures compiled { IfOk result (IsCompilation gang text.now) }
    ensures faithful { IfOk result (IsFaithful gang text.now) }
    ensures bound { IfOk result (IsFaithfulBound gang text.now) }
    ensures in_module { IfOk result (IsModuleFaithful gang text.now) }
    ensures only { (program : Program) → IsSource gang text.now program → IfErr result (λ e. e ≡ SourceFault.Memory) }
    ensures refused { IfErr result (λ e. (f : Fault) → e ≡ SourceFault.Refused f → IsFaulty gang text.now f) }
{
    headline();
    bound_headline();
    module_headline();
    let image = compile(alloc, text, gang)?;
    let _code = image.code();
    Ok(image)
}

/// Why a text gives no report.
#[derive(Clone, Copy, Debug, Error, PartialEq, Eq)]
pub enum Refusal {
    /// 1 to 33: the text is refused, or memory was while it was compiled.
    #[error("{0}")]
    Source(SourceFault),
    /// 50: no exported function has the entry's name; 70 to 76: the arguments are refused. Or memory was refused to the run.
    #[error("{0}")]
    Run(RunFault),
}

impl From<SourceFault> for Refusal {
    ghost use Rattle.isp_headline.specs.declared.calls.Refusal.TheVariants.{Source};

    ghost from_gives = { λ fault refusal. refusal ≡ Source fault };

    fn from(fault: SourceFault) -> Refusal {
        Refusal::Source(fault)
    }
}

impl From<RunFault> for Refusal {
    ghost use Rattle.isp_headline.specs.declared.calls.Refusal.TheVariants.{Run};

    ghost from_gives = { λ fault refusal. refusal ≡ Run fault };

    fn from(fault: RunFault) -> Refusal {
        Refusal::Run(fault)
    }
}

/// Compiles a source text for a gang, and runs an exported function from arguments in JSON, for at most `budget` instructions.
///
/// The report is that of how a machine stands then, which does what the text means. A text that is a program, with an exported
/// function and arguments of it, is not refused, but for memory. The refusals are those of `front`, then those of `execute`.
pub fn run_as_meant(
    alloc: Global,
    text: &str,
    gang: Gang,
    entry: &str,
    json: &str,
    budget: u64,
) -> Result<Report, Refusal>
    ensures answers { Answers gang text.now entry.now json.now budget result }
    ensures only { (xs : List Argument) → Entered gang text.now entry.now json.now (Ok xs) → IfErr result IsMemory }
{
    let image = compile_as_meant(alloc, text, gang)?;
    let report = execute(alloc, &image, entry, json, budget)?;
    Ok(report)
}
