//! From a source text to its code.
ghost use Rattle.std.specs.Prelude.{◌≡◌, IfOk, IfErr};
ghost use Rattle.isp_front.specs.Front.{IsFaulty, IsSource};
ghost use Rattle.isp_lex.specs.declared.fault.Fault.{Fault};
ghost use Rattle.isp_rates.specs.Accepted.{IsAccepted};
ghost use Rattle.isp_runs.specs.Compilation.{IsCompilation};
ghost use Rattle.isp_typed.specs.Typed.{Program};
ghost use Rattle.isp_typed.specs.Views.{program_of};

use isp_base::Gang;
use isp_front::front;
use isp_lex::SourceFault;
use isp_masks::lower;
use isp_rates::Checked;
use isp_runs::Image;
use isp_verify::{VerifyFault, verify};
use std::alloc::Global;

/// Compiles a source text for a gang.
///
/// The image has the code of the program that the text is, which does what the program means for all arguments of the
/// functions that it exports. Refusals are those of `front`. 0: memory was refused.
pub fn compile(alloc: Global, text: &str, gang: Gang) -> Result<Image, SourceFault>
    ensures compiled { IfOk result (λ image. IsCompilation gang text.now image) }
    // The source of a program is not refused, but for memory.
    ensures only { (program : Program) → IsSource gang text.now program → IfErr result (λ e. e ≡ SourceFault.Memory) }
    ensures refused { IfErr result (λ e. (f : Fault) → e ≡ SourceFault.Refused f → IsFaulty gang text.now f) }
{
    let checked = front(alloc, text, gang)?;
    accepted(&checked);
    let code = lower(alloc, &checked)?;
    match verify(alloc, code) {
        Ok(verified) => Ok(Image::new(verified)),
        Err((_code, refusal)) => match refusal {
            VerifyFault::Memory => Err(SourceFault::Memory),
            VerifyFault::Refused(_fault) => unreachable!(),
        },
    }
}

// What is checked is accepted by names, types, rates, exits and exports.
fn accepted(checked: &Checked)
    ensures { IsAccepted (program_of checked.now) }
{
    let _program = checked.program();
}
