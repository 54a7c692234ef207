//! The code of checked programs.
ghost use Rattle.std.specs.Prelude.{◌≡◌, None, IfOk};
ghost use Rattle.isp_typed.specs.Views.{program_of};
ghost use Rattle.isp_verify.specs.Faults.{code_fault};
ghost use Rattle.isp_masks_code.specs.Agreement.{Agrees};

use crate::listing::program;
use isp_code::Code;
use isp_rates::Checked;
use std::alloc::{AllocError, Global};

/// The code of a checked program. It agrees with the program, and the verifier accepts it. It answers Memory only
/// where a growth was refused.
pub fn lower(alloc: Global, checked: &Checked) -> Result<Code, AllocError>
    ensures agrees { IfOk result (λ code. Agrees (program_of checked.now) code) }
    ensures accepted { IfOk result (λ code. code_fault code ≡ None) }
{
    program(alloc, checked)
}
