//! Code as it is read.
ghost use Rattle.std.specs.Prelude.{◌≡◌, IfOk, IfErr, MatchResult, Some};
ghost use Rattle.isp_code.specs.Listing.{Listing};
ghost use Rattle.isp_code.specs.Writable.{IsWritable};
ghost use Rattle.isp_asm.specs.declared.fault.AsmFault.TheVariants as asm_fault;
ghost use Rattle.isp_asm.specs.declared.fault.Fault as faults;
ghost use Rattle.isp_asm.specs.Faults.{fault_of};
ghost use Rattle.isp_asm.specs.Spelling.{text_of};

use crate::draft::Draft;
use crate::fault::{AsmFault, Fault, Rule};
use isp_code::Code;
use std::alloc::Global;

/// The code of a text (docs/MACHINE.md, Code text).
///
/// What is the text of a code is read, and gives that code. Any other text is refused for its first wrong line, whose
/// number is told, from 1: 60 BadLine, 61 BadOperand, 62 BadLabel, 63 NotCanonical. 0: memory was refused.
pub fn read(alloc: Global, text: &str) -> Result<Code, AsmFault>
    ensures found { IfOk result (λ c. text_of c ≡ text.now) }
    // The text of a code is not refused, but for memory, and no other code has it.
    ensures only { (c : Listing) → IsWritable c → text_of c ≡ text.now → MatchResult result (λ d. d ≡ c) (λ e. e ≡ asm_fault.Memory) }
    ensures refused { IfErr result (λ e. (f : faults.Fault) → e ≡ asm_fault.Refused f → fault_of text.now ≡ Some f) }
{
    let mut draft = Draft::new(alloc);
    let mut rest = text;
    let mut number = 1;
    while let Some((line, behind)) = rest.split_once('\n') {
        if let Err(fault) = draft.line(alloc, line) {
            return Err(fault.at(number));
        }
        rest = behind;
        number += 1;
    }
    if rest.is_empty() && draft.may_end() {
        Ok(draft.into_code())
    } else {
        Err(AsmFault::Refused(Fault {
            rule: Rule::BadLine,
            line: number,
        }))
    }
}
