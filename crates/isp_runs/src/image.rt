//! Compiled programs, and code that was loaded.
ghost use Rattle.std.specs.Prelude.{◌≡◌, ◌≢◌, None, Some, IfOk, IfErr, MatchResult, string_bytes};
ghost use Rattle.isp_asm.specs.declared.fault.Fault.{Fault as TextFault};
ghost use Rattle.isp_verify.specs.declared.fault.Fault.{Fault as CodeRefusal};
ghost use Rattle.isp_code.specs.Listing.{Listing};
ghost use Rattle.isp_code.specs.Writable.{IsWritable};
ghost use Rattle.isp_verify.specs.Faults.{code_fault};
ghost use Rattle.isp_runs.specs.Loading.{IsCodeOf, IsLoaded, IsNotLoaded};

use crate::fault::CodeFault;
use isp_asm::{read, write};
use isp_code::Code;
use isp_verify::{Verified, VerifyFault, verify};
use std::alloc::{AllocError, Global};
use std::marker::Model;

/// A compiled program, or code that was loaded, which `execute` runs. Contracts see its code.
#[derive(Drop)]
pub struct Image {
    verified: Verified,
}

impl Model for Image {
    ghost use Rattle.isp_code.specs.Listing.{Listing};

    ghost Value = { Listing };

    ghost view = { λ i. i.verified };
}

impl Image {
    /// The image of code in which the verifier finds no fault.
    pub fn new(verified: Verified) -> Image
        ensures { result ≡ verified }
    {
        Image { verified }
    }

    /// The code, for the gang that it was compiled or written for. The verifier finds no fault in it, and it has a text.
    pub fn code(&self) -> &Code
        ensures same { result.now ≡ self.now }
        ensures fine { code_fault self.now ≡ None }
        ensures writable { IsWritable self.now }
    {
        let code = self.verified.code();
        let _functions = code.functions();
        code
    }

    /// The text of the code (docs/MACHINE.md, Code text), which `load_code` reads as this image. It fails where memory is refused.
    pub fn text(&self, alloc: Global) -> Result<String, AllocError>
        ensures { IfOk result (λ s. IsLoaded (string_bytes s) self.now) }
    {
        write(alloc, self.code())
    }

    /// The code, which is without a fault.
    pub fn verified(&self) -> &Verified
        ensures { result.now ≡ self.now }
    {
        &self.verified
    }
}

/// Reads code text and verifies the code. A text is that of one code at most.
///
/// 60 to 63 of a text that is that of no code, with the line; then 40 to 45 of code that the verifier refuses, with the
/// function and the instruction (docs/MACHINE.md). 0: memory was refused.
pub fn load_code(alloc: Global, text: &str) -> Result<Image, CodeFault>
    ensures loaded { IfOk result (IsLoaded text.now) }
    // The text of code without a fault gives that code, but for memory.
    ensures only { (c : Listing) → IsLoaded text.now c → MatchResult result (λ image. image ≡ c) (λ e. e ≡ CodeFault.Memory) }
    // The text of code with a fault gives the first one, but for memory.
    ensures first { (c : Listing) (f : CodeRefusal) → IsCodeOf text.now c → code_fault c ≡ Some f
        → MatchResult result (λ _. ⊥) (λ e. e ≢ CodeFault.Memory → e ≡ CodeFault.Code f) }
    ensures refused { IfErr result (λ e. e ≢ CodeFault.Memory → IsNotLoaded text.now e) }
{
    match read(alloc, text) {
        Ok(code) => {
            let _functions = code.functions();
            verified(alloc, code)
        }
        Err(fault) => Err(CodeFault::from(fault)),
    }
}

// Verifies code that was read.
fn verified(alloc: Global, code: Code) -> Result<Image, CodeFault>
    ensures accepted { IfOk result (λ image. (image ≡ code) × (code_fault code ≡ None)) }
    ensures refused { IfErr result (λ e. (f : CodeRefusal) → e ≡ CodeFault.Code f → code_fault code ≡ Some f) }
    ensures other { IfErr result (λ e. (f : TextFault) → e ≢ CodeFault.Text f) }
{
    match verify(alloc, code) {
        Ok(verified) => Ok(Image { verified }),
        Err((_code, fault)) => Err(CodeFault::from(fault)),
    }
}
