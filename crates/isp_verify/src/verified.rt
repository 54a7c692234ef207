//! Code without a fault.
ghost use Rattle.std.specs.Prelude.{◌≡◌, ◌<◌, ℕ, map, length, slice_get, None, Some, IfOk, IfErr, IfSome, IfNone};
ghost use Rattle.isp_code.specs.Entries.{IsExport, is_export, parameters_of, result_of};
ghost use Rattle.isp_code.specs.Listing.{Routine, routine_of};
ghost use Rattle.isp_code.specs.Registers.{table_of};
ghost use Rattle.isp_verify.specs.Faults.{code_fault};
ghost use Rattle.isp_verify.specs.Progress.{NeverStuck};
ghost use Rattle.isp_verify.specs.Signatures.{handed, signature_of};
ghost use Rattle.isp_verify.specs.declared.fault.Fault.{Fault};
ghost use Rattle.isp_verify.specs.declared.fault.VerifyFault.TheVariants.{Refused};

use crate::check::first_fault;
use crate::fault::VerifyFault;
use crate::registers::{Registers, registers_of};
use crate::signatures::signatures_of;
use isp_base::{Gang, Signature};
use isp_code::{Code, Function};
use std::alloc::{AllocError, Global};
use std::marker::Model;

/// Code without a fault. Contracts see the code.
#[derive(Drop)]
pub struct Verified {
    code: Code,
    registers: Vec<Registers>,
    signatures: Vec<Signature>,
}

impl Model for Verified {
    ghost use Rattle.std.specs.Prelude.{◌≡◌, None, map};
    ghost use Rattle.isp_code.specs.Listing.{Listing};
    ghost use Rattle.isp_code.specs.Registers.{table_of};
    ghost use Rattle.isp_verify.specs.Faults.{code_fault};
    ghost use Rattle.isp_verify.specs.Signatures.{handed, signature_of};

    ghost Value = { Listing };

    ghost view = { λ v. v.code };

    ghost invariant = { λ v. (code_fault v.code ≡ None) × (v.registers.items ≡ map table_of v.code.routines) × (map handed v.signatures.items ≡ map signature_of v.code.routines) };
}

// What is kept beside the code.
fn tables_of(alloc: Global, code: &Code) -> Result<(Vec<Registers>, Vec<Signature>), AllocError>
    ensures registers { IfOk result (λ t. t.0.items ≡ map table_of code.now.routines) }
    ensures signatures { IfOk result (λ t. map handed t.1.items ≡ map signature_of code.now.routines) }
{
    let functions = code.functions();
    let registers = registers_of(alloc, functions)?;
    let signatures = signatures_of(alloc, functions)?;
    Ok((registers, signatures))
}

/// Accepts exactly the code without a fault. Else the answer is the first fault, with its function and instruction,
/// or 0 where memory is refused; the code comes back.
///
/// Functions go in order, in each first its header (44), then its instructions (40 to 43), last whether control
/// falls off the end (45). The operands of an instruction go from left to right; each is to be there (40) and then
/// of the kind that the table of `docs/MACHINE.md` asks (41).
pub fn verify(alloc: Global, code: Code) -> Result<Verified, (Code, VerifyFault)>
    ensures accepted { IfOk result (λ v. (v ≡ code) × (code_fault code ≡ None)) }
    ensures refused { IfErr result (λ e. (f : Fault) → e.1 ≡ Refused f → code_fault code ≡ Some f) }
    ensures returned { IfErr result (λ e. e.0 ≡ code) }
{
    let tables = tables_of(alloc, &code);
    match tables {
        Err(_error) => Err((code, VerifyFault::Memory)),
        Ok((registers, signatures)) => match first_fault(alloc, &code, registers.as_slice()) {
            Err(_error) => Err((code, VerifyFault::Memory)),
            Ok(Some(fault)) => Err((code, VerifyFault::Refused(fault))),
            Ok(None) => Ok(Verified {
                code,
                registers,
                signatures,
            }),
        },
    }
}

// Whether a function is exported under a name.
fn is_export(function: &Function, name: &str) -> bool
    ensures { result ≡ is_export name.now (routine_of function.now) }
{
    function.exported && function.name.as_str() == name
}

// The number of the first function that is exported under a name.
fn exported(code: &Code, name: &str) -> Option<usize>
    ensures found { IfSome result (λ f. (h : Routine) × IsExport code.now name.now f h) }
    ensures none { IfNone result ((f : ℕ) (h : Routine) → IsExport code.now name.now f h → ⊥) }
{
    let functions = code.functions();
    for (number, function) in functions.iter().enumerate() {
        if is_export(function, name) {
            return Some(number);
        }
    }
    None
}

impl Verified {
    /// The code.
    pub fn code(&self) -> &Code
        ensures same { result.now ≡ self.now }
        ensures fine { code_fault self.now ≡ None }
        // Each state of the machine that is not an end has a line of the table that applies.
        ensures goes_on { NeverStuck self.now }
    {
        &self.code
    }

    /// The gang that the code is for.
    pub fn gang(&self) -> Gang
        ensures { result ≡ self.now.gang }
    {
        self.code.gang()
    }

    /// The registers of a function, by its number.
    pub fn registers(&self, function: usize) -> &Registers
        requires { function < length self.now.routines }
        ensures { slice_get (map table_of self.now.routines) function ≡ Some result.now }
    {
        &self.registers[function]
    }

    /// The number of the function that is exported under a name. None where there is none.
    pub fn entry(&self, name: &str) -> Option<usize>
        ensures found { IfSome result (λ f. (h : Routine) × IsExport self.now name.now f h) }
        ensures none { IfNone result ((f : ℕ) (h : Routine) → IsExport self.now name.now f h → ⊥) }
    {
        exported(&self.code, name)
    }

    /// What the function that is exported under a name takes and gives. None where there is none.
    pub fn signature(&self, entry: &str) -> Option<&Signature>
        ensures found { IfSome result (λ s. (f : ℕ) × (h : Routine) × IsExport self.now entry.now f h × (s.now.params.items ≡ parameters_of h) × (s.now.result ≡ result_of h.returns)) }
        ensures none { IfNone result ((f : ℕ) (h : Routine) → IsExport self.now entry.now f h → ⊥) }
    {
        match self.entry(entry) {
            Some(number) => Some(&self.signatures[number]),
            None => None,
        }
    }
}
