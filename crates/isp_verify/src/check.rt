//! The first fault of code.
ghost use Rattle.std.specs.Prelude.{◌≡◌, ◌-◌, map, take, length, not, slice_get, IfOk};
ghost use Rattle.std.specs.List.{list_any};
ghost use Rattle.isp_code.specs.Listing.{routine_of};
ghost use Rattle.isp_code.specs.Registers.{table_of};
ghost use Rattle.isp_verify.specs.Faults.{is_function, instrs_fault, last_fault, function_fault, code_fault};

use crate::fault::{Fault, Rule};
use crate::header::check_header;
use crate::operands::Checker;
use crate::registers::Registers;
use isp_code::{Code, Function, Instr};
use std::alloc::{AllocError, Global};
use std::collections::BTreeSet;

// The first fault of the instructions of a function, the `k`th, in order.
fn check_instrs(k: usize, checker: &Checker) -> Option<Fault>
    ensures { result ≡ instrs_fault checker.now.code.now k (routine_of checker.now.function.now) 0 checker.now.function.now.code.items }
{
    for (n, instr) in checker.function.code.iter().enumerate() {
        if let Some(rule) = checker.instr(instr) {
            return Some(Fault {
                rule,
                function: k,
                instruction: n,
            });
        }
    }
    None
}

// The number of the last instruction, or 0.
fn last(function: &Function) -> usize
    ensures { result ≡ length function.now.code.items - 1 }
{
    function.code.len().saturating_sub(1)
}

// Whether control falls off the last instruction.
fn check_last(function: &Function) -> Option<Rule>
    ensures { result ≡ last_fault (routine_of function.now) }
{
    match function.code.get(last(function)) {
        Some(Instr::Jump { .. }) => None,
        Some(Instr::Return(_back)) => None,
        _ => Some(Rule::FallsOff),
    }
}

// The first fault of a function, the `k`th. `is_new` says that no function before this one has its name.
fn check_function(
    alloc: Global,
    k: usize,
    is_new: bool,
    checker: &Checker,
) -> Result<Option<Fault>, AllocError>
    requires { is_new ≡ not (list_any (is_function checker.now.function.now.name) (take k checker.now.code.now.routines)) }
    ensures { IfOk result (λ f. f ≡ function_fault checker.now.code.now k (routine_of checker.now.function.now)) }
{
    let function = checker.function;
    if let Some(rule) = check_header(alloc, is_new, function)? {
        return Ok(Some(Fault {
            rule,
            function: k,
            instruction: 0,
        }));
    }
    if let Some(fault) = check_instrs(k, checker) {
        return Ok(Some(fault));
    }
    match check_last(function) {
        Some(rule) => Ok(Some(Fault {
            rule,
            function: k,
            instruction: last(function),
        })),
        None => Ok(None),
    }
}

/// The first fault of code, of which the registers of each function are given.
pub(crate) fn first_fault(
    alloc: Global,
    code: &Code,
    registers: &[Registers],
) -> Result<Option<Fault>, AllocError>
    requires { registers.now ≡ map table_of code.now.routines }
    ensures { IfOk result (λ f. f ≡ code_fault code.now) }
{
    let functions = code.functions();
    let mut names = BTreeSet::new(alloc);
    for (k, function) in functions.iter().enumerate() {
        let is_new = names.insert(function.name.as_str())?;
        let checker = Checker {
            code,
            function,
            registers: &registers[k],
        };
        if let Some(fault) = check_function(alloc, k, is_new, &checker)? {
            return Ok(Some(fault));
        }
    }
    Ok(None)
}
