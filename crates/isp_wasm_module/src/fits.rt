//! Whether a module can be made of code.
ghost use Rattle.std.specs.Prelude.{◌≡◌, ◌<◌, ◌&&◌, length, map, slice_get, IfSome, Some, None};
ghost use Rattle.std.specs.List.{list_all, list_any};
ghost use Rattle.isp_base.specs.Types.{gang_width};
ghost use Rattle.isp_code.specs.Listing.{routine_of};
ghost use Rattle.isp_code.specs.Registers.{table_of};
ghost use Rattle.isp_wasm.specs.Module as kernels;
ghost use Rattle.isp_wasm.specs.Module.{joined};
ghost use Rattle.isp_wasm.specs.Stack as stack;
ghost use Rattle.isp_wasm_write.specs.Limits as limits;
ghost use Rattle.isp_wasm_module.specs.Refused.{named, exported_refusal, inner_refusal, function_refusal, module_refusal};

use crate::functions::{function_of, routine_count};
use crate::opened::is_small;
use crate::refusal::Refusal;
use isp_code::{Code, Function, Instr};
use isp_verify::{Registers, Verified};
use isp_wasm_write::{Caller, has_call, limit_fault};

/// How many instructions have a number of 32 bits.
const INSTRUCTIONS: usize = 1 << 32;

/// How many bytes of text have.
const TEXTS: u128 = 1 << 32;

// How many bytes the texts have.
#[tactic(auto, using(crate::proofs::Memories::one_long))]
fn text_length(code: &Code) -> u128
    ensures { result ≡ length (joined code.now.texts) }
{
    let mut total = 0;
    for number in 0..code.text_count() {
        total += code.text(number).len() as u128;
    }
    total
}

// Whether the numbers of a function have 32 bits.
fn is_plain(code: &Code, function: &Function) -> bool
    ensures { result ≡ kernels.is_plain code.now (routine_of function.now) }
{
    is_small(code.gang().width() as u32, &function.locals)
        && function.code.len() < INSTRUCTIONS
        && text_length(code) < TEXTS
}

// Whether all functions are so.
#[tactic(auto, using(crate::proofs::Covered::one_more_plain, crate::proofs::Covered::not_plain, crate::proofs::Covered::all_seen))]
fn all_plain(code: &Verified) -> bool
    ensures { result ≡ kernels.all_plain code.now }
{
    for number in 0..routine_count(code) {
        let (function, _) = function_of(code, number);
        if !is_plain(code.code(), function) {
            return false;
        }
    }
    true
}

/// Whether any function calls one.
#[tactic(auto, using(crate::proofs::Covered::no_call, crate::proofs::Covered::a_call, crate::proofs::Covered::none_seen))]
pub(crate) fn has_calls(code: &Verified) -> bool
    ensures { result ≡ list_any stack.has_call code.now.routines }
{
    for number in 0..routine_count(code) {
        let (function, _) = function_of(code, number);
        if has_call(function) {
            return true;
        }
    }
    false
}

// Whether an instruction calls a function.
fn calls(instr: &Instr, number: usize) -> bool
    ensures { result ≡ kernels.calls_function number instr.now }
{
    match *instr {
        Instr::Call(ref call) => call.get().function as usize == number,
        _ => false,
    }
}

// Whether one of them does.
fn any_calls(code: &[Instr], number: usize) -> bool
    ensures { result ≡ list_any (kernels.calls_function number) code.now }
{
    for instr in code {
        if calls(instr, number) {
            return true;
        }
    }
    false
}

// Whether a function is called.
#[tactic(auto, using(crate::proofs::Covered::not_here, crate::proofs::Covered::here, crate::proofs::Covered::nowhere))]
fn is_called(code: &Verified, called: usize) -> bool
    ensures { result ≡ kernels.is_called code.now called }
{
    for number in 0..routine_count(code) {
        let (function, _) = function_of(code, number);
        if any_calls(&function.code, called) {
            return true;
        }
    }
    false
}

/// Whether the module has the function for those that call it.
pub(crate) fn is_inner(code: &Verified, number: usize) -> bool
    ensures { result ≡ (kernels.is_called code.now number && kernels.all_plain code.now) }
{
    is_called(code, number) && all_plain(code)
}

// Whether a function is covered.
fn is_covered(code: &Verified, function: &Function) -> bool
    ensures { result ≡ kernels.is_covered code.now (routine_of function.now) }
{
    is_plain(code.code(), function) && (!has_call(function) || all_plain(code))
}

// What an engine does not take of function `number`.
fn named(number: usize, limit: Option<isp_wasm_write::Refusal>) -> Option<Refusal>
    ensures { result ≡ named number limit }
{
    match limit? {
        isp_wasm_write::Refusal::TooManyParameters => Some(Refusal::TooManyParameters(number)),
        isp_wasm_write::Refusal::TooManyLocals => Some(Refusal::TooManyLocals(number)),
        _ => None,
    }
}

// The same, for those that call it.
fn limited(
    code: &Verified,
    number: usize,
    function: &Function,
    registers: &Registers,
    caller: Caller,
) -> Option<Refusal>
    requires { registers.now ≡ table_of (routine_of function.now) }
    ensures { result ≡ named number (limits.limit_fault caller (gang_width code.now.gang) (routine_of function.now)) }
{
    let lanes = code.code().gang().width() as u32;
    named(number, limit_fault(caller, lanes, function, registers))
}

// Why the function that a host calls is refused, if it is.
fn exported_refusal(
    code: &Verified,
    number: usize,
    function: &Function,
    registers: &Registers,
) -> Option<Refusal>
    requires { registers.now ≡ table_of (routine_of function.now) }
    ensures { result ≡ exported_refusal code.now number (routine_of function.now) }
{
    if !function.exported {
        return None;
    }
    if !is_covered(code, function) {
        return Some(Refusal::NotCovered(number));
    }
    limited(code, number, function, registers, Caller::Host)
}

// Why the one that other functions call is.
fn inner_refusal(
    code: &Verified,
    number: usize,
    function: &Function,
    registers: &Registers,
) -> Option<Refusal>
    requires { registers.now ≡ table_of (routine_of function.now) }
    ensures { result ≡ inner_refusal code.now number (routine_of function.now) }
{
    if !is_inner(code, number) {
        return None;
    }
    limited(code, number, function, registers, Caller::Function)
}

// Why function `number` is refused, if it is.
fn function_refusal(
    code: &Verified,
    number: usize,
    function: &Function,
    registers: &Registers,
) -> Option<Refusal>
    requires { registers.now ≡ table_of (routine_of function.now) }
    ensures { result ≡ function_refusal code.now number (routine_of function.now) }
{
    match exported_refusal(code, number, function, registers) {
        Some(refusal) => Some(refusal),
        None => inner_refusal(code, number, function, registers),
    }
}

/// Why no module can be made of the code, if none can: the first function that is exported and not covered, or that has too many parameters or locals.
#[tactic(auto, using(crate::proofs::FirstRefused::kept, crate::proofs::FirstRefused::found, crate::proofs::FirstRefused::none_left))]
pub fn refusal(code: &Verified) -> Option<Refusal>
    ensures { result ≡ module_refusal code.now }
{
    for number in 0..routine_count(code) {
        let (function, registers) = function_of(code, number);
        match function_refusal(code, number, function, registers) {
            Some(refusal) => return Some(refusal),
            None => {}
        }
    }
    None
}
