//! The functions of a module: what they take and give back, and their code.
ghost use Rattle.std.specs.Prelude.{◌≡◌, ◌++◌, ◌+◌, ◌<◌, ◌^◌, [], length, map, slice_get, None, Some, true, IfSome, OnOk, IfOk};
ghost use Rattle.std.specs.List.{flat_map, list_any};
ghost use Rattle.isp_code.specs.Listing.{routine_of};
ghost use Rattle.isp_code.specs.Registers.{table_of};
ghost use Rattle.isp_wasm_meaning.specs.Module.{unused};
ghost use Rattle.isp_forms.specs.Tables.{lists_of};
ghost use Rattle.isp_wasm.specs.Stack.{has_call};
ghost use Rattle.isp_wasm_binary.specs.Binary as binary;
ghost use Rattle.isp_wasm_binary.specs.Modules as modules;
ghost use Rattle.isp_wasm_binary.specs.Numbers.{u32, bytes, vector};
ghost use Rattle.isp_wasm_module.specs.Refused.{module_refusal};
ghost use Rattle.isp_wasm_module.specs.reader.Pieces.{function_for, inner_of, module_for, written_of, IsWritten};

use crate::body::push_code;
use crate::fits::{has_calls, is_inner};
use crate::groups::push_locals;
use crate::refusal::Stopped;
use crate::source::Source;
use crate::types::{of_places, push_function_type, push_unused_type};
use isp_code::Function;
use isp_verify::{Registers, Verified};
use isp_wasm_binary::Bytes;
use isp_wasm_write::{Caller, Kernel};
use std::alloc::Global;

/// How many functions the host gives.
pub const HOSTS: u32 = 6;

/// How many functions the code has.
pub(crate) fn routine_count(code: &Verified) -> usize
    ensures is { result ≡ length code.now.routines }
    ensures few { result < 2 ^ 63 }
{
    code.code().functions().len()
}

/// How many functions the module has: where the code has calls, two for each.
#[tactic(auto, using(crate::proofs::Written::count_alone, crate::proofs::Written::count_twice))]
pub(crate) fn function_count(source: Source<'_>) -> usize
    ensures { result ≡ length (module_for source.entry).functions }
{
    let count = routine_count(source.code);
    if has_calls(source.code) {
        2 * count
    } else {
        count
    }
}

/// Function `number`, and its registers.
pub(crate) fn function_of<'a>(code: &'a Verified, number: usize) -> (&'a Function, &'a Registers)
    requires { number < length code.now.routines }
    ensures found { slice_get code.now.routines number ≡ Some (routine_of result.0.now) }
    ensures registers { result.1.now ≡ table_of (routine_of result.0.now) }
{
    (&code.code().functions()[number], code.registers(number))
}

// The function that a host calls, if it is exported.
#[tactic(auto, using(crate::proofs::Written::not_exported, crate::proofs::Written::host_written))]
fn host_kernel<'a>(
    alloc: Global,
    source: Source<'a>,
    number: usize,
) -> Result<Option<Kernel<'a>>, Stopped>
    requires there { number < length source.code.now.routines }
    requires fits { module_refusal source.code.now ≡ None }
    ensures unused { IfOk result (λ o. o ≡ None → function_for source.entry number ≡ unused) }
    ensures written { IfOk result (λ o. IfSome o (λ k. IsWritten source.entry.code.now (lists_of source.entry.forms.now) number k)) }
{
    let (function, registers) = function_of(source.code, number);
    if !function.exported {
        return Ok(None);
    }
    let forms = source.forms.of(number);
    let kernel = Kernel::new(
        alloc,
        source.code.code(),
        function,
        registers,
        Caller::Host,
        forms,
    )?;
    Ok(Some(kernel))
}

// The function that others call, if any does: `called` in the code, and `number` in the module.
#[tactic(auto, using(crate::proofs::Written::not_called, crate::proofs::Written::inner_written))]
fn inner_kernel<'a>(
    alloc: Global,
    source: Source<'a>,
    called: usize,
    number: usize,
) -> Result<Option<Kernel<'a>>, Stopped>
    requires there { called < length source.code.now.routines }
    requires behind { number ≡ length source.code.now.routines + called }
    requires calls { list_any has_call source.code.now.routines ≡ true }
    ensures unused { IfOk result (λ o. o ≡ None → function_for source.entry number ≡ unused) }
    ensures written { IfOk result (λ o. IfSome o (λ k. IsWritten source.entry.code.now (lists_of source.entry.forms.now) number k)) }
{
    let (function, registers) = function_of(source.code, called);
    if !is_inner(source.code, called) {
        return Ok(None);
    }
    let forms = source.forms.of(called);
    let kernel = Kernel::new(
        alloc,
        source.code.code(),
        function,
        registers,
        Caller::Function,
        forms,
    )?;
    Ok(Some(kernel))
}

// A function of the module, if it is written.
#[tactic(auto, using(crate::proofs::Written::past_is, crate::proofs::Written::past_calls))]
fn kernel_of<'a>(
    alloc: Global,
    source: Source<'a>,
    number: usize,
) -> Result<Option<Kernel<'a>>, Stopped>
    requires there { number < length (module_for source).functions }
    requires fits { module_refusal source.code.now ≡ None }
    ensures unused { IfOk result (λ o. o ≡ None → function_for source.entry number ≡ unused) }
    ensures written { IfOk result (λ o. IfSome o (λ k. IsWritten source.entry.code.now (lists_of source.entry.forms.now) number k)) }
{
    let count = routine_count(source.code);
    if number < count {
        host_kernel(alloc, source, number)
    } else {
        inner_kernel(alloc, source, number - count, number)
    }
}

// Appends what a function takes and gives back.
fn push_type(
    alloc: Global,
    out: &mut Bytes,
    source: Source<'_>,
    number: usize,
) -> Result<(), Stopped>
    requires there { number < length (module_for source).functions }
    requires fits { module_refusal source.code.now ≡ None }
    ensures { OnOk result (out.new ≡ out.old ++ modules.func_type (binary.type_of (function_for source.entry number))) }
{
    match kernel_of(alloc, source, number)? {
        None => push_unused_type(out)?,
        Some(kernel) => push_function_type(alloc, out, &kernel)?,
    }
    Ok(())
}

/// Appends what all functions take and give back.
#[tactic(auto, using(crate::proofs::Written::more_types, crate::proofs::Written::none_left))]
pub(crate) fn push_types(alloc: Global, out: &mut Bytes, source: Source<'_>) -> Result<(), Stopped>
    requires { module_refusal source.code.now ≡ None }
    ensures { OnOk result (out.new ≡ out.old ++ flat_map modules.func_type (map binary.type_of (module_for source.entry).functions)) }
{
    for number in 0..function_count(source) {
        push_type(alloc, out, source, number)?;
    }
    Ok(())
}

// The locals of a function, and its code.
fn inner(alloc: Global, kernel: &Kernel) -> Result<Bytes, Stopped>
    ensures { IfOk result (λ b. b ≡ inner_of (written_of kernel.now)) }
{
    let types = of_places(alloc, kernel, kernel.own())?;
    let mut out = Bytes::new(alloc);
    push_locals(alloc, &mut out, types.as_slice())?;
    push_code(kernel, &mut out)?;
    out.end()?;
    Ok(out)
}

/// A number after so many others.
pub(crate) fn number_and(number: usize, others: u32) -> Result<u32, Stopped>
    ensures { IfOk result (λ n. n ≡ others + number) }
{
    match u32::try_from(u128::from(others) + number as u128) {
        Ok(number) => Ok(number),
        Err(_) => Err(Stopped::TooLong),
    }
}

/// Appends how many bytes there are, and the bytes.
pub(crate) fn push_sized(out: &mut Bytes, content: &[u8]) -> Result<(), Stopped>
    ensures { OnOk result (out.new ≡ out.old ++ bytes content.now) }
{
    let Ok(length) = u32::try_from(content.len()) else {
        return Err(Stopped::TooLong);
    };
    out.unsigned(length)?;
    out.all(content)?;
    Ok(())
}

// Appends the code of a function.
#[tactic(auto, using(crate::proofs::Vectors::unused_body))]
fn push_body(
    alloc: Global,
    out: &mut Bytes,
    source: Source<'_>,
    number: usize,
) -> Result<(), Stopped>
    requires there { number < length (module_for source).functions }
    requires fits { module_refusal source.code.now ≡ None }
    ensures { OnOk result (out.new ≡ out.old ++ bytes (inner_of (function_for source.entry number))) }
{
    match kernel_of(alloc, source, number)? {
        None => {
            out.all(b"\x03\x00\x00\x0b")?;
            Ok(())
        }
        Some(kernel) => {
            let inner = inner(alloc, &kernel)?.into_vec();
            push_sized(out, inner.as_slice())
        }
    }
}

/// Appends the code of all functions.
#[tactic(auto, using(crate::proofs::Written::more_bodies, crate::proofs::Written::none_left))]
pub(crate) fn push_bodies(alloc: Global, out: &mut Bytes, source: Source<'_>) -> Result<(), Stopped>
    requires { module_refusal source.code.now ≡ None }
    ensures { OnOk result (out.new ≡ out.old ++ flat_map modules.body_bytes (binary.bodies 0 (module_for source.entry).functions)) }
{
    for number in 0..function_count(source) {
        push_body(alloc, out, source, number)?;
    }
    Ok(())
}

/// Appends the number of each function's type: its own, after those of the host's.
#[tactic(auto, using(crate::proofs::Written::more_numbers, crate::proofs::Written::none_left))]
pub(crate) fn push_type_numbers(out: &mut Bytes, source: Source<'_>) -> Result<(), Stopped>
    ensures { OnOk result (out.new ≡ out.old ++ flat_map modules.type_bytes (binary.bodies 0 (module_for source.entry).functions)) }
{
    for number in 0..function_count(source) {
        out.unsigned(number_and(number, HOSTS)?)?;
    }
    Ok(())
}
