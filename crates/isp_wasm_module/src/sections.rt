//! The sections of a module, and the module of code.
ghost use Rattle.std.specs.Prelude.{◌≡◌, ◌++◌, ◌+◌, ◌≤◌, length, None, IfOk, IfErr, OnOk};
ghost use Rattle.isp_forms.specs.Tables.{forms_in, lists_of};
ghost use Rattle.isp_wasm.specs.Module.{module_with};
ghost use Rattle.isp_wasm_binary.specs.Binary as binary;
ghost use Rattle.isp_wasm_binary.specs.Binary.{bytes_of};
ghost use Rattle.isp_wasm_binary.specs.Modules as modules;
ghost use Rattle.isp_wasm_binary.specs.Numbers.{vector};
ghost use Rattle.isp_wasm_module.specs.Refused.{module_refusal, explains};
ghost use Rattle.isp_wasm_module.specs.reader.Pieces.{module_for, signature_sections, memory_sections, content_sections};

use crate::exports::push_exports;
use crate::fits::refusal;
use crate::functions::{
    HOSTS, function_count, number_and, push_bodies, push_sized, push_type_numbers, push_types,
};
use crate::memory::{push_data, push_globals, push_pages, texts};
use crate::refusal::{Refusal, Stopped};
use crate::source::Source;
use isp_forms::FormTable;
use isp_verify::Verified;
use isp_wasm_binary::Bytes;
use std::alloc::{AllocError, Global};

// How many functions there are, and so many more.
fn functions_and(source: Source<'_>, more: u32) -> Result<u32, Stopped>
    ensures { IfOk result (λ n. n ≡ more + length (module_for source.entry).functions) }
{
    number_and(function_count(source), more)
}

// 1: what the host's functions, and then those of the code, take and give back.
#[tactic(auto, using(crate::proofs::Contents::types_are))]
fn types(alloc: Global, source: Source<'_>) -> Result<Bytes, Stopped>
    requires { module_refusal source.code.now ≡ None }
    ensures { IfOk result (λ b. b ≡ vector modules.func_type (binary.sections_of (module_for source.entry)).types) }
{
    let mut out = Bytes::new(alloc);
    out.unsigned(functions_and(source, HOSTS)?)?;
    out.all(
        b"\x60\x02\x7f\x7f\x00\x60\x04\x7f\x7f\x7f\x7f\x00\x60\x01\x7e\x00\x60\x01\x7e\x00\x60\x01\x7f\x00\x60\x01\x7f\x00",
    )?;
    push_types(alloc, &mut out, source)?;
    Ok(out)
}

// 2: the host's functions.
#[tactic(auto, using(crate::proofs::Contents::imports_are))]
fn imports(alloc: Global) -> Result<Bytes, AllocError>
    ensures { IfOk result (λ b. b ≡ vector modules.import_bytes binary.host_imports) }
{
    let mut out = Bytes::new(alloc);
    out.all(b"\x06\x03isp\x05write\x00\x00\x03isp\x04trap\x00\x01\x03isp\x0cprint_signed\x00\x02")?;
    out.all(
        b"\x03isp\x0eprint_unsigned\x00\x03\x03isp\x0aprint_bool\x00\x04\x03isp\x0aprint_byte\x00\x05",
    )?;
    Ok(out)
}

// 3: the type of each function.
#[tactic(auto, using(crate::proofs::Contents::numbers_are))]
fn type_numbers(alloc: Global, source: Source<'_>) -> Result<Bytes, Stopped>
    ensures { IfOk result (λ b. b ≡ vector modules.type_bytes (binary.sections_of (module_for source.entry)).functions) }
{
    let mut out = Bytes::new(alloc);
    out.unsigned(functions_and(source, 0)?)?;
    push_type_numbers(&mut out, source)?;
    Ok(out)
}

// 10: the code of each function.
#[tactic(auto, using(crate::proofs::Contents::bodies_are))]
fn bodies(alloc: Global, source: Source<'_>) -> Result<Bytes, Stopped>
    requires { module_refusal source.code.now ≡ None }
    ensures { IfOk result (λ b. b ≡ vector modules.body_bytes (binary.sections_of (module_for source.entry)).functions) }
{
    let mut out = Bytes::new(alloc);
    out.unsigned(functions_and(source, 0)?)?;
    push_bodies(alloc, &mut out, source)?;
    Ok(out)
}

// 7: what is exported.
fn exports(alloc: Global, source: Source<'_>) -> Result<Bytes, Stopped>
    requires { module_refusal source.code.now ≡ None }
    ensures { IfOk result (λ b. b ≡ vector modules.export_bytes (binary.sections_of (module_for source.entry)).exports) }
{
    let mut out = Bytes::new(alloc);
    push_exports(&mut out, source)?;
    Ok(out)
}

// Appends a section.
fn push_section(out: &mut Bytes, number: u8, content: Bytes) -> Result<(), Stopped>
    ensures { OnOk result (out.new ≡ out.old ++ modules.section number content) }
{
    let content = content.into_vec();
    out.byte(number)?;
    push_sized(out, content.as_slice())
}

// Appends the sections of types, of the host's functions, and of the functions' types.
fn push_signatures(alloc: Global, out: &mut Bytes, source: Source<'_>) -> Result<(), Stopped>
    requires { module_refusal source.code.now ≡ None }
    ensures { OnOk result (out.new ≡ out.old ++ signature_sections (binary.sections_of (module_for source.entry))) }
{
    push_section(out, 1, types(alloc, source)?)?;
    push_section(out, 2, imports(alloc)?)?;
    push_section(out, 3, type_numbers(alloc, source)?)
}

// Appends the sections of the memory and of globals.
fn push_memory(alloc: Global, out: &mut Bytes, length: u32) -> Result<(), Stopped>
    ensures { OnOk result (out.new ≡ out.old ++ memory_sections length) }
{
    let mut pages = Bytes::new(alloc);
    push_pages(&mut pages, length)?;
    let mut globals = Bytes::new(alloc);
    push_globals(&mut globals, length)?;
    push_section(out, 5, pages)?;
    push_section(out, 6, globals)
}

// Appends the sections of exports, of code and of data.
fn push_contents(
    alloc: Global,
    out: &mut Bytes,
    source: Source<'_>,
    memory: &[u8],
) -> Result<(), Stopped>
    requires fits { module_refusal source.code.now ≡ None }
    requires memory { memory.now ≡ (module_for source).memory }
    ensures { OnOk result (out.new ≡ out.old ++ content_sections (binary.sections_of (module_for source.entry))) }
{
    let mut data = Bytes::new(alloc);
    push_data(&mut data, memory)?;
    push_section(out, 7, exports(alloc, source)?)?;
    push_section(out, 10, bodies(alloc, source)?)?;
    push_section(out, 11, data)
}

// The bytes of the module.
#[tactic(auto, using(crate::proofs::Contents::whole_is))]
fn written(alloc: Global, source: Source<'_>) -> Result<Vec<u8>, Stopped>
    requires { module_refusal source.code.now ≡ None }
    ensures { IfOk result (λ v. v.items ≡ bytes_of (module_for source.entry)) }
{
    let memory = texts(alloc, source.code.code())?;
    let Ok(length) = u32::try_from(memory.len()) else {
        return Err(Stopped::TooLong);
    };
    let mut out = Bytes::new(alloc);
    out.all(b"\0asm\x01\0\0\0")?;
    push_signatures(alloc, &mut out, source)?;
    push_memory(alloc, &mut out, length)?;
    push_contents(alloc, &mut out, source, memory.as_slice())?;
    Ok(out.into_vec())
}

/// The module of WebAssembly of accepted code, as its bytes, with each instruction in its form: one that `forms` has none of keeps its lanes.
///
/// It exports each exported function of the code by its name, the memory as `isp.memory`, the address after the code's
/// texts as `isp.base`, and as `isp.stack` the address from which on the host lets functions open arrays. The host gives
/// `isp.write`, `isp.trap`, and four functions that write a value. An array is an i32 address and an i64 count, a scalar its
/// bits without a sign. Where the forms are harmless, a call in it does what the code does (isp_wasm).
///
/// Refused is the first function that is exported and not covered, or that takes more than 1,000 parameters or has more than
/// 50,000 locals, called by a host or by others; and a module of which a part would have 2^32 bytes.
pub fn module(alloc: Global, code: &Verified, forms: &FormTable) -> Result<Vec<u8>, Refusal>
    ensures bytes { IfOk result (λ v. v.items ≡ bytes_of (module_with code.now (forms_in (lists_of forms.now)))) }
    ensures fits { OnOk result (module_refusal code.now ≡ None) }
    ensures refused { IfErr result (λ e. explains e (module_refusal code.now)) }
{
    if let Some(refusal) = refusal(code) {
        return Err(refusal);
    }
    match written(alloc, Source { code, forms }) {
        Ok(bytes) => Ok(bytes),
        Err(Stopped::Memory) => Err(Refusal::Memory),
        Err(Stopped::NoLocal) => Err(Refusal::NoLocal),
        Err(Stopped::TooLong) => Err(Refusal::TooLong),
    }
}
