//! What a module exports: the memory, where it is free, and functions by their names.
ghost use Rattle.std.specs.Prelude.{◌≡◌, ◌++◌, ◌∷◌, ◌+◌, ◌<◌, ◌≤◌, [], length, drop, None, OnOk};
ghost use Rattle.std.specs.List.{flat_map};
ghost use Rattle.isp_wasm_binary.specs.Binary as binary;
ghost use Rattle.isp_wasm_binary.specs.Modules as modules;
ghost use Rattle.isp_wasm_binary.specs.Numbers.{u32, bytes, vector};
ghost use Rattle.isp_wasm_module.specs.Refused.{module_refusal};
ghost use Rattle.isp_wasm_module.specs.reader.Pieces.{function_for, module_for};

use crate::functions::{HOSTS, function_of, number_and, push_sized, routine_count};
use crate::refusal::Stopped;
use crate::source::Source;
use isp_wasm_binary::Bytes;

// How many exports a function is.
#[tactic(auto, using(crate::proofs::Exported::hidden_count, crate::proofs::Exported::shown_count))]
fn count_at(source: Source<'_>, number: usize) -> usize
    requires there { number < length source.code.now.routines }
    requires fits { module_refusal source.code.now ≡ None }
    ensures same { result + length (binary.names (number + 1) (drop (number + 1) (module_for source.entry).functions)) ≡ length (binary.names number (drop number (module_for source.entry).functions)) }
    ensures few { result ≤ 1 }
{
    let (function, _) = function_of(source.code, number);
    if function.exported { 1 } else { 0 }
}

// How many functions are exported.
#[tactic(auto, using(crate::proofs::Exported::none_exported))]
fn count(source: Source<'_>) -> usize
    requires { module_refusal source.code.now ≡ None }
    ensures is { result ≡ length (binary.names 0 (module_for source.entry).functions) }
    ensures few { result ≤ length source.entry.code.now.routines }
{
    let mut count = 0;
    for number in 0..routine_count(source.code) {
        count += count_at(source, number);
    }
    count
}

// Appends a name, and the number of the function that it names.
fn push_export(out: &mut Bytes, name: &str, index: u32) -> Result<(), Stopped>
    ensures { OnOk result (out.new ≡ out.old ++ (bytes name.now ++ (0 ∷ u32 index))) }
{
    push_sized(out, name.as_bytes())?;
    out.byte(0)?;
    out.unsigned(index)?;
    Ok(())
}

// The same of a function, if it is exported.
#[tactic(auto, using(crate::proofs::Exported::hidden_bytes, crate::proofs::Exported::shown_chain))]
fn push_function(out: &mut Bytes, source: Source<'_>, number: usize) -> Result<(), Stopped>
    requires there { number < length source.code.now.routines }
    requires fits { module_refusal source.code.now ≡ None }
    ensures { OnOk result (out.new ≡ out.old ++ flat_map modules.export_bytes (binary.named (function_for source.entry number).export number [])) }
{
    let (function, _) = function_of(source.code, number);
    if !function.exported {
        return Ok(());
    }
    let index = number_and(number, HOSTS)?;
    push_export(out, function.name.as_str(), index)?;
    Ok(())
}

// Appends all of them.
#[tactic(auto, using(crate::proofs::Exported::one_named, crate::proofs::Exported::none_exported))]
fn push_functions(out: &mut Bytes, source: Source<'_>) -> Result<(), Stopped>
    requires { module_refusal source.code.now ≡ None }
    ensures { OnOk result (out.new ≡ out.old ++ flat_map modules.export_bytes (binary.names 0 (module_for source.entry).functions)) }
{
    for number in 0..routine_count(source.code) {
        push_function(out, source, number)?;
    }
    Ok(())
}

/// Appends all exports.
#[tactic(auto, using(crate::proofs::Exported::all_exports))]
pub(crate) fn push_exports(out: &mut Bytes, source: Source<'_>) -> Result<(), Stopped>
    requires { module_refusal source.code.now ≡ None }
    ensures { OnOk result (out.new ≡ out.old ++ vector modules.export_bytes (binary.sections_of (module_for source.entry)).exports) }
{
    out.unsigned(number_and(count(source), 3)?)?;
    out.all(b"\x0aisp.memory\x02\x00\x08isp.base\x03\x00\x09isp.stack\x03\x11")?;
    push_functions(out, source)?;
    Ok(())
}
