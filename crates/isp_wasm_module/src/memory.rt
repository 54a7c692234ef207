//! The first bytes of a module's memory.
ghost use Rattle.std.specs.Prelude.{◌≡◌, ◌++◌, ◌∷◌, ◌+◌, ◌/◌, ◌<◌, ◌^◌, [], length, false, OnOk, IfOk};
ghost use Rattle.std.specs.List.{flat_map};
ghost use Rattle.isp_wasm.specs.Module.{joined};
ghost use Rattle.isp_wasm_binary.specs.Binary.{pieces_of, results};
ghost use Rattle.isp_wasm_binary.specs.Modules as modules;
ghost use Rattle.isp_wasm_binary.specs.Numbers.{vector};
ghost use Rattle.isp_wasm_module.specs.reader.Pieces.{globals_of};

use crate::functions::push_sized;
use crate::refusal::Stopped;
use isp_code::Code;
use isp_wasm_binary::Bytes;
use isp_wasm_write::Part;
use std::alloc::{AllocError, Global};

/// The texts, one after the other.
#[tactic(auto, using(crate::proofs::Memories::one_joined))]
pub(crate) fn texts(alloc: Global, code: &Code) -> Result<Vec<u8>, AllocError>
    ensures { IfOk result (λ v. v.items ≡ joined code.now.texts) }
{
    let mut out = Bytes::new(alloc);
    for number in 0..code.text_count() {
        out.all(code.text(number))?;
    }
    Ok(out.into_vec())
}

/// Appends the pages of the memory that has these bytes, and one more.
#[tactic(auto, using(crate::proofs::Memories::pages_are))]
pub(crate) fn push_pages(out: &mut Bytes, length: u32) -> Result<(), AllocError>
    ensures { OnOk result (out.new ≡ out.old ++ vector modules.memory_bytes ((length / 65536 + 1) ∷ [])) }
{
    out.all(b"\x01\x00")?;
    out.unsigned(length / 65536 + 1)?;
    Ok(())
}

// Appends so many globals for the parts of a vector.
#[tactic(auto, using(crate::proofs::Memories::one_result))]
fn push_results(out: &mut Bytes, count: u32) -> Result<(), AllocError>
    ensures { OnOk result (out.new ≡ out.old ++ flat_map modules.global_bytes (results count)) }
{
    for part in 0..count {
        out.all(b"\x7b\x01")?;
        Part::Zero.write(out)?;
        out.end()?;
    }
    Ok(())
}

/// Appends the globals: the number of these bytes, which never changes; the parts of a vector; where arrays may lie.
#[tactic(auto, using(crate::proofs::Memories::globals_are))]
pub(crate) fn push_globals(out: &mut Bytes, length: u32) -> Result<(), AllocError>
    ensures { OnOk result (out.new ≡ out.old ++ vector modules.global_bytes (globals_of length)) }
{
    out.all(b"\x12\x7f\x00")?;
    out.const32(length)?;
    out.end()?;
    push_results(out, 16)?;
    out.all(b"\x7f\x01")?;
    out.const32(length)?;
    out.end()?;
    Ok(())
}

// Appends one piece of memory, from address 0 on.
fn push_piece(out: &mut Bytes, memory: &[u8]) -> Result<(), Stopped>
    requires { 0 < length memory.now }
    ensures { OnOk result (out.new ≡ out.old ++ vector modules.piece_bytes (pieces_of memory.now)) }
{
    out.all(b"\x01\x00")?;
    out.const32(0)?;
    out.end()?;
    push_sized(out, memory)?;
    Ok(())
}

/// Appends the bytes.
#[tactic(auto, using(crate::proofs::Memories::no_piece))]
pub(crate) fn push_data(out: &mut Bytes, memory: &[u8]) -> Result<(), Stopped>
    ensures { OnOk result (out.new ≡ out.old ++ vector modules.piece_bytes (pieces_of memory.now)) }
{
    if memory.len() == 0 {
        out.byte(0)?;
        return Ok(());
    }
    push_piece(out, memory)
}
