//! The bytes of a module, and after them a section with the text of its code.
ghost use Rattle.std.specs.Prelude.{◌≡◌, ◌++◌, codes, None, IfOk, IfErr, OnOk};
ghost use Rattle.isp_asm.specs.Spelling.{text_of};
ghost use Rattle.isp_wasm_binary.specs.Modules as modules;
ghost use Rattle.isp_wasm_binary.specs.Numbers.{bytes};
ghost use Rattle.isp_wasm_file.specs.File.{IsFile, IsModule, text_section};
ghost use Rattle.isp_wasm_file.specs.declared.section.Stopped.TheVariants.{Memory};
ghost use Rattle.isp_wasm_module.specs.Refused.{module_refusal, explains};

use isp_asm::write;
use isp_code::Code;
use isp_lanes_forms::forms_for;
use isp_verify::Verified;
use isp_wasm_binary::Bytes;
use isp_wasm_module::{Refusal, first_refusal, module};
use std::alloc::{AllocError, Global};

/// Why no section is written.
#[derive(Clone, Copy)]
enum Stopped {
    Memory,
    TooLong,
}

impl From<AllocError> for Stopped {
    ghost from_gives = { λ _ e. e ≡ Memory };

    fn from(_error: AllocError) -> Stopped {
        Stopped::Memory
    }
}

// The name `isp`, with its length, and the text of the code.
fn content(alloc: Global, code: &Code) -> Result<Vec<u8>, AllocError>
    ensures { IfOk result (λ v. v.items ≡ bytes (codes "isp") ++ text_of code.now) }
{
    let text = write(alloc, code)?;
    let mut content = Bytes::new(alloc);
    content.unsigned(3)?;
    content.all(b"isp")?;
    content.all(text.as_bytes())?;
    Ok(content.into_vec())
}

// The section with the text of the code: engines pass over those with number 0.
fn section(alloc: Global, code: &Code) -> Result<Vec<u8>, Stopped>
    ensures { IfOk result (λ v. v.items ≡ text_section code.now) }
{
    let content = content(alloc, code)?;
    let Ok(length) = u32::try_from(content.len()) else {
        return Err(Stopped::TooLong);
    };
    let mut section = Bytes::new(alloc);
    section.byte(0)?;
    section.unsigned(length)?;
    section.all(content.as_slice())?;
    Ok(section.into_vec())
}

// The module, each instruction in a form that no run can tell.
fn in_forms(alloc: Global, code: &Verified) -> Result<Vec<u8>, Refusal>
    ensures bytes { IfOk result (λ v. IsModule code.now v.items) }
    ensures fits { OnOk result (module_refusal code.now ≡ None) }
    ensures refused { IfErr result (λ e. explains e (module_refusal code.now)) }
{
    if let Some(refusal) = first_refusal(code) {
        return Err(refusal);
    }
    match forms_for(alloc, code.code()) {
        Ok(forms) => module(alloc, code, &forms),
        Err(AllocError) => Err(Refusal::Memory),
    }
}

// The module, and the section after it.
fn with_text(alloc: Global, made: Vec<u8>, code: &Code) -> Result<Vec<u8>, Stopped>
    ensures { IfOk result (λ v. v.items ≡ made.items ++ text_section code.now) }
{
    let section = section(alloc, code)?;
    let mut file = made;
    file.extend_from_slice(section.as_slice())?;
    Ok(file)
}

/// The file of the module of WebAssembly that accepted code is: its bytes, by `module` of isp_wasm_module, and after them a
/// section `isp` that has the text of the code (docs/MACHINE.md). An engine passes over it; a host reads there for which gang
/// the code is, and what each function takes and gives back. An instruction keeps its lanes only where a later one may read them, as `forms_for` of
/// isp_lanes_forms finds.
///
/// Refused is what `module` refuses, by the function's number, and nothing else of the code; else memory was, or the module,
/// a part of it or the text would have 2^32 bytes.
pub fn file(alloc: Global, code: &Verified) -> Result<Vec<u8>, Refusal>
    ensures bytes { IfOk result (λ v. IsFile code.now v.items) }
    ensures fits { OnOk result (module_refusal code.now ≡ None) }
    ensures refused { IfErr result (λ e. explains e (module_refusal code.now)) }
{
    let module = in_forms(alloc, code)?;
    match with_text(alloc, module, code.code()) {
        Ok(file) => Ok(file),
        Err(Stopped::Memory) => Err(Refusal::Memory),
        Err(Stopped::TooLong) => Err(Refusal::TooLong),
    }
}
