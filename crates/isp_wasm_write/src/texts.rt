//! The instruction that writes a text.
ghost use Rattle.std.specs.Prelude.{◌≡◌, ◌++◌, ◌<◌, ◌≤◌, [], length, slice_index_or, OnOk, IfSome};
ghost use Rattle.isp_code.specs.declared.instr.Instr.TheVariants as instrs;
ghost use Rattle.isp_forms.specs.declared.form.Form.TheVariants.{Kept};
ghost use Rattle.isp_wasm.specs.Module.{text_start};
ghost use Rattle.isp_wasm.specs.Templates as templates;
ghost use Rattle.isp_wasm_binary.specs.Instructions.{code_bytes};
ghost use Rattle.isp_wasm_write.specs.Settings.{setting};

use crate::kernel::Kernel;
use crate::refusal::Refusal;
use isp_code::Code;
use isp_wasm_binary::Bytes;

// How many bytes come before a text, where 32 bits have that number.
#[tactic(auto, using(crate::proofs::TextStarts::none_before, crate::proofs::TextStarts::one_more))]
fn text_start(code: &Code, number: usize) -> Option<u32>
    requires { number ≤ length code.now.texts }
    ensures { IfSome result (λ n. n ≡ text_start code.now.texts number) }
{
    let mut start: u32 = 0;
    for text in 0..number {
        let Ok(count) = u32::try_from(code.text(text).len()) else {
            return None;
        };
        start = start.checked_add(count)?;
    }
    Some(start)
}

// How many bytes a text has.
#[tactic(auto, using(crate::proofs::TextStarts::text_is))]
fn text_length(code: &Code, number: usize) -> Option<u32>
    requires { number < length code.now.texts }
    ensures { IfSome result (λ n. n ≡ length (slice_index_or code.now.texts number [])) }
{
    match u32::try_from(code.text(number).len()) {
        Ok(count) => Some(count),
        Err(_) => None,
    }
}

impl<'a> Kernel<'a> {
    /// Appends that a text is written.
    pub fn say_line(&self, out: &mut Bytes, text: u32) -> Result<(), Refusal>
        ensures { OnOk result (out.new ≡ out.old ++ code_bytes (templates.code_of (setting self.now) 0 Kept (instrs.Say text))) }
    {
        let number = text as usize;
        let code = self.code();
        if number >= code.text_count() {
            return Err(Refusal::NoLocal);
        }
        let Some(start) = text_start(code, number) else {
            return Err(Refusal::NoLocal);
        };
        let Some(count) = text_length(code, number) else {
            return Err(Refusal::NoLocal);
        };
        out.const32(start)?;
        out.const32(count)?;
        out.call(0)?;
        Ok(())
    }
}
