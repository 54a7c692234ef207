//! What the code of a function begins with.
ghost use Rattle.std.specs.Prelude.{◌≡◌, ◌++◌, ◌≤◌, OnOk};
ghost use Rattle.isp_base.specs.Sets.{everyone};
ghost use Rattle.isp_code.specs.Listing.{routine_of};
ghost use Rattle.isp_wasm.specs.Entry.{stack_code};
ghost use Rattle.isp_wasm.specs.Stack.{is_call, has_call, uses_stack};
ghost use Rattle.isp_wasm_meaning.specs.Ladder.{counting};
ghost use Rattle.isp_wasm_meaning.specs.Syntax as wasm;
ghost use Rattle.isp_wasm.specs.Places as places;
ghost use Rattle.isp_wasm.specs.Templates.{each, mask_part};
ghost use Rattle.isp_wasm_binary.specs.Instructions.{code_bytes};
ghost use Rattle.isp_wasm_write.specs.Settings.{setting};

use crate::kernel::{Kernel, Place};
use crate::parts::everyone;
use crate::refusal::Refusal;
use isp_code::{Function, Instr};
use isp_wasm_binary::Bytes;

/// The global that says where the next array lies.
const STACK: u32 = 17;

fn is_call(instr: &Instr) -> bool
    ensures { result ≡ is_call instr.now }
{
    matches!(*instr, Instr::Call(_))
}

/// Whether a function calls one.
pub fn has_call(function: &Function) -> bool
    ensures { result ≡ has_call (routine_of function.now) }
{
    for instr in &function.code {
        if is_call(instr) {
            return true;
        }
    }
    false
}

// Whether it opens arrays, or calls one that may.
fn uses_stack(function: &Function) -> bool
    ensures { result ≡ uses_stack (routine_of function.now) }
{
    has_call(function) || !function.locals.is_empty()
}

impl<'a> Kernel<'a> {
    // So many parts of the first mask.
    #[tactic(auto, using(crate::proofs::Each::one_more))]
    fn lanes_on(&self, out: &mut Bytes, parts: u32) -> Result<(), Refusal>
        requires { parts ≤ 2 }
        ensures { OnOk result (out.new ≡ out.old ++ code_bytes (each parts (λ j. wasm.Set ((setting self.now).local (places.Mask 0 j)) (wasm.Const128 (mask_part (everyone (places.gang (setting self.now))) j))))) }
    {
        for part in 0..parts {
            everyone(out, self.width(), part)?;
            self.set(out, Place::Mask(0, part))?;
        }
        Ok(())
    }

    /// Appends where the next array lies, in a function that opens some or calls one that may.
    pub fn stack_line(&self, out: &mut Bytes) -> Result<(), Refusal>
        ensures { OnOk result (out.new ≡ out.old ++ code_bytes (stack_code (setting self.now))) }
    {
        if !uses_stack(self.function()) {
            return Ok(());
        }
        out.get_global(STACK)?;
        self.set(out, Place::Top)
    }

    /// Appends that all lanes are on.
    pub fn entry_line(&self, out: &mut Bytes) -> Result<(), Refusal>
        ensures { OnOk result (out.new ≡ out.old ++ code_bytes (each (places.parts (setting self.now) wasm.I8x16) (λ j. wasm.Set ((setting self.now).local (places.Mask 0 j)) (wasm.Const128 (mask_part (everyone (places.gang (setting self.now))) j))))) }
    {
        self.lanes_on(out, self.mask_parts())
    }

    /// Appends a jump to the rung that is to go on, after the labels of all rungs.
    pub fn dispatch_line(&self, out: &mut Bytes) -> Result<(), Refusal>
        ensures { OnOk result (out.new ≡ out.old ++ code_bytes (wasm.BrTable (counting (setting self.now).rungs 0) (setting self.now).rungs (wasm.Local ((setting self.now).local places.Counter)))) }
    {
        self.get(out, Place::Counter)?;
        out.br_table(self.rungs())?;
        Ok(())
    }
}
