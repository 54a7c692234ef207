//! One instruction.
ghost use Rattle.std.specs.Prelude.{◌≡◌, ◌++◌, ◌+◌, ◌^◌, ◌<◌, OnOk};
ghost use Rattle.isp_wasm.specs.Templates as templates;
ghost use Rattle.isp_wasm_binary.specs.Instructions.{code_bytes};
ghost use Rattle.isp_wasm_write.specs.Settings.{setting};

use crate::calls::call_line;
use crate::prints;
use isp_code::{Instr, Register, ScalarInstr};
use isp_forms::Form;
use isp_wasm_binary::Bytes;
use isp_wasm_vectors::{across_line, lanes_line, vector_line};
use isp_wasm_write::{Kernel, Refusal};

// One that writes a scalar register.
fn scalar_line(
    kernel: &Kernel,
    out: &mut Bytes,
    result_to: Register,
    instr: &ScalarInstr,
) -> Result<(), Refusal>
    ensures { OnOk result (out.new ≡ out.old ++ code_bytes (templates.scalar_code (setting kernel.now) result_to instr.now)) }
{
    match *instr {
        ScalarInstr::Load {
            array,
            index,
            mask,
            place,
        } => kernel.load_line(out, result_to, (array, index), mask, place),
        ScalarInstr::Reduce { .. } | ScalarInstr::Extract { .. } => {
            across_line(kernel, out, result_to, instr)
        }
        ScalarInstr::Constant(_)
        | ScalarInstr::Copy(_)
        | ScalarInstr::Convert(_)
        | ScalarInstr::Unary { .. }
        | ScalarInstr::Binary { .. }
        | ScalarInstr::Compare { .. }
        | ScalarInstr::Select { .. }
        | ScalarInstr::First(_) => kernel.scalar_line(out, result_to, instr),
    }
}

/// Appends an instruction, in a form, inside so many labels below the loop's.
pub(crate) fn line(
    kernel: &Kernel,
    out: &mut Bytes,
    depth: u32,
    form: Form,
    instr: &Instr,
) -> Result<(), Refusal>
    requires depth { depth + 1 < 2 ^ 32 }
    ensures { OnOk result (out.new ≡ out.old ++ code_bytes (templates.code_of (setting kernel.now) depth form instr.now)) }
{
    match *instr {
        Instr::Scalar { result, instr } => scalar_line(kernel, out, result, &instr),
        Instr::Vector { result, instr } => vector_line(kernel, out, form, result, &instr),
        Instr::Mask { result, instr } => kernel.mask_line(out, result, &instr),
        Instr::Store {
            array,
            index,
            value,
            mask,
            place,
        } => kernel.store_line(out, (array, index), value, mask, place),
        Instr::Divide { .. }
        | Instr::Scatter { .. }
        | Instr::StoreRun { .. }
        | Instr::PackedStore { .. }
        | Instr::PackedLoad { .. } => lanes_line(kernel, out, instr),
        Instr::Jump { target } => kernel.jump_line(out, depth, target),
        Instr::JumpIf {
            test,
            register,
            target,
        } => kernel.jump_if_line(out, depth, (test, register), target),
        Instr::Say { text } => kernel.say_line(out, text),
        Instr::Fail { mask, place } => kernel.fail_line(out, mask, place),
        Instr::Return(register) => kernel.return_line(out, register),
        Instr::Call(ref call) => call_line(kernel, out, call.get()),
        Instr::PrintScalar(register) => prints::scalar(kernel, out, register),
        Instr::PrintVector { vector, mask } => prints::vector(kernel, out, vector, mask),
        Instr::Clear { array, mask } => kernel.clear_line(out, array, mask),
    }
}
