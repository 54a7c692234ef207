//! Instructions that write a value as a text.
ghost use Rattle.std.specs.Prelude.{◌≡◌, ◌++◌, ◌≤◌, OnOk};
ghost use Rattle.isp_wasm.specs.Places as places;
ghost use Rattle.isp_wasm.specs.Templates as templates;
ghost use Rattle.isp_wasm.specs.Templates.{each};
ghost use Rattle.isp_wasm_binary.specs.Instructions.{code_bytes};
ghost use Rattle.isp_wasm_write.specs.Operands.{operand_expr};
ghost use Rattle.isp_wasm_write.specs.Settings.{setting};
ghost use Rattle.isp_wasm_module.specs.reader.Lists as lists;

use isp_base::Elem;
use isp_code::Register;
use isp_wasm_binary::Bytes;
use isp_wasm_vectors::lane;
use isp_wasm_write::{Kernel, Operand, Place, Refusal, convert};
use std::alloc::AllocError;

/// The numbers of the host's functions that write a value.
const SIGNED: u32 = 2;

const UNSIGNED: u32 = 3;

const TRUTH: u32 = 4;

const BYTE: u32 = 5;

// Appends that a value is written.
fn print_value(
    _kernel: &Kernel,
    out: &mut Bytes,
    elem: Elem,
    value: Operand,
) -> Result<(), AllocError>
    ensures { OnOk result (out.new ≡ out.old ++ code_bytes (templates.print_value (setting _kernel.now) elem (operand_expr value))) }
{
    match elem {
        Elem::Bool => {
            value.write(out)?;
            out.call(TRUTH)
        }
        Elem::I8 | Elem::I16 | Elem::I32 | Elem::I64 => {
            convert(out, elem, Elem::I64, value)?;
            out.call(SIGNED)
        }
        Elem::U8 | Elem::U16 | Elem::U32 | Elem::U64 => {
            convert(out, elem, Elem::U64, value)?;
            out.call(UNSIGNED)
        }
    }
}

// Appends that a byte is written.
fn print_byte(_kernel: &Kernel, out: &mut Bytes, byte: u8) -> Result<(), AllocError>
    ensures { OnOk result (out.new ≡ out.old ++ code_bytes (templates.print_byte (setting _kernel.now) byte)) }
{
    out.const32(u32::from(byte))?;
    out.call(BYTE)
}

// Appends a comma, but for the first lane.
#[tactic(auto, using(crate::proofs::Lists::comma_is, crate::proofs::Lists::no_comma))]
fn print_comma(kernel: &Kernel, out: &mut Bytes, lane: u8) -> Result<(), AllocError>
    ensures { OnOk result (out.new ≡ out.old ++ code_bytes (templates.print_comma (setting kernel.now) lane)) }
{
    if lane == 0 {
        return Ok(());
    }
    print_byte(kernel, out, b',')
}

// Appends a lane's value, or that the mask has it not.
fn print_lane(
    kernel: &Kernel,
    out: &mut Bytes,
    pair: (Register, Register),
    number: u8,
) -> Result<(), Refusal>
    ensures { OnOk result (out.new ≡ out.old ++ code_bytes (lists.print_lane (setting kernel.now) pair.0 pair.1 number)) }
{
    let elem = kernel.elem(pair.0);
    let value = lane(kernel, elem, pair.0, number)?;
    kernel.is_member(out, pair.1, number)?;
    out.begin_if()?;
    print_value(kernel, out, elem, value)?;
    out.begin_else()?;
    print_byte(kernel, out, b'_')?;
    out.end()?;
    Ok(())
}

// Appends the values of so many lanes.
#[tactic(auto, using(crate::proofs::Lists::one_more))]
fn print_lanes(
    kernel: &Kernel,
    out: &mut Bytes,
    pair: (Register, Register),
    lanes: u8,
) -> Result<(), Refusal>
    ensures { OnOk result (out.new ≡ out.old ++ code_bytes (each lanes (templates.print_item (setting kernel.now) pair.0 pair.1))) }
{
    for number in 0..lanes {
        print_comma(kernel, out, number)?;
        print_lane(kernel, out, pair, number)?;
    }
    Ok(())
}

/// Appends that a scalar register is written.
pub(crate) fn scalar(kernel: &Kernel, out: &mut Bytes, register: Register) -> Result<(), Refusal>
    ensures { OnOk result (out.new ≡ out.old ++ code_bytes (templates.print_value (setting kernel.now) (places.elem (setting kernel.now) register) (templates.scalar_local (setting kernel.now) register))) }
{
    let Some(local) = kernel.local(Place::Scalar(register.number)) else {
        return Err(Refusal::NoLocal);
    };
    Ok(print_value(kernel, out, kernel.elem(register), Operand::Local(local))?)
}

/// Appends that the lanes of a mask are written, in brackets.
pub(crate) fn vector(
    kernel: &Kernel,
    out: &mut Bytes,
    register: Register,
    mask: Register,
) -> Result<(), Refusal>
    ensures { OnOk result (out.new ≡ out.old ++ code_bytes (templates.print_list (setting kernel.now) register mask)) }
{
    print_byte(kernel, out, b'[')?;
    print_lanes(kernel, out, (register, mask), kernel.width() as u8)?;
    Ok(print_byte(kernel, out, b']')?)
}
