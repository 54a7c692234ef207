//! Shifts of all lanes by one amount.
ghost use Rattle.std.specs.Prelude.{◌≡◌, ◌++◌, ◌≤◌, ◌<◌, OnOk};
ghost use Rattle.isp_base.specs.Values.{width};
ghost use Rattle.isp_wasm.specs.Templates.{each};
ghost use Rattle.isp_wasm_binary.specs.Instructions.{code_bytes, expr_bytes};
ghost use Rattle.isp_wasm_binary.specs.Named as named;
ghost use Rattle.isp_wasm_write.specs.Settings.{setting};
ghost use Rattle.isp_wasm_vectors.specs.reader.Shifts as shifts;

use crate::parts::{parts, shape};
use crate::vectors::put_lanes;
use isp_base::Elem;
use isp_code::Register;
use isp_forms::Form;
use isp_wasm_binary::{Binary, Bytes, Shift};
use isp_wasm_write::{Kernel, Place, Refusal, right_of, shape_of};

/// A shift of each lane of a register by one amount, in the type of the register that it writes, under a mask.
#[derive(Clone, Copy)]
pub(crate) struct Shifted {
    pub to_left: bool,
    pub elem: Elem,
    pub value: Register,
    pub amount: u64,
    pub mask: Register,
}

impl Shifted {
    pub(crate) fn by(
        to_left: bool,
        elem: Elem,
        value: Register,
        amount: u64,
        mask: Register,
    ) -> Self
        ensures { result ≡ record { to_left = to_left; elem = elem; value = value; amount = amount; mask = mask } }
    {
        Shifted {
            to_left,
            elem,
            value,
            amount,
            mask,
        }
    }
}

// How many bits a value of a type has.
fn width(elem: Elem) -> u64
    ensures is { result ≡ width elem }
    ensures some { 0 < result }
    ensures few { result ≤ 64 }
{
    match elem {
        Elem::Bool => 1,
        Elem::I8 | Elem::U8 => 8,
        Elem::I16 | Elem::U16 => 16,
        Elem::I32 | Elem::U32 => 32,
        Elem::I64 | Elem::U64 => 64,
    }
}

// To the left, or to the right as the type's numbers have a sign or none.
fn direction(shift: Shifted) -> Shift
    ensures { named.shift result ≡ shifts.direction shift }
{
    if shift.to_left {
        Shift::Shl
    } else {
        right_of(shift.elem)
    }
}

// Appends a part of it, into a local of its own.
fn part_worked_out(
    kernel: &Kernel,
    out: &mut Bytes,
    shift: Shifted,
    part: u8,
) -> Result<(), Refusal>
    ensures { OnOk result (out.new ≡ out.old ++ code_bytes (shifts.worked_part (setting kernel.now) shift part)) }
{
    let part = u32::from(part);
    let amount = shift.amount % width(shift.elem);
    kernel.get(out, Place::Vector(shift.value.number, part))?;
    out.const32(amount as u32)?;
    out.binary(Binary::ShiftLanes(shape_of(shift.elem), direction(shift)))?;
    kernel.set(out, Place::Fresh(part))
}

#[tactic(auto, using(crate::proofs::Each::one_more))]
fn worked_out(kernel: &Kernel, out: &mut Bytes, shift: Shifted, parts: u8) -> Result<(), Refusal>
    ensures { OnOk result (out.new ≡ out.old ++ code_bytes (each parts (shifts.worked_part (setting kernel.now) shift))) }
{
    for part in 0..parts {
        part_worked_out(kernel, out, shift, part)?;
    }
    Ok(())
}

/// Appends that lanes of a register get what the shift makes.
pub(crate) fn shifted_lanes(
    kernel: &Kernel,
    out: &mut Bytes,
    form: Form,
    result_to: Register,
    shift: Shifted,
) -> Result<(), Refusal>
    ensures { OnOk result (out.new ≡ out.old ++ code_bytes (shifts.lanes_set (setting kernel.now) form result_to shift)) }
{
    let parts = parts(kernel, shape(kernel, result_to));
    worked_out(kernel, out, shift, parts)?;
    put_lanes(kernel, out, form, result_to, shift.mask)
}
