//! Instructions that write lanes of a vector register.
ghost use Rattle.std.specs.Prelude.{◌≡◌, ◌++◌, ◌<◌, ◌≤◌, IsTrue, OnOk};
ghost use Rattle.isp_forms.specs.Writes.{is_pure, mask_under};
ghost use Rattle.isp_wasm_meaning.specs.Syntax as wasm;
ghost use Rattle.isp_wasm.specs.Places as places;
ghost use Rattle.isp_wasm.specs.Rows as rows;
ghost use Rattle.isp_wasm.specs.Templates as templates;
ghost use Rattle.isp_wasm.specs.Templates.{each};
ghost use Rattle.isp_wasm_binary.specs.Instructions.{code_bytes, expr_bytes};
ghost use Rattle.isp_wasm_write.specs.Settings.{setting};
ghost use Rattle.isp_wasm_vectors.specs.reader.Vectors as vectors;

use crate::cells::{begin_cell, end_cell, numbers};
use crate::converts::converted;
use crate::lane_values::by_lane;
use crate::loops::{Elements, Index, lane_loads};
use crate::parts::{count_of, parts, shape};
use crate::rows::{
    Row, as_bytes, is_lane_by_lane, plain_row, unary_row, widened_mask, widened_vector,
};
use crate::runs::{Run, load_run};
use crate::shifts::{Shifted, shifted_lanes};
use isp_code::{Plain, Register, VectorInstr};
use isp_forms::Form;
use isp_wasm_binary::{Bytes, Unary};
use isp_wasm_write::{Kernel, Place, Refusal};

// Appends a part with the value of a scalar register in each lane.
#[tactic(auto, using(crate::proofs::CellBytes::cell_bytes))]
fn splat(
    kernel: &Kernel,
    out: &mut Bytes,
    result_to: Register,
    value: Register,
) -> Result<(), Refusal>
    ensures { OnOk result (out.new ≡ out.old ++ expr_bytes (vectors.splat (setting kernel.now) result_to value)) }
{
    let elem = kernel.elem(result_to);
    begin_cell(out, elem)?;
    kernel.get(out, Place::Scalar(value.number))?;
    end_cell(out, elem)?;
    Ok(out.unary(Unary::Splat(shape(kernel, result_to)))?)
}

// Appends a part of one of two vectors, as a vector of bools says.
fn chosen(
    kernel: &Kernel,
    out: &mut Bytes,
    result_to: Register,
    test: Register,
    pair: (Register, Register),
    part: u8,
) -> Result<(), Refusal>
    ensures { OnOk result (out.new ≡ out.old ++ expr_bytes (vectors.chosen (setting kernel.now) result_to test pair part)) }
{
    kernel.get(out, Place::Vector(pair.0.number, u32::from(part)))?;
    kernel.get(out, Place::Vector(pair.1.number, u32::from(part)))?;
    widened_vector(kernel, out, shape(kernel, result_to), test, part)?;
    Ok(out.bitselect()?)
}

// Appends a part of what an operator makes of two vectors.
#[tactic(auto, using(crate::proofs::LanedParts::by_lane_is))]
fn of_two(
    kernel: &Kernel,
    out: &mut Bytes,
    result_to: Register,
    instr: &VectorInstr,
    part: u8,
) -> Result<(), Refusal>
    requires two { IsTrue (vectors.is_binary instr.now) }
    requires low { part < 16 }
    ensures { OnOk result (out.new ≡ out.old ++ expr_bytes (templates.vector_of (setting kernel.now) result_to instr.now part)) }
{
    let elem = kernel.elem(result_to);
    match *instr {
        VectorInstr::Binary {
            op,
            left,
            right,
            ..
        } => {
            if is_lane_by_lane(op, elem) {
                by_lane(kernel, out, result_to, instr, part)
            } else {
                plain_row(kernel, out, op, elem, (left, right), part)
            }
        }
        _ => unreachable!(),
    }
}

// Appends a part that an instruction makes.
fn part_value(
    kernel: &Kernel,
    out: &mut Bytes,
    result_to: Register,
    instr: &VectorInstr,
    part: u8,
) -> Result<(), Refusal>
    requires whole { IsTrue (vectors.has_parts instr.now) }
    requires low { part < 16 }
    ensures { OnOk result (out.new ≡ out.old ++ expr_bytes (templates.vector_of (setting kernel.now) result_to instr.now part)) }
{
    let elem = kernel.elem(result_to);
    match *instr {
        VectorInstr::Copy { value, .. } => {
            kernel.get(out, Place::Vector(value.number, u32::from(part)))
        }
        VectorInstr::Unary { op, value, .. } => unary_row(kernel, out, op, elem, value, part),
        VectorInstr::Binary { .. } => of_two(kernel, out, result_to, instr, part),
        VectorInstr::Compare {
            op,
            left,
            right,
            ..
        } => { as_bytes(kernel, out, &Row::Compared { op, left, right }, part) }
        VectorInstr::Select {
            test,
            if_true,
            if_false,
            ..
        } => { chosen(kernel, out, result_to, test, (if_true, if_false), part) }
        VectorInstr::Splat { value, .. } => splat(kernel, out, result_to, value),
        VectorInstr::Index(_) => {
            let shape = shape(kernel, result_to);
            Ok(numbers(out, shape, part * count_of(shape))?)
        }
        VectorInstr::Convert { value, .. } => converted(kernel, out, result_to, value, part),
        VectorInstr::Scan { .. } => by_lane(kernel, out, result_to, instr, part),
        VectorInstr::Exchange { .. } => by_lane(kernel, out, result_to, instr, part),
        VectorInstr::Shuffle { .. } => by_lane(kernel, out, result_to, instr, part),
        VectorInstr::ShuffleTwo { .. } => by_lane(kernel, out, result_to, instr, part),
        VectorInstr::Insert { .. } => by_lane(kernel, out, result_to, instr, part),
        VectorInstr::Gather { .. } | VectorInstr::LoadRun { .. } => unreachable!(),
    }
}

// The parts, each worked out into a local of its own.
#[tactic(auto, using(crate::proofs::Each::one_more))]
fn worked_out(
    kernel: &Kernel,
    out: &mut Bytes,
    result_to: Register,
    instr: &VectorInstr,
    parts: u8,
) -> Result<(), Refusal>
    requires whole { IsTrue (vectors.has_parts instr.now) }
    requires few { parts ≤ 16 }
    ensures { OnOk result (out.new ≡ out.old ++ code_bytes (each parts (vectors.worked_part (setting kernel.now) result_to instr.now))) }
{
    for part in 0..parts {
        part_value(kernel, out, result_to, instr, part)?;
        kernel.set(out, Place::Fresh(u32::from(part)))?;
    }
    Ok(())
}

// And then those lanes of the register set that a mask has.
fn part_set(
    kernel: &Kernel,
    out: &mut Bytes,
    result_to: Register,
    mask: Register,
    part: u8,
) -> Result<(), Refusal>
    ensures { OnOk result (out.new ≡ out.old ++ code_bytes (vectors.set_part (setting kernel.now) result_to mask part)) }
{
    kernel.get(out, Place::Fresh(u32::from(part)))?;
    kernel.get(out, Place::Vector(result_to.number, u32::from(part)))?;
    widened_mask(kernel, out, shape(kernel, result_to), mask, part)?;
    out.bitselect()?;
    kernel.set(out, Place::Vector(result_to.number, u32::from(part)))
}

#[tactic(auto, using(crate::proofs::Each::one_more))]
fn all_set(
    kernel: &Kernel,
    out: &mut Bytes,
    result_to: Register,
    mask: Register,
    parts: u8,
) -> Result<(), Refusal>
    ensures { OnOk result (out.new ≡ out.old ++ code_bytes (each parts (vectors.set_part (setting kernel.now) result_to mask))) }
{
    for part in 0..parts {
        part_set(kernel, out, result_to, mask, part)?;
    }
    Ok(())
}

// The mask under which an instruction writes.
fn mask_under(instr: &VectorInstr) -> Register
    ensures { result ≡ mask_under instr.now }
{
    match *instr {
        VectorInstr::Copy { mask, .. }
        | VectorInstr::Convert { mask, .. }
        | VectorInstr::Unary { mask, .. }
        | VectorInstr::Binary { mask, .. }
        | VectorInstr::Compare { mask, .. }
        | VectorInstr::Select { mask, .. }
        | VectorInstr::Splat { mask, .. }
        | VectorInstr::Index(mask)
        | VectorInstr::Gather { mask, .. }
        | VectorInstr::LoadRun { mask, .. }
        | VectorInstr::Scan { mask, .. }
        | VectorInstr::Exchange { mask, .. }
        | VectorInstr::Shuffle { mask, .. }
        | VectorInstr::ShuffleTwo { mask, .. }
        | VectorInstr::Insert { mask, .. } => mask,
    }
}

// A part of the register set is set in all lanes.
fn part_put(kernel: &Kernel, out: &mut Bytes, result_to: Register, part: u8) -> Result<(), Refusal>
    ensures { OnOk result (out.new ≡ out.old ++ code_bytes (vectors.put_part (setting kernel.now) result_to part)) }
{
    kernel.get(out, Place::Fresh(u32::from(part)))?;
    kernel.set(out, Place::Vector(result_to.number, u32::from(part)))
}

#[tactic(auto, using(crate::proofs::Each::one_more))]
fn all_put(kernel: &Kernel, out: &mut Bytes, result_to: Register, parts: u8) -> Result<(), Refusal>
    ensures { OnOk result (out.new ≡ out.old ++ code_bytes (each parts (vectors.put_part (setting kernel.now) result_to))) }
{
    for part in 0..parts {
        part_put(kernel, out, result_to, part)?;
    }
    Ok(())
}

/// Appends that a register gets what was worked out, in a local for each part: in the lanes of a mask, or in all where the line
/// is free.
pub(crate) fn put_lanes(
    kernel: &Kernel,
    out: &mut Bytes,
    form: Form,
    result_to: Register,
    mask: Register,
) -> Result<(), Refusal>
    ensures { OnOk result (out.new ≡ out.old ++ code_bytes (templates.put_lanes (setting kernel.now) form result_to mask)) }
{
    let parts = parts(kernel, shape(kernel, result_to));
    match form {
        Form::Free => all_put(kernel, out, result_to, parts),
        Form::Kept | Form::Useless | Form::KeptBy(_) | Form::FreeBy(_) => {
            all_set(kernel, out, result_to, mask, parts)
        }
    }
}

// Appends that lanes of a register get what an instruction makes.
fn set_lanes(
    kernel: &Kernel,
    out: &mut Bytes,
    form: Form,
    result_to: Register,
    instr: &VectorInstr,
) -> Result<(), Refusal>
    requires { IsTrue (vectors.has_parts instr.now) }
    ensures { OnOk result (out.new ≡ out.old ++ code_bytes (vectors.lanes_set (setting kernel.now) form result_to instr.now)) }
{
    let parts = parts(kernel, shape(kernel, result_to));
    worked_out(kernel, out, result_to, instr, parts)?;
    put_lanes(kernel, out, form, result_to, mask_under(instr))
}

/// Appends that the lanes of a mask are set to what was worked out, in a local for each part.
pub fn select_lanes(
    kernel: &Kernel,
    out: &mut Bytes,
    result_to: Register,
    mask: Register,
) -> Result<(), Refusal>
    ensures { OnOk result (out.new ≡ out.old ++ code_bytes (templates.select_lanes (setting kernel.now) result_to mask)) }
{
    let parts = parts(kernel, shape(kernel, result_to));
    all_set(kernel, out, result_to, mask, parts)
}

// Appends what an operator makes whose right operand is a number in each lane.
fn known_code(
    kernel: &Kernel,
    out: &mut Bytes,
    form: Form,
    amount: u64,
    result_to: Register,
    instr: &VectorInstr,
) -> Result<(), Refusal>
    requires two { IsTrue (vectors.is_binary instr.now) }
    ensures { OnOk result (out.new ≡ out.old ++ code_bytes (vectors.known (setting kernel.now) form amount result_to instr.now)) }
{
    let elem = kernel.elem(result_to);
    match *instr {
        VectorInstr::Binary { op, left, mask, .. } => match op {
            Plain::Shl => {
                let shift = Shifted::by(true, elem, left, amount, mask);
                shifted_lanes(kernel, out, form, result_to, shift)
            }
            Plain::Shr => {
                let shift = Shifted::by(false, elem, left, amount, mask);
                shifted_lanes(kernel, out, form, result_to, shift)
            }
            _ => set_lanes(kernel, out, Form::Kept, result_to, instr),
        },
        _ => unreachable!(),
    }
}

// Appends what an operator makes, in a form.
fn binary_code(
    kernel: &Kernel,
    out: &mut Bytes,
    form: Form,
    result_to: Register,
    instr: &VectorInstr,
) -> Result<(), Refusal>
    requires two { IsTrue (vectors.is_binary instr.now) }
    ensures { OnOk result (out.new ≡ out.old ++ code_bytes (templates.vector_code (setting kernel.now) form result_to instr.now)) }
{
    match form {
        Form::KeptBy(amount) => known_code(kernel, out, Form::Kept, amount, result_to, instr),
        Form::FreeBy(amount) => known_code(kernel, out, Form::Free, amount, result_to, instr),
        Form::Kept | Form::Free | Form::Useless => set_lanes(kernel, out, form, result_to, instr),
    }
}

// Appends what an instruction does that writes lanes of a vector register.
fn vector_code(
    kernel: &Kernel,
    out: &mut Bytes,
    form: Form,
    result_to: Register,
    instr: &VectorInstr,
) -> Result<(), Refusal>
    ensures { OnOk result (out.new ≡ out.old ++ code_bytes (templates.vector_code (setting kernel.now) form result_to instr.now)) }
{
    match *instr {
        VectorInstr::Gather {
            array,
            indices,
            mask,
            place,
        } => {
            let elements = Elements {
                array,
                index: Index::Own(indices),
                mask,
                place,
            };
            lane_loads(kernel, out, result_to, &elements)
        }
        VectorInstr::LoadRun {
            array,
            index,
            mask,
            place,
        } => {
            let run = Run {
                array,
                index,
                mask,
                place,
            };
            load_run(kernel, out, form, result_to, &run)
        }
        VectorInstr::Binary { .. } => binary_code(kernel, out, form, result_to, instr),
        _ => set_lanes(kernel, out, form, result_to, instr),
    }
}

// Whether an instruction never traps.
fn is_pure(instr: &VectorInstr) -> bool
    ensures { result ≡ is_pure instr.now }
{
    !matches!(
        instr,
        VectorInstr::Gather { .. } | VectorInstr::LoadRun { .. }
    )
}

/// Appends an instruction that writes lanes of a vector register, in a form. What is useless is left out, unless it may trap.
pub fn vector_line(
    kernel: &Kernel,
    out: &mut Bytes,
    form: Form,
    result_to: Register,
    instr: &VectorInstr,
) -> Result<(), Refusal>
    ensures { OnOk result (out.new ≡ out.old ++ code_bytes (templates.vector_line (setting kernel.now) form result_to instr.now)) }
{
    match form {
        Form::Kept | Form::Free | Form::KeptBy(_) | Form::FreeBy(_) => {
            vector_code(kernel, out, form, result_to, instr)
        }
        Form::Useless if is_pure(instr) => Ok(()),
        Form::Useless => vector_code(kernel, out, Form::Kept, result_to, instr),
    }
}
