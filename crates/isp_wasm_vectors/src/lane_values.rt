//! Vectors that are made lane by lane.
ghost use Rattle.std.specs.Prelude.{◌≡◌, ◌++◌, ◌+◌, ◌<◌, ◌≤◌, IsTrue, OnOk};
ghost use Rattle.isp_wasm.specs.Places as places;
ghost use Rattle.isp_wasm.specs.Rows as rows;
ghost use Rattle.isp_wasm_binary.specs.Instructions.{expr_bytes};
ghost use Rattle.isp_wasm_binary.specs.Named as named;
ghost use Rattle.isp_wasm_write.specs.Settings.{setting};
ghost use Rattle.isp_wasm_vectors.specs.reader.Vectors as vectors;

use crate::cells::{begin_cell, end_cell};
use crate::folds::{Fold, Item, folded};
use crate::parts::{count_of, lane, lanes, shape};
use crate::picks::{Pick, Source, Which, lane_or_zero, modulo, picked};
use isp_code::{Exchange, Register, VectorInstr};
use isp_wasm_binary::{Binary, Bytes, Size, Test};
use isp_wasm_write::{Kernel, Part, Place, Refusal, plain, shape_of};

// A vector, a mask, and the number of a lane.
#[derive(Clone, Copy)]
struct At {
    vector: Register,
    mask: Register,
    lane: u8,
}

// Appends a lane's value, or another in the one lane that a number names.
fn inserted(
    kernel: &Kernel,
    out: &mut Bytes,
    at: &At,
    which: Register,
    value: Register,
) -> Result<(), Refusal>
    ensures { OnOk result (out.new ≡ out.old ++ expr_bytes (vectors.inserted_at (setting kernel.now) at.now which value)) }
{
    kernel.get(out, Place::Scalar(value.number))?;
    lane_or_zero(kernel, out, at.vector, at.mask, at.lane)?;
    modulo(kernel, out, which)?;
    out.const32(u32::from(at.lane))?;
    out.binary(Binary::Compare(Size::I32, Test::Eq))?;
    Ok(out.select()?)
}

fn which_of(op: Exchange, by: Register) -> Which
    ensures { result ≡ vectors.which_of op by }
{
    match op {
        Exchange::Broadcast => Which::Same(by),
        Exchange::Rotate => Which::Around(by),
        Exchange::Shift => Which::Above(by),
    }
}

// Appends what a lane gets of others.
fn across_value(
    kernel: &Kernel,
    out: &mut Bytes,
    result_to: Register,
    instr: &VectorInstr,
    lane: u8,
) -> Result<(), Refusal>
    requires { IsTrue (vectors.is_across instr.now) }
    ensures { OnOk result (out.new ≡ out.old ++ expr_bytes (vectors.lane_of (setting kernel.now) result_to instr.now lane)) }
{
    let lanes = lanes(kernel);
    match *instr {
        VectorInstr::Scan { op, value, mask } => {
            let elem = kernel.elem(value);
            let fold = Fold {
                op,
                elem,
                item: Item::Lane,
                vector: value,
                mask,
            };
            folded(kernel, out, &fold, lane)
        }
        VectorInstr::Exchange {
            op,
            vector,
            by,
            mask,
        } => {
            let pick = Pick {
                source: Source::Vector(vector),
                which: which_of(op, by),
                mask,
                lane,
            };
            picked(kernel, out, &pick, lanes)
        }
        VectorInstr::Shuffle {
            vector,
            lanes: by,
            mask,
        } => {
            let pick = Pick {
                source: Source::Vector(vector),
                which: Which::OfLane(by),
                mask,
                lane,
            };
            picked(kernel, out, &pick, lanes)
        }
        VectorInstr::ShuffleTwo {
            first,
            second,
            lanes: by,
            mask,
        } => {
            let source = Source::Both(first, second);
            let pick = Pick {
                source,
                which: Which::OfBoth(by),
                mask,
                lane,
            };
            picked(kernel, out, &pick, 2 * lanes)
        }
        VectorInstr::Insert {
            vector,
            lane: which,
            value,
            mask,
        } => { inserted(kernel, out, &At { vector, mask, lane }, which, value) }
        _ => unreachable!(),
    }
}

// Appends what a lane gets.
fn lane_value(
    kernel: &Kernel,
    out: &mut Bytes,
    result_to: Register,
    instr: &VectorInstr,
    number: u8,
) -> Result<(), Refusal>
    requires { IsTrue (vectors.is_laned instr.now) }
    ensures { OnOk result (out.new ≡ out.old ++ expr_bytes (vectors.lane_of (setting kernel.now) result_to instr.now number)) }
{
    let elem = kernel.elem(result_to);
    match *instr {
        VectorInstr::Binary {
            op,
            left,
            right,
            ..
        } => {
            let left = lane(kernel, elem, left, number)?;
            let right = lane(kernel, elem, right, number)?;
            Ok(plain(out, op, elem, left, right)?)
        }
        _ => across_value(kernel, out, result_to, instr, number),
    }
}

// Appends that a lane of a part gets its value.
fn placed(
    kernel: &Kernel,
    out: &mut Bytes,
    result_to: Register,
    instr: &VectorInstr,
    first: u8,
    number: u8,
) -> Result<(), Refusal>
    requires laned { IsTrue (vectors.is_laned instr.now) }
    requires low { first + number < 256 }
    ensures { OnOk result (out.new ≡ out.old ++ vectors.placed_tail (setting kernel.now) result_to instr.now first number) }
{
    let elem = kernel.elem(result_to);
    begin_cell(out, elem)?;
    lane_value(kernel, out, result_to, instr, first + number)?;
    end_cell(out, elem)?;
    Ok(out.binary(Binary::Replace(shape_of(elem), number))?)
}

/// Appends a part, one lane of the gang after the other.
pub(crate) fn by_lane(
    kernel: &Kernel,
    out: &mut Bytes,
    result_to: Register,
    instr: &VectorInstr,
    part: u8,
) -> Result<(), Refusal>
    requires laned { IsTrue (vectors.is_laned instr.now) }
    requires low { part < 16 }
    ensures { OnOk result (out.new ≡ out.old ++ expr_bytes (vectors.laned (setting kernel.now) result_to instr.now part)) }
{
    let count = count_of(shape(kernel, result_to));
    let first = part * count;
    let here = count.min(lanes(kernel).saturating_sub(first));
    Part::Zero.write(out)?;
    for number in 0..here {
        placed(kernel, out, result_to, instr, first, number)?;
    }
    Ok(())
}
