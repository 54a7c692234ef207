//! Values as lanes: a bool is all ones or zeros.
ghost use Rattle.std.specs.Prelude.{◌≡◌, ◌++◌, ◌+◌, ◌<◌, OnOk, slice_index};
ghost use Rattle.isp_wasm_meaning.specs.Digits.{packed};
ghost use Rattle.isp_wasm_meaning.specs.Meaning.{of_lanes};
ghost use Rattle.isp_wasm_meaning.specs.Syntax as wasm;
ghost use Rattle.isp_wasm_binary.specs.Instructions.{expr_bytes};
ghost use Rattle.isp_wasm_binary.specs.Named as named;
ghost use Rattle.isp_wasm_write.specs.Settings.{setting};
ghost use Rattle.isp_wasm_vectors.specs.reader.Tails as tails;

use crate::parts::{count_of, shape};
use isp_base::Elem;
use isp_code::Register;
use isp_wasm_binary::{Binary, Bytes, Shape, Size, Whole};
use isp_wasm_write::{Kernel, Place, Refusal};
use std::alloc::AllocError;

/// Before a value that becomes a lane: of a bool, what it is taken from.
pub(crate) fn begin_cell(out: &mut Bytes, elem: Elem) -> Result<(), AllocError>
    ensures { OnOk result (out.new ≡ out.old ++ tails.cell_head elem) }
{
    match elem {
        Elem::Bool => out.const32(0),
        _ => Ok(()),
    }
}

/// After it.
pub(crate) fn end_cell(out: &mut Bytes, elem: Elem) -> Result<(), AllocError>
    ensures { OnOk result (out.new ≡ out.old ++ tails.cell_tail elem) }
{
    match elem {
        Elem::Bool => out.binary(Binary::Of(Size::I32, Whole::Sub)),
        _ => Ok(()),
    }
}

/// Before a value that a lane of a vector register is set to.
pub(crate) fn begin_lane(
    kernel: &Kernel,
    out: &mut Bytes,
    register: Register,
    lane: u8,
) -> Result<(), Refusal>
    ensures { OnOk result (out.new ≡ out.old ++ tails.lane_head (setting kernel.now) register lane) }
{
    let part = lane / count_of(shape(kernel, register));
    kernel.get(out, Place::Vector(register.number, u32::from(part)))?;
    Ok(begin_cell(out, kernel.elem(register))?)
}

/// After it.
pub(crate) fn end_lane(
    kernel: &Kernel,
    out: &mut Bytes,
    register: Register,
    lane: u8,
) -> Result<(), Refusal>
    ensures { OnOk result (out.new ≡ out.old ++ tails.lane_tail (setting kernel.now) register lane) }
{
    let shape = shape(kernel, register);
    let count = count_of(shape);
    end_cell(out, kernel.elem(register))?;
    out.binary(Binary::Replace(shape, lane % count))?;
    kernel.set(out, Place::Vector(register.number, u32::from(lane / count)))
}

// The bytes of a part whose lanes are the numbers from one on.
#[tactic(auto, unfolding(isp_wasm_meaning::specs::Digits::packed))]
fn number_bytes(shape: Shape, first: u8) -> [u8; 16]
    requires { first < 241 }
    ensures { packed 256 16 (slice_index result) ≡ of_lanes (named.shape shape) (λ i. first + i) }
{
    let n = first;
    match shape {
        Shape::I8x16 => [
            n,
            n + 1,
            n + 2,
            n + 3,
            n + 4,
            n + 5,
            n + 6,
            n + 7,
            n + 8,
            n + 9,
            n + 10,
            n + 11,
            n + 12,
            n + 13,
            n + 14,
            n + 15,
        ],
        Shape::I16x8 => [
            n,
            0,
            n + 1,
            0,
            n + 2,
            0,
            n + 3,
            0,
            n + 4,
            0,
            n + 5,
            0,
            n + 6,
            0,
            n + 7,
            0,
        ],
        Shape::I32x4 => [n, 0, 0, 0, n + 1, 0, 0, 0, n + 2, 0, 0, 0, n + 3, 0, 0, 0],
        Shape::I64x2 => [n, 0, 0, 0, 0, 0, 0, 0, n + 1, 0, 0, 0, 0, 0, 0, 0],
    }
}

/// Appends that part.
pub(crate) fn numbers(out: &mut Bytes, shape: Shape, first: u8) -> Result<(), AllocError>
    requires { first < 241 }
    ensures { OnOk result (out.new ≡ out.old ++ expr_bytes (wasm.Const128 (of_lanes (named.shape shape) (λ i. first + i)))) }
{
    out.const128(&number_bytes(shape, first))
}
