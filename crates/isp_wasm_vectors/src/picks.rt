//! One of several values, by its number.
ghost use Rattle.std.specs.Prelude.{◌≡◌, ◌++◌, ◌+◌, ◌*◌, ◌<◌, ◌≤◌, ◌-◌, OnOk};
ghost use Rattle.isp_wasm.specs.Places as places;
ghost use Rattle.isp_wasm.specs.Templates as templates;
ghost use Rattle.isp_wasm_binary.specs.Instructions.{expr_bytes};
ghost use Rattle.isp_wasm_write.specs.Settings.{setting};
ghost use Rattle.isp_wasm_write.specs.reader.Tails.{and_tail};
ghost use Rattle.isp_wasm_vectors.specs.reader.Across as across;

use crate::parts::{lane, lanes};
use isp_base::Elem;
use isp_code::Register;
use isp_wasm_binary::{Binary, Bitwise, Bytes, Size, Test, Whole};
use isp_wasm_write::{Kernel, Place, Refusal, constant, size_of};
use std::alloc::AllocError;

/// The number of the value that a lane gets.
#[derive(Clone, Copy)]
pub(crate) enum Which {
    /// What a scalar register has, modulo the lanes of the gang.
    Same(Register),
    /// The same, with the number of the lane added before.
    Around(Register),
    /// That sum itself.
    Above(Register),
    /// What the lane of a vector register has, modulo the lanes of the gang.
    OfLane(Register),
    /// The same modulo twice as many.
    OfBoth(Register),
}

/// The values of which one is taken.
#[derive(Clone, Copy)]
pub(crate) enum Source {
    /// The lanes of a vector register.
    Vector(Register),
    /// The lanes of two, side by side.
    Both(Register, Register),
}

/// What a lane gets: one of some values, or 0.
#[derive(Clone, Copy)]
pub(crate) struct Pick {
    pub source: Source,
    pub which: Which,
    pub mask: Register,
    pub lane: u8,
}

/// Appends a lane's value, or 0 where the mask has it not.
pub(crate) fn lane_or_zero(
    kernel: &Kernel,
    out: &mut Bytes,
    vector: Register,
    mask: Register,
    number: u8,
) -> Result<(), Refusal>
    ensures { OnOk result (out.new ≡ out.old ++ expr_bytes (templates.lane_or_zero (setting kernel.now) vector mask number)) }
{
    let elem = kernel.elem(vector);
    lane(kernel, elem, vector, number)?.write(out)?;
    constant(out, size_of(elem), 0)?;
    kernel.is_member(out, mask, number)?;
    Ok(out.select()?)
}

// After a number: the number modulo a power of two.
fn low_bits(out: &mut Bytes, count: u8) -> Result<(), AllocError>
    requires { 0 < count }
    ensures { OnOk result (out.new ≡ out.old ++ and_tail (count - 1)) }
{
    out.const32(u32::from(count - 1))?;
    out.binary(Binary::BitsOf(Size::I32, Bitwise::And))
}

/// Appends what a scalar register has, modulo the lanes of the gang.
pub(crate) fn modulo(kernel: &Kernel, out: &mut Bytes, register: Register) -> Result<(), Refusal>
    ensures { OnOk result (out.new ≡ out.old ++ expr_bytes (across.scalar_modulo (setting kernel.now) register)) }
{
    kernel.get(out, Place::Scalar(register.number))?;
    Ok(low_bits(out, lanes(kernel))?)
}

// Appends what a scalar register has, with a number added.
fn plus(kernel: &Kernel, out: &mut Bytes, register: Register, number: u8) -> Result<(), Refusal>
    ensures { OnOk result (out.new ≡ out.old ++ expr_bytes (across.scalar_plus (setting kernel.now) register number)) }
{
    kernel.get(out, Place::Scalar(register.number))?;
    out.const32(u32::from(number))?;
    Ok(out.binary(Binary::Of(Size::I32, Whole::Add))?)
}

// Appends the number that says which value is taken.
fn number_of(kernel: &Kernel, out: &mut Bytes, pick: &Pick) -> Result<(), Refusal>
    ensures { OnOk result (out.new ≡ out.old ++ expr_bytes (across.number_of (setting kernel.now) pick.now)) }
{
    match pick.which {
        Which::Same(register) => modulo(kernel, out, register),
        Which::Around(register) => {
            plus(kernel, out, register, pick.lane)?;
            Ok(low_bits(out, lanes(kernel))?)
        }
        Which::Above(register) => plus(kernel, out, register, pick.lane),
        Which::OfLane(register) => {
            lane_or_zero(kernel, out, register, pick.mask, pick.lane)?;
            Ok(low_bits(out, lanes(kernel))?)
        }
        Which::OfBoth(register) => {
            lane_or_zero(kernel, out, register, pick.mask, pick.lane)?;
            Ok(low_bits(out, 2 * lanes(kernel))?)
        }
    }
}

// Appends the value with a number.
fn numbered(kernel: &Kernel, out: &mut Bytes, pick: &Pick, number: u8) -> Result<(), Refusal>
    ensures { OnOk result (out.new ≡ out.old ++ expr_bytes (across.value_of (setting kernel.now) pick.now number)) }
{
    match pick.source {
        Source::Vector(vector) => lane_or_zero(kernel, out, vector, pick.mask, number),
        Source::Both(first, second) => {
            let lanes = lanes(kernel);
            if number < lanes {
                lane_or_zero(kernel, out, first, pick.mask, number)
            } else {
                lane_or_zero(kernel, out, second, pick.mask, number - lanes)
            }
        }
    }
}

// The type of the values.
fn elem_of(kernel: &Kernel, source: Source) -> Elem
    ensures { result ≡ across.source_elem (setting kernel.now) source }
{
    match source {
        Source::Vector(vector) => kernel.elem(vector),
        Source::Both(first, _) => kernel.elem(first),
    }
}

/// Appends the one of the first values that is taken, or 0 where it is none of them.
pub(crate) fn picked(
    kernel: &Kernel,
    out: &mut Bytes,
    pick: &Pick,
    count: u8,
) -> Result<(), Refusal>
    ensures { OnOk result (out.new ≡ out.old ++ expr_bytes (across.pick_expr (setting kernel.now) pick.now count)) }
{
    if count == 0 {
        return Ok(constant(out, size_of(elem_of(kernel, pick.source)), 0)?);
    }
    let last = count - 1;
    numbered(kernel, out, pick, last)?;
    picked(kernel, out, pick, last)?;
    number_of(kernel, out, pick)?;
    out.const32(u32::from(last))?;
    out.binary(Binary::Compare(Size::I32, Test::Eq))?;
    Ok(out.select()?)
}
