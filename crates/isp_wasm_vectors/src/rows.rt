//! Parts of vector registers: what operators make of all lanes of a part at once.
ghost use Rattle.std.specs.Prelude.{◌≡◌, ◌++◌, ◌+◌, ◌*◌, ◌<◌, ◌≤◌, false, OnOk};
ghost use Rattle.isp_wasm_meaning.specs.Syntax as wasm;
ghost use Rattle.isp_wasm.specs.Places as places;
ghost use Rattle.isp_wasm.specs.Rows as rows;
ghost use Rattle.isp_wasm.specs.Templates as templates;
ghost use Rattle.isp_wasm_binary.specs.Instructions.{expr_bytes};
ghost use Rattle.isp_wasm_binary.specs.Named as named;
ghost use Rattle.isp_wasm_write.specs.Operands.{part_expr};
ghost use Rattle.isp_wasm_write.specs.Settings.{setting};
ghost use Rattle.isp_wasm_vectors.specs.reader.Parts as parts;

use crate::parts::{mask, parts, shape, vector};
use isp_base::{Compare, Elem, UnaryOp};
use isp_code::{Plain, Register};
use isp_wasm_binary::{Binary, Bitwise, Bytes, Shape, Whole};
use isp_wasm_write::{
    Kernel, Part, Refusal, below_part, compare_part, half, shape_of, unary_part, widened_part,
};
use std::alloc::AllocError;

/// A row of lanes: of a register, or which of a register's are not 0, or which of two compare so: all ones or zeros.
#[derive(Clone, Copy)]
pub(crate) enum Row {
    Lanes(Register),
    NotZero(Register),
    Compared {
        op: Compare,
        left: Register,
        right: Register,
    },
}

/// Appends what an operator makes of a part.
pub(crate) fn unary_row(
    kernel: &Kernel,
    out: &mut Bytes,
    op: UnaryOp,
    elem: Elem,
    value: Register,
    part: u8,
) -> Result<(), Refusal>
    ensures { OnOk result (out.new ≡ out.old ++ expr_bytes (parts.unary (setting kernel.now) op elem value part)) }
{
    let value = vector(kernel, value, part)?;
    Ok(unary_part(out, op, elem, value)?)
}

// Appends which lanes of a part are below those of another.
fn below_row(
    kernel: &Kernel,
    out: &mut Bytes,
    elem: Elem,
    pair: (Register, Register),
    part: u8,
) -> Result<(), Refusal>
    ensures { OnOk result (out.new ≡ out.old ++ expr_bytes (parts.below (setting kernel.now) elem pair part)) }
{
    let left = vector(kernel, pair.0, part)?;
    let right = vector(kernel, pair.1, part)?;
    Ok(below_part(out, elem, left, right)?)
}

// Appends the lanes of the first of two parts where the second is below the first or not below it, else those of the second.
fn one_of(
    kernel: &Kernel,
    out: &mut Bytes,
    elem: Elem,
    pair: (Register, Register),
    compared: (Register, Register),
    part: u8,
) -> Result<(), Refusal>
    ensures { OnOk result (out.new ≡ out.old ++ expr_bytes (parts.one_of (setting kernel.now) elem pair compared part)) }
{
    vector(kernel, pair.0, part)?.write(out)?;
    vector(kernel, pair.1, part)?.write(out)?;
    below_row(kernel, out, elem, compared, part)?;
    Ok(out.bitselect()?)
}

// Appends what an operator makes of two parts.
fn lanes_of(
    kernel: &Kernel,
    out: &mut Bytes,
    op: Binary,
    pair: (Register, Register),
    part: u8,
) -> Result<(), Refusal>
    ensures { OnOk result (out.new ≡ out.old ++ expr_bytes (parts.of_two (setting kernel.now) (named.binary op) pair part)) }
{
    vector(kernel, pair.0, part)?.write(out)?;
    vector(kernel, pair.1, part)?.write(out)?;
    Ok(out.binary(op)?)
}

/// Whether an operator goes lane by lane: products of 8 bits, and shifts by each lane's own amount.
pub(crate) fn is_lane_by_lane(op: Plain, elem: Elem) -> bool
    ensures { result ≡ parts.is_lane_by_lane op elem }
{
    match (op, elem) {
        (Plain::Mul, Elem::I8 | Elem::U8) => true,
        (Plain::Shl | Plain::Shr, _) => true,
        _ => false,
    }
}

/// Appends what an operator makes of two parts, where it does not go lane by lane.
pub(crate) fn plain_row(
    kernel: &Kernel,
    out: &mut Bytes,
    op: Plain,
    elem: Elem,
    pair: (Register, Register),
    part: u8,
) -> Result<(), Refusal>
    requires { parts.is_lane_by_lane op elem ≡ false }
    ensures { OnOk result (out.new ≡ out.old ++ expr_bytes (parts.plain (setting kernel.now) op elem pair part)) }
{
    let shape = shape_of(elem);
    let (left, right) = pair;
    match op {
        Plain::Add => lanes_of(kernel, out, Binary::Lanes(shape, Whole::Add), pair, part),
        Plain::Sub => lanes_of(kernel, out, Binary::Lanes(shape, Whole::Sub), pair, part),
        Plain::Mul => lanes_of(kernel, out, Binary::Lanes(shape, Whole::Mul), pair, part),
        Plain::And => lanes_of(kernel, out, Binary::Bits(Bitwise::And), pair, part),
        Plain::Or => lanes_of(kernel, out, Binary::Bits(Bitwise::Or), pair, part),
        Plain::Xor => lanes_of(kernel, out, Binary::Bits(Bitwise::Xor), pair, part),
        Plain::Min => one_of(kernel, out, elem, (right, left), (right, left), part),
        Plain::Max => one_of(kernel, out, elem, pair, (right, left), part),
        Plain::Shl | Plain::Shr => unreachable!(),
    }
}

// The register whose type the lanes of a row have.
fn typed_by(row: &Row) -> Register
    ensures { result ≡ parts.typed_by row.now }
{
    match *row {
        Row::Lanes(value) | Row::NotZero(value) => value,
        Row::Compared { left, .. } => left,
    }
}

// Appends a part of a row.
fn lanes_at(kernel: &Kernel, out: &mut Bytes, row: &Row, part: u8) -> Result<(), Refusal>
    ensures { OnOk result (out.new ≡ out.old ++ expr_bytes (parts.row_expr (setting kernel.now) row.now part)) }
{
    let elem = kernel.elem(typed_by(row));
    match *row {
        Row::Lanes(value) => Ok(vector(kernel, value, part)?.write(out)?),
        Row::NotZero(value) => {
            let value = vector(kernel, value, part)?;
            Ok(compare_part(out, Compare::NotEqual, elem, value, Part::Zero)?)
        }
        Row::Compared { op, left, right } => {
            let left = vector(kernel, left, part)?;
            let right = vector(kernel, right, part)?;
            Ok(compare_part(out, op, elem, left, right)?)
        }
    }
}

// The same, and past the parts that there are, zeros.
fn present_at(kernel: &Kernel, out: &mut Bytes, row: &Row, part: u8) -> Result<(), Refusal>
    ensures { OnOk result (out.new ≡ out.old ++ expr_bytes (parts.present_row (setting kernel.now) row.now part)) }
{
    if part >= parts(kernel, shape(kernel, typed_by(row))) {
        return Ok(Part::Zero.write(out)?);
    }
    lanes_at(kernel, out, row, part)
}

// Appends a part of a row as lanes of 32 bits.
fn as_words(kernel: &Kernel, out: &mut Bytes, row: &Row, part: u8) -> Result<(), Refusal>
    requires { part < 64 }
    ensures { OnOk result (out.new ≡ out.old ++ expr_bytes (parts.resized (setting kernel.now) wasm.I32x4 row.now part)) }
{
    let place = u32::from(part);
    match shape(kernel, typed_by(row)) {
        Shape::I8x16 => {
            present_at(kernel, out, row, part / 2 / 2)?;
            half(out, Shape::I16x8, place / 2)?;
            Ok(half(out, Shape::I32x4, place)?)
        }
        Shape::I16x8 => {
            present_at(kernel, out, row, part / 2)?;
            Ok(half(out, Shape::I32x4, place)?)
        }
        Shape::I32x4 => present_at(kernel, out, row, part),
        Shape::I64x2 => {
            present_at(kernel, out, row, 2 * part)?;
            present_at(kernel, out, row, 2 * part + 1)?;
            Ok(out.binary(Binary::Evens(Shape::I64x2))?)
        }
    }
}

// As lanes of 64 bits.
fn as_longs(kernel: &Kernel, out: &mut Bytes, row: &Row, part: u8) -> Result<(), Refusal>
    requires { part < 64 }
    ensures { OnOk result (out.new ≡ out.old ++ expr_bytes (parts.resized (setting kernel.now) wasm.I64x2 row.now part)) }
{
    match shape(kernel, typed_by(row)) {
        Shape::I64x2 => present_at(kernel, out, row, part),
        _ => {
            as_words(kernel, out, row, part / 2)?;
            Ok(half(out, Shape::I64x2, u32::from(part))?)
        }
    }
}

// As lanes of 16 bits.
fn as_halves(kernel: &Kernel, out: &mut Bytes, row: &Row, part: u8) -> Result<(), Refusal>
    requires { part < 32 }
    ensures { OnOk result (out.new ≡ out.old ++ expr_bytes (parts.resized (setting kernel.now) wasm.I16x8 row.now part)) }
{
    match shape(kernel, typed_by(row)) {
        Shape::I8x16 => {
            present_at(kernel, out, row, part / 2)?;
            Ok(half(out, Shape::I16x8, u32::from(part))?)
        }
        Shape::I16x8 => present_at(kernel, out, row, part),
        _ => {
            as_words(kernel, out, row, 2 * part)?;
            as_words(kernel, out, row, 2 * part + 1)?;
            Ok(out.binary(Binary::Evens(Shape::I32x4))?)
        }
    }
}

/// Appends a part of a row as bytes: their low bits, so ones or zeros stay such.
pub(crate) fn as_bytes(kernel: &Kernel, out: &mut Bytes, row: &Row, part: u8) -> Result<(), Refusal>
    requires { part < 16 }
    ensures { OnOk result (out.new ≡ out.old ++ expr_bytes (parts.resized (setting kernel.now) wasm.I8x16 row.now part)) }
{
    match shape(kernel, typed_by(row)) {
        Shape::I8x16 => present_at(kernel, out, row, part),
        _ => {
            as_halves(kernel, out, row, 2 * part)?;
            as_halves(kernel, out, row, 2 * part + 1)?;
            Ok(out.binary(Binary::Evens(Shape::I16x8))?)
        }
    }
}

/// Appends a part of a row as lanes of a shape: their low bits, or with their sign.
pub(crate) fn resized(
    kernel: &Kernel,
    out: &mut Bytes,
    shape: Shape,
    row: &Row,
    part: u8,
) -> Result<(), Refusal>
    requires { part < 16 }
    ensures { OnOk result (out.new ≡ out.old ++ expr_bytes (parts.resized (setting kernel.now) (named.shape shape) row.now part)) }
{
    match shape {
        Shape::I8x16 => as_bytes(kernel, out, row, part),
        Shape::I16x8 => as_halves(kernel, out, row, part),
        Shape::I32x4 => as_words(kernel, out, row, part),
        Shape::I64x2 => as_longs(kernel, out, row, part),
    }
}

// The part of a row of bytes in which a part's lanes lie.
fn byte_part(shape: Shape, part: u8) -> u8
    ensures { result ≡ parts.byte_part (named.shape shape) part }
{
    match shape {
        Shape::I8x16 => part,
        Shape::I16x8 => part / 2,
        Shape::I32x4 => part / 2 / 2,
        Shape::I64x2 => part / 2 / 2 / 2,
    }
}

/// Appends the lanes of a mask, as ones or zeros of a shape's lanes.
pub fn widened_mask(
    kernel: &Kernel,
    out: &mut Bytes,
    shape: Shape,
    register: Register,
    part: u8,
) -> Result<(), Refusal>
    ensures { OnOk result (out.new ≡ out.old ++ expr_bytes (parts.of_mask (setting kernel.now) (named.shape shape) register part)) }
{
    let place = u32::from(part);
    let bytes = mask(kernel, register, byte_part(shape, part))?;
    Ok(widened_part(out, shape, bytes, place)?)
}

/// The same of a vector of bools.
pub(crate) fn widened_vector(
    kernel: &Kernel,
    out: &mut Bytes,
    shape: Shape,
    register: Register,
    part: u8,
) -> Result<(), Refusal>
    ensures { OnOk result (out.new ≡ out.old ++ expr_bytes (parts.of_bools (setting kernel.now) (named.shape shape) register part)) }
{
    let place = u32::from(part);
    let bytes = vector(kernel, register, byte_part(shape, part))?;
    Ok(widened_part(out, shape, bytes, place)?)
}
