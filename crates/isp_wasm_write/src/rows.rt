//! Parts of vectors, 16 bytes each: what operators make of them.
ghost use Rattle.std.specs.Prelude.{◌≡◌, ◌++◌, ◌^◌, OnOk};
ghost use Rattle.isp_wasm_meaning.specs.Meaning.{of_lanes};
ghost use Rattle.isp_wasm_meaning.specs.Syntax as wasm;
ghost use Rattle.isp_wasm.specs.Places as places;
ghost use Rattle.isp_wasm.specs.Rows as rows;
ghost use Rattle.isp_base.specs.declared.operators.UnaryOp.TheVariants as unaries;
ghost use Rattle.isp_wasm_binary.specs.Instructions.{expr_bytes};
ghost use Rattle.isp_wasm_binary.specs.Operators.{binary_bytes};
ghost use Rattle.isp_wasm_binary.specs.Named as named;
ghost use Rattle.isp_wasm_write.specs.Operands.{part_expr};
ghost use Rattle.isp_wasm_write.specs.reader.Tails.{half_tail};

use crate::types::{less_of, shape_of};
use isp_base::{Compare, Elem, UnaryOp};
use isp_wasm_binary::{Binary, Bitwise, Bytes, Shape, Test, Unary, Whole};
use std::alloc::AllocError;

/// A part that is there already.
#[derive(Clone, Copy)]
pub enum Part {
    /// What a local has.
    Local(u32),
    /// 16 bytes of 0.
    Zero,
}

impl Part {
    /// Appends the part.
    pub fn write(self, out: &mut Bytes) -> Result<(), AllocError>
        ensures { OnOk result (out.new ≡ out.old ++ expr_bytes (part_expr self)) }
    {
        match self {
            Part::Local(local) => out.get(local),
            Part::Zero => zeros(out),
        }
    }
}

// No bits.
fn zeros(out: &mut Bytes) -> Result<(), AllocError>
    ensures { OnOk result (out.new ≡ out.old ++ expr_bytes (wasm.Const128 0)) }
{
    out.const128(b"\x00\x00\x00\x00\x00\x00\x00\x00\x00\x00\x00\x00\x00\x00\x00\x00")
}

// All bits.
fn ones(out: &mut Bytes) -> Result<(), AllocError>
    ensures { OnOk result (out.new ≡ out.old ++ expr_bytes rows.ones) }
{
    out.const128(b"\xff\xff\xff\xff\xff\xff\xff\xff\xff\xff\xff\xff\xff\xff\xff\xff")
}

// The highest bit of each lane of 64.
fn top_bits(out: &mut Bytes) -> Result<(), AllocError>
    ensures { OnOk result (out.new ≡ out.old ++ expr_bytes (wasm.Const128 (of_lanes wasm.I64x2 (λ i. 2 ^ 63)))) }
{
    out.const128(b"\x00\x00\x00\x00\x00\x00\x00\x80\x00\x00\x00\x00\x00\x00\x00\x80")
}

// The lanes of 64 bits, each moved up by 2^63.
fn raised(out: &mut Bytes, part: Part) -> Result<(), AllocError>
    ensures { OnOk result (out.new ≡ out.old ++ expr_bytes (rows.raised_lanes (part_expr part))) }
{
    part.write(out)?;
    top_bits(out)?;
    out.binary(Binary::Lanes(Shape::I64x2, Whole::Add))
}

/// Appends which lanes of a part are below those of another: all ones, or zeros.
pub fn below_part(out: &mut Bytes, elem: Elem, left: Part, right: Part) -> Result<(), AllocError>
    ensures { OnOk result (out.new ≡ out.old ++ expr_bytes (rows.below_row elem (λ j. part_expr left) (λ j. part_expr right) 0)) }
{
    if matches!(elem, Elem::U64) {
        raised(out, left)?;
        raised(out, right)?;
        return out.binary(Binary::CompareLanes(Shape::I64x2, Test::LtS));
    }
    left.write(out)?;
    right.write(out)?;
    out.binary(Binary::CompareLanes(shape_of(elem), less_of(elem)))
}

/// After a part: its bits, each turned.
pub(crate) fn turned(out: &mut Bytes) -> Result<(), AllocError>
    ensures { OnOk result (out.new ≡ out.old ++ (expr_bytes rows.ones ++ binary_bytes (wasm.Bits wasm.Xor))) }
{
    ones(out)?;
    out.binary(Binary::Bits(Bitwise::Xor))
}

fn equal_part(out: &mut Bytes, elem: Elem, left: Part, right: Part) -> Result<(), AllocError>
    ensures { OnOk result (out.new ≡ out.old ++ expr_bytes (wasm.Two (wasm.CompareLanes (places.shape_of elem) wasm.Eq) (part_expr left) (part_expr right))) }
{
    left.write(out)?;
    right.write(out)?;
    out.binary(Binary::CompareLanes(shape_of(elem), Test::Eq))
}

/// Appends which lanes of two parts compare so: all ones, or zeros.
pub fn compare_part(
    out: &mut Bytes,
    op: Compare,
    elem: Elem,
    left: Part,
    right: Part,
) -> Result<(), AllocError>
    ensures { OnOk result (out.new ≡ out.old ++ expr_bytes (rows.compare_row op elem (λ j. part_expr left) (λ j. part_expr right) 0)) }
{
    match op {
        Compare::Equal => equal_part(out, elem, left, right),
        Compare::NotEqual => {
            equal_part(out, elem, left, right)?;
            turned(out)
        }
        Compare::Less => below_part(out, elem, left, right),
        Compare::LessOrEqual => {
            below_part(out, elem, right, left)?;
            turned(out)
        }
        Compare::Greater => below_part(out, elem, right, left),
        Compare::GreaterOrEqual => {
            below_part(out, elem, left, right)?;
            turned(out)
        }
    }
}

fn negated_part(out: &mut Bytes, elem: Elem, part: Part) -> Result<(), AllocError>
    ensures { OnOk result (out.new ≡ out.old ++ expr_bytes (rows.unary_row unaries.Negate elem (λ j. part_expr part) 0)) }
{
    Part::Zero.write(out)?;
    part.write(out)?;
    out.binary(Binary::Lanes(shape_of(elem), Whole::Sub))
}

fn absolute_part(out: &mut Bytes, elem: Elem, part: Part) -> Result<(), AllocError>
    ensures { OnOk result (out.new ≡ out.old ++ expr_bytes (rows.unary_row unaries.Absolute elem (λ j. part_expr part) 0)) }
{
    negated_part(out, elem, part)?;
    part.write(out)?;
    below_part(out, elem, part, Part::Zero)?;
    out.bitselect()
}

/// Appends what an operator makes of a part.
pub fn unary_part(out: &mut Bytes, op: UnaryOp, elem: Elem, part: Part) -> Result<(), AllocError>
    ensures { OnOk result (out.new ≡ out.old ++ expr_bytes (rows.unary_row op elem (λ j. part_expr part) 0)) }
{
    match op {
        UnaryOp::Negate => negated_part(out, elem, part),
        UnaryOp::Absolute => absolute_part(out, elem, part),
        UnaryOp::Invert | UnaryOp::Not => {
            part.write(out)?;
            turned(out)
        }
    }
}

/// Appends, after a part of lanes half as wide as a shape's, that its low ones are made as wide where `place` is even, else its high ones.
pub fn half(out: &mut Bytes, shape: Shape, place: u32) -> Result<(), AllocError>
    ensures { OnOk result (out.new ≡ out.old ++ half_tail (named.shape shape) place) }
{
    if place % 2 == 0 {
        out.unary(Unary::ExtendLow(shape))
    } else {
        out.unary(Unary::ExtendHigh(shape))
    }
}

/// Appends part `place` of a row of bytes of ones or zeros, made lanes of a shape; `part` is the one of bytes in which they lie.
pub fn widened_part(out: &mut Bytes, shape: Shape, part: Part, place: u32) -> Result<(), AllocError>
    ensures { OnOk result (out.new ≡ out.old ++ expr_bytes (rows.widened (named.shape shape) (λ j. part_expr part) place)) }
{
    part.write(out)?;
    match shape {
        Shape::I8x16 => Ok(()),
        Shape::I16x8 => half(out, Shape::I16x8, place),
        Shape::I32x4 => {
            half(out, Shape::I16x8, place / 2)?;
            half(out, Shape::I32x4, place)
        }
        Shape::I64x2 => {
            half(out, Shape::I16x8, place / 2 / 2)?;
            half(out, Shape::I32x4, place / 2)?;
            half(out, Shape::I64x2, place)
        }
    }
}
