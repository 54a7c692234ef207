//! Values of one lane: what operators and conversions make of them.
ghost use Rattle.std.specs.Prelude.{◌≡◌, ◌++◌, ◌-◌, ◌^◌, OnOk};
ghost use Rattle.isp_base.specs.Values.{width};
ghost use Rattle.isp_base.specs.declared.operators.UnaryOp.TheVariants as unaries;
ghost use Rattle.isp_code.specs.declared.instr.Plain.TheVariants as plains;
ghost use Rattle.isp_wasm_meaning.specs.Syntax as wasm;
ghost use Rattle.isp_wasm.specs.Places as places;
ghost use Rattle.isp_wasm.specs.Words as words;
ghost use Rattle.isp_wasm_binary.specs.Instructions.{expr_bytes};
ghost use Rattle.isp_wasm_binary.specs.Named as named;
ghost use Rattle.isp_wasm_write.specs.Operands.{operand_expr};
ghost use Rattle.isp_wasm_write.specs.reader.Tails as tails;

use crate::operand::{Operand, constant};
use crate::types::{less_of, right_of, size_of};
use isp_base::{Compare, Elem, UnaryOp};
use isp_code::Plain;
use isp_wasm_binary::{Binary, Bitwise, Bytes, Shift, Size, Test, Unary, Whole};
use std::alloc::AllocError;

// After a value of 8 or 16 bits with a sign: the sign.
fn sign(out: &mut Bytes, elem: Elem) -> Result<(), AllocError>
    ensures { OnOk result (out.new ≡ out.old ++ tails.sign_tail elem) }
{
    match elem {
        Elem::I8 => out.unary(Unary::Extend8S),
        Elem::I16 => out.unary(Unary::Extend16S),
        _ => Ok(()),
    }
}

fn and(out: &mut Bytes, number: u32) -> Result<(), AllocError>
    ensures { OnOk result (out.new ≡ out.old ++ tails.and_tail number) }
{
    out.const32(number)?;
    out.binary(Binary::BitsOf(Size::I32, Bitwise::And))
}

/// After a number: its low bits, of as many as a value has.
pub fn cut(out: &mut Bytes, elem: Elem) -> Result<(), AllocError>
    ensures { OnOk result (out.new ≡ out.old ++ tails.cut_tail elem) }
{
    match elem {
        Elem::I8 | Elem::U8 => and(out, 0xFF),
        Elem::I16 | Elem::U16 => and(out, 0xFFFF),
        _ => Ok(()),
    }
}

// After a shift's amount: the amount modulo the bits of the value.
fn amount(out: &mut Bytes, elem: Elem) -> Result<(), AllocError>
    ensures { OnOk result (out.new ≡ out.old ++ tails.amount_tail elem) }
{
    match elem {
        Elem::I8 | Elem::U8 => and(out, 7),
        Elem::I16 | Elem::U16 => and(out, 15),
        _ => Ok(()),
    }
}

/// Whether a value is below another.
pub fn below(out: &mut Bytes, elem: Elem, left: Operand, right: Operand) -> Result<(), AllocError>
    ensures { OnOk result (out.new ≡ out.old ++ expr_bytes (words.below elem (operand_expr left) (operand_expr right))) }
{
    left.write(out)?;
    sign(out, elem)?;
    right.write(out)?;
    sign(out, elem)?;
    out.binary(Binary::Compare(size_of(elem), less_of(elem)))
}

// A sum, a difference or a product.
fn whole(
    out: &mut Bytes,
    op: Whole,
    elem: Elem,
    left: Operand,
    right: Operand,
) -> Result<(), AllocError>
    ensures { OnOk result (out.new ≡ out.old ++ expr_bytes (words.whole_expr elem (named.whole op) (operand_expr left) (operand_expr right))) }
{
    left.write(out)?;
    right.write(out)?;
    out.binary(Binary::Of(size_of(elem), op))?;
    cut(out, elem)
}

// The first of two values where the comparison after them holds, else the second.
fn one_of(
    out: &mut Bytes,
    elem: Elem,
    pair: (Operand, Operand),
    compared: (Operand, Operand),
) -> Result<(), AllocError>
    ensures { OnOk result (out.new ≡ out.old ++ expr_bytes (wasm.Select (words.below elem (operand_expr compared.0) (operand_expr compared.1)) (operand_expr pair.0) (operand_expr pair.1))) }
{
    pair.0.write(out)?;
    pair.1.write(out)?;
    below(out, elem, compared.0, compared.1)?;
    out.select()
}

fn bitwise(
    out: &mut Bytes,
    op: Bitwise,
    elem: Elem,
    left: Operand,
    right: Operand,
) -> Result<(), AllocError>
    ensures { OnOk result (out.new ≡ out.old ++ expr_bytes (wasm.Two (wasm.BitsOf (places.size_of elem) (named.bitwise op)) (operand_expr left) (operand_expr right))) }
{
    left.write(out)?;
    right.write(out)?;
    out.binary(Binary::BitsOf(size_of(elem), op))
}

fn shifted_left(
    out: &mut Bytes,
    elem: Elem,
    left: Operand,
    right: Operand,
) -> Result<(), AllocError>
    ensures { OnOk result (out.new ≡ out.old ++ expr_bytes (words.plain_expr plains.Shl elem (operand_expr left) (operand_expr right))) }
{
    left.write(out)?;
    right.write(out)?;
    amount(out, elem)?;
    out.binary(Binary::ShiftOf(size_of(elem), Shift::Shl))?;
    cut(out, elem)
}

fn shifted_right(
    out: &mut Bytes,
    elem: Elem,
    left: Operand,
    right: Operand,
) -> Result<(), AllocError>
    ensures { OnOk result (out.new ≡ out.old ++ expr_bytes (words.plain_expr plains.Shr elem (operand_expr left) (operand_expr right))) }
{
    left.write(out)?;
    sign(out, elem)?;
    right.write(out)?;
    amount(out, elem)?;
    out.binary(Binary::ShiftOf(size_of(elem), right_of(elem)))?;
    cut(out, elem)
}

/// Appends what an operator makes of two values of a type that is not `bool`.
pub fn plain(
    out: &mut Bytes,
    op: Plain,
    elem: Elem,
    left: Operand,
    right: Operand,
) -> Result<(), AllocError>
    ensures { OnOk result (out.new ≡ out.old ++ expr_bytes (words.plain_expr op elem (operand_expr left) (operand_expr right))) }
{
    match op {
        Plain::Add => whole(out, Whole::Add, elem, left, right),
        Plain::Sub => whole(out, Whole::Sub, elem, left, right),
        Plain::Mul => whole(out, Whole::Mul, elem, left, right),
        Plain::And => bitwise(out, Bitwise::And, elem, left, right),
        Plain::Or => bitwise(out, Bitwise::Or, elem, left, right),
        Plain::Xor => bitwise(out, Bitwise::Xor, elem, left, right),
        Plain::Shl => shifted_left(out, elem, left, right),
        Plain::Shr => shifted_right(out, elem, left, right),
        Plain::Min => one_of(out, elem, (right, left), (right, left)),
        Plain::Max => one_of(out, elem, (left, right), (right, left)),
    }
}

fn absolute(out: &mut Bytes, elem: Elem, value: Operand) -> Result<(), AllocError>
    ensures { OnOk result (out.new ≡ out.old ++ expr_bytes (words.unary_expr unaries.Absolute elem (operand_expr value))) }
{
    whole(out, Whole::Sub, elem, Operand::Zero(elem), value)?;
    value.write(out)?;
    below(out, elem, value, Operand::Zero(elem))?;
    out.select()
}

fn inverted(out: &mut Bytes, elem: Elem, value: Operand) -> Result<(), AllocError>
    ensures { OnOk result (out.new ≡ out.old ++ expr_bytes (words.unary_expr unaries.Invert elem (operand_expr value))) }
{
    value.write(out)?;
    all_ones(out, elem)?;
    out.binary(Binary::BitsOf(size_of(elem), Bitwise::Xor))
}

/// Appends as many ones as a value of a type has bits.
pub fn all_ones(out: &mut Bytes, elem: Elem) -> Result<(), AllocError>
    ensures { OnOk result (out.new ≡ out.old ++ expr_bytes (words.constant (places.size_of elem) (2 ^ width elem - 1))) }
{
    match elem {
        Elem::Bool => out.const32(1),
        Elem::I8 | Elem::U8 => out.const32(0xFF),
        Elem::I16 | Elem::U16 => out.const32(0xFFFF),
        Elem::I32 | Elem::U32 => out.const32(0xFFFF_FFFF),
        Elem::I64 | Elem::U64 => out.const64(0xFFFF_FFFF_FFFF_FFFF),
    }
}

/// Appends what an operator makes of a value.
pub fn unary(out: &mut Bytes, op: UnaryOp, elem: Elem, value: Operand) -> Result<(), AllocError>
    ensures { OnOk result (out.new ≡ out.old ++ expr_bytes (words.unary_expr op elem (operand_expr value))) }
{
    match op {
        UnaryOp::Negate => whole(out, Whole::Sub, elem, Operand::Zero(elem), value),
        UnaryOp::Invert => inverted(out, elem, value),
        UnaryOp::Absolute => absolute(out, elem, value),
        UnaryOp::Not => {
            value.write(out)?;
            out.unary(Unary::Eqz(size_of(elem)))
        }
    }
}

fn tested(
    out: &mut Bytes,
    test: Test,
    elem: Elem,
    left: Operand,
    right: Operand,
) -> Result<(), AllocError>
    ensures { OnOk result (out.new ≡ out.old ++ expr_bytes (wasm.Two (wasm.Compare (places.size_of elem) (named.test test)) (operand_expr left) (operand_expr right))) }
{
    left.write(out)?;
    right.write(out)?;
    out.binary(Binary::Compare(size_of(elem), test))
}

fn not_below(out: &mut Bytes, elem: Elem, left: Operand, right: Operand) -> Result<(), AllocError>
    ensures { OnOk result (out.new ≡ out.old ++ expr_bytes (wasm.One (wasm.Eqz wasm.I32) (words.below elem (operand_expr left) (operand_expr right)))) }
{
    below(out, elem, left, right)?;
    out.unary(Unary::Eqz(Size::I32))
}

/// Appends whether two values of a type compare so.
pub fn compare(
    out: &mut Bytes,
    op: Compare,
    elem: Elem,
    left: Operand,
    right: Operand,
) -> Result<(), AllocError>
    ensures { OnOk result (out.new ≡ out.old ++ expr_bytes (words.compare_expr op elem (operand_expr left) (operand_expr right))) }
{
    match op {
        Compare::Equal => tested(out, Test::Eq, elem, left, right),
        Compare::NotEqual => tested(out, Test::Ne, elem, left, right),
        Compare::Less => below(out, elem, left, right),
        Compare::LessOrEqual => not_below(out, elem, right, left),
        Compare::Greater => below(out, elem, right, left),
        Compare::GreaterOrEqual => not_below(out, elem, left, right),
    }
}

// After a number: the number as one of another size, with its sign.
fn sized(out: &mut Bytes, elem: Elem, from: Size, to: Size) -> Result<(), AllocError>
    ensures { OnOk result (out.new ≡ out.old ++ tails.sized_tail elem (named.size from) (named.size to)) }
{
    match (from, to) {
        (Size::I32, Size::I64) => longer(out, elem),
        (Size::I64, Size::I32) => out.unary(Unary::Wrap),
        _ => Ok(()),
    }
}

fn longer(out: &mut Bytes, elem: Elem) -> Result<(), AllocError>
    ensures { OnOk result (out.new ≡ out.old ++ tails.longer_tail elem) }
{
    match elem {
        Elem::I8 | Elem::I16 | Elem::I32 => out.unary(Unary::ExtendS),
        _ => out.unary(Unary::ExtendU),
    }
}

/// Appends a value of a type as one of another type.
pub fn convert(out: &mut Bytes, from: Elem, to: Elem, value: Operand) -> Result<(), AllocError>
    ensures { OnOk result (out.new ≡ out.old ++ expr_bytes (words.convert_expr from to (operand_expr value))) }
{
    if matches!(to, Elem::Bool) {
        return tested(out, Test::Ne, from, value, Operand::Zero(from));
    }
    value.write(out)?;
    sign(out, from)?;
    sized(out, from, size_of(from), size_of(to))?;
    cut(out, to)
}
