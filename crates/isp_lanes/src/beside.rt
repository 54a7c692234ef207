//! The operators on a vector of a list, with the other vectors beside it. The vector is written where it stands, and nothing is
//! copied but the words that are read. Each call leaves in it what the call of the same name without `_at` would.
ghost use Rattle.std.specs.Prelude.{◌≡◌, ◌<◌, length, map, slice_set, cond, Some, None, IfOk, IfErr, false, true};
ghost use Rattle.std.specs.Simd.Lanes.{zip2, sel_l};
ghost use Rattle.isp_base.specs.declared.types.Elem.TheVariants.{Bool as Truth};
ghost use Rattle.isp_base.specs.Cells.{cell_width};
ghost use Rattle.isp_base.specs.Values.{divides, op_bits, compare_bits, convert_bits, number, width, wrap};
ghost use Rattle.isp_base.specs.Unary.{unary_bits};
ghost use Rattle.isp_base.specs.Rows.{Row};
ghost use Rattle.isp_lanes.specs.Lanes.{AreAlike, is_on, first_zero, written, vector};

use crate::kernels::operators::{self, Operator, UnaryOperator};
use crate::lane_elem::LaneElem;
use crate::lanes::Lanes;
use crate::mask::LaneMask;
use crate::masked;
use crate::row::Row;
use crate::words::Words;
use isp_base::{BinOp, Compare, Elem, UnaryOp};
use std::simd::prelude::*;

impl<const N: usize> Lanes<N> {
    /// The operator on two vectors of a list, in a third one, which may be one of them.
    ///
    /// A division by zero in a lane of the mask is `Err` with the lowest such lane, and then nothing
    /// changes.
    pub fn binary_at(
        vectors: &mut [Self],
        out: usize,
        op: BinOp,
        x: usize,
        y: usize,
        mask: &LaneMask<N>,
    ) -> Result<(), usize>
        requires x { AreAlike vectors.old out x }
        requires y { AreAlike vectors.old out y }
        ensures divided { IfOk result (λ _. first_zero op mask.now (vector vectors.old y).bits ≡ None) }
        ensures value { IfOk result (λ _. vectors.new ≡ slice_set vectors.old out (written mask.now (zip2 (op_bits op (vector vectors.old out).elem) (vector vectors.old x).bits (vector vectors.old y).bits) (vector vectors.old out))) }
        ensures lowest { IfErr result (λ lane. first_zero op mask.now (vector vectors.old y).bits ≡ Some lane) }
        ensures same { IfErr result (λ _. vectors.new ≡ vectors.old) }
    {
        match op {
            BinOp::Add => zipped::<N, operators::Add>(vectors, out, x, y, mask),
            BinOp::Sub => zipped::<N, operators::Sub>(vectors, out, x, y, mask),
            BinOp::Mul => zipped::<N, operators::Mul>(vectors, out, x, y, mask),
            BinOp::And => zipped::<N, operators::And>(vectors, out, x, y, mask),
            BinOp::Or => zipped::<N, operators::Or>(vectors, out, x, y, mask),
            BinOp::Xor => zipped::<N, operators::Xor>(vectors, out, x, y, mask),
            BinOp::Shl => zipped::<N, operators::Shl>(vectors, out, x, y, mask),
            BinOp::Shr => zipped::<N, operators::Shr>(vectors, out, x, y, mask),
            BinOp::Min => zipped::<N, operators::Min>(vectors, out, x, y, mask),
            BinOp::Max => zipped::<N, operators::Max>(vectors, out, x, y, mask),
            BinOp::Div | BinOp::Rem => return divided(vectors, out, op, x, y, mask),
        }
        Ok(())
    }

    /// The operator on one vector of a list, in another one or in the same.
    pub fn unary_at(vectors: &mut [Self], out: usize, op: UnaryOp, x: usize, mask: &LaneMask<N>)
        requires x { AreAlike vectors.old out x }
        ensures { vectors.new ≡ slice_set vectors.old out (written mask.now (map (unary_bits op (vector vectors.old out).elem) (vector vectors.old x).bits) (vector vectors.old out)) }
    {
        match op {
            UnaryOp::Negate => mapped::<N, operators::Negate>(vectors, out, x, mask),
            UnaryOp::Invert => mapped::<N, operators::Invert>(vectors, out, x, mask),
            UnaryOp::Absolute => mapped::<N, operators::Absolute>(vectors, out, x, mask),
            UnaryOp::Not => mapped::<N, operators::Not>(vectors, out, x, mask),
        }
    }

    /// The comparison of two vectors of a list that have one element type, in a vector of bools.
    pub fn compare_at(
        vectors: &mut [Self],
        out: usize,
        compare: Compare,
        x: usize,
        y: usize,
        mask: &LaneMask<N>,
    )
        requires out { out < length vectors.old }
        requires y { AreAlike vectors.old x y }
        requires truth { (vector vectors.old out).elem ≡ Truth }
        ensures { vectors.new ≡ slice_set vectors.old out (written mask.now (zip2 (compare_bits compare (vector vectors.old x).elem) (vector vectors.old x).bits (vector vectors.old y).bits) (vector vectors.old out)) }
    {
        mask.told();
        vectors[x].told();
        vectors[y].told();
        let holds = vectors[x].compared(compare, &vectors[y]);
        vectors[out].blend(Simd::from_array(holds), mask);
    }

    /// The values of a vector of a list, converted to the element type of another one or the same.
    pub fn convert_at(vectors: &mut [Self], out: usize, x: usize, mask: &LaneMask<N>)
        requires out { out < length vectors.old }
        requires x { x < length vectors.old }
        ensures { vectors.new ≡ slice_set vectors.old out (written mask.now (map (λ b. convert_bits (vector vectors.old out).elem (number (vector vectors.old x).elem b)) (vector vectors.old x).bits) (vector vectors.old out)) }
    {
        vectors[x].told();
        match vectors[out].elem() {
            Elem::Bool => truths(vectors, out, x, mask),
            Elem::I8 | Elem::U8 => converted::<N, Simd<u8, N>>(vectors, out, x, mask),
            Elem::I16 | Elem::U16 => converted::<N, Simd<u16, N>>(vectors, out, x, mask),
            Elem::I32 | Elem::U32 => converted::<N, Simd<u32, N>>(vectors, out, x, mask),
            Elem::I64 | Elem::U64 => converted::<N, Simd<u64, N>>(vectors, out, x, mask),
        }
    }

    /// The lanes of `x` where a vector of bools is true, and of `y` where it is false, all of a list.
    pub fn select_at(
        vectors: &mut [Self],
        out: usize,
        test: usize,
        x: usize,
        y: usize,
        mask: &LaneMask<N>,
    )
        requires test { test < length vectors.old }
        requires truth { (vector vectors.old test).elem ≡ Truth }
        requires x { AreAlike vectors.old out x }
        requires y { AreAlike vectors.old out y }
        ensures { vectors.new ≡ slice_set vectors.old out (written mask.now (sel_l (map is_on (vector vectors.old test).bits) (vector vectors.old x).bits (vector vectors.old y).bits) (vector vectors.old out)) }
    {
        match vectors[out].row() {
            Row::Bits8(_) => select::<N, Simd<u8, N>>(vectors, out, test, x, y, mask),
            Row::Bits16(_) => select::<N, Simd<u16, N>>(vectors, out, test, x, y, mask),
            Row::Bits32(_) => select::<N, Simd<u32, N>>(vectors, out, test, x, y, mask),
            Row::Bits64(_) => select::<N, Simd<u64, N>>(vectors, out, test, x, y, mask),
        }
    }

    /// The lanes of a vector of a list, in another one.
    pub fn copy_at(vectors: &mut [Self], out: usize, x: usize, mask: &LaneMask<N>)
        requires x { AreAlike vectors.old out x }
        ensures { vectors.new ≡ slice_set vectors.old out (written mask.now (vector vectors.old x).bits (vector vectors.old out)) }
    {
        match vectors[out].row() {
            Row::Bits8(_) => copy::<N, Simd<u8, N>>(vectors, out, x, mask),
            Row::Bits16(_) => copy::<N, Simd<u16, N>>(vectors, out, x, mask),
            Row::Bits32(_) => copy::<N, Simd<u32, N>>(vectors, out, x, mask),
            Row::Bits64(_) => copy::<N, Simd<u64, N>>(vectors, out, x, mask),
        }
    }
}

// One operator on two vectors.
#[inline(never)]
fn zipped<const N: usize, K: Operator<N>>(
    vectors: &mut [Lanes<N>],
    out: usize,
    x: usize,
    y: usize,
    mask: &LaneMask<N>,
)
    requires x { AreAlike vectors.old out x }
    requires y { AreAlike vectors.old out y }
    ensures { vectors.new ≡ slice_set vectors.old out (written mask.now (zip2 (op_bits K.op (vector vectors.old out).elem) (vector vectors.old x).bits (vector vectors.old y).bits) (vector vectors.old out)) }
{
    match vectors[out].elem() {
        Elem::Bool => zip::<N, K, bool, Simd<u8, N>>(vectors, out, x, y, mask),
        Elem::I8 => zip::<N, K, i8, Simd<u8, N>>(vectors, out, x, y, mask),
        Elem::U8 => zip::<N, K, u8, Simd<u8, N>>(vectors, out, x, y, mask),
        Elem::I16 => zip::<N, K, i16, Simd<u16, N>>(vectors, out, x, y, mask),
        Elem::U16 => zip::<N, K, u16, Simd<u16, N>>(vectors, out, x, y, mask),
        Elem::I32 => zip::<N, K, i32, Simd<u32, N>>(vectors, out, x, y, mask),
        Elem::U32 => zip::<N, K, u32, Simd<u32, N>>(vectors, out, x, y, mask),
        Elem::I64 => zip::<N, K, i64, Simd<u64, N>>(vectors, out, x, y, mask),
        Elem::U64 => zip::<N, K, u64, Simd<u64, N>>(vectors, out, x, y, mask),
    }
}

// The same where the width of the words is known.
#[inline(always)]
fn zip<const N: usize, K: Operator<N>, T: LaneElem, V: Words<N>>(
    vectors: &mut [Lanes<N>],
    out: usize,
    x: usize,
    y: usize,
    mask: &LaneMask<N>,
)
    requires is { (vector vectors.old out).elem ≡ T.elem }
    requires wide { V.width ≡ cell_width (vector vectors.old out).elem }
    requires x { AreAlike vectors.old out x }
    requires y { AreAlike vectors.old out y }
    ensures { vectors.new ≡ slice_set vectors.old out (written mask.now (zip2 (op_bits K.op (vector vectors.old out).elem) (vector vectors.old x).bits (vector vectors.old y).bits) (vector vectors.old out)) }
{
    mask.told();
    let x: V = vectors[x].words_as();
    let y: V = vectors[y].words_as();
    let new = K::on::<T, V>(x, y);
    vectors[out].blend(new, mask);
}

// The division.
#[inline(never)]
fn divided<const N: usize>(
    vectors: &mut [Lanes<N>],
    out: usize,
    op: BinOp,
    x: usize,
    y: usize,
    mask: &LaneMask<N>,
) -> Result<(), usize>
    requires division { divides op ≡ true }
    requires x { AreAlike vectors.old out x }
    requires y { AreAlike vectors.old out y }
    ensures divided { IfOk result (λ _. first_zero op mask.now (vector vectors.old y).bits ≡ None) }
    ensures value { IfOk result (λ _. vectors.new ≡ slice_set vectors.old out (written mask.now (zip2 (op_bits op (vector vectors.old out).elem) (vector vectors.old x).bits (vector vectors.old y).bits) (vector vectors.old out))) }
    ensures lowest { IfErr result (λ lane. first_zero op mask.now (vector vectors.old y).bits ≡ Some lane) }
    ensures same { IfErr result (λ _. vectors.new ≡ vectors.old) }
{
    match vectors[out].elem() {
        Elem::Bool => divide::<N, bool, Simd<u8, N>>(vectors, out, op, x, y, mask),
        Elem::I8 => divide::<N, i8, Simd<u8, N>>(vectors, out, op, x, y, mask),
        Elem::U8 => divide::<N, u8, Simd<u8, N>>(vectors, out, op, x, y, mask),
        Elem::I16 => divide::<N, i16, Simd<u16, N>>(vectors, out, op, x, y, mask),
        Elem::U16 => divide::<N, u16, Simd<u16, N>>(vectors, out, op, x, y, mask),
        Elem::I32 => divide::<N, i32, Simd<u32, N>>(vectors, out, op, x, y, mask),
        Elem::U32 => divide::<N, u32, Simd<u32, N>>(vectors, out, op, x, y, mask),
        Elem::I64 => divide::<N, i64, Simd<u64, N>>(vectors, out, op, x, y, mask),
        Elem::U64 => divide::<N, u64, Simd<u64, N>>(vectors, out, op, x, y, mask),
    }
}

// The same where the width of the words is known.
#[inline(always)]
fn divide<const N: usize, T: LaneElem, V: Words<N>>(
    vectors: &mut [Lanes<N>],
    out: usize,
    op: BinOp,
    x: usize,
    y: usize,
    mask: &LaneMask<N>,
) -> Result<(), usize>
    requires division { divides op ≡ true }
    requires is { (vector vectors.old out).elem ≡ T.elem }
    requires wide { V.width ≡ cell_width (vector vectors.old out).elem }
    requires x { AreAlike vectors.old out x }
    requires y { AreAlike vectors.old out y }
    ensures divided { IfOk result (λ _. first_zero op mask.now (vector vectors.old y).bits ≡ None) }
    ensures value { IfOk result (λ _. vectors.new ≡ slice_set vectors.old out (written mask.now (zip2 (op_bits op (vector vectors.old out).elem) (vector vectors.old x).bits (vector vectors.old y).bits) (vector vectors.old out))) }
    ensures lowest { IfErr result (λ lane. first_zero op mask.now (vector vectors.old y).bits ≡ Some lane) }
    ensures same { IfErr result (λ _. vectors.new ≡ vectors.old) }
{
    mask.told();
    let x: V = vectors[x].words_as();
    let y: V = vectors[y].words_as();
    if let Some(lane) = masked::fault(op, y, mask) {
        return Err(lane);
    }
    let old: V = vectors[out].words_as();
    vectors[out].take(masked::divide::<N, T, V>(op, x, y, mask, old));
    Ok(())
}

// One operator on one vector.
#[inline(never)]
fn mapped<const N: usize, K: UnaryOperator<N>>(
    vectors: &mut [Lanes<N>],
    out: usize,
    x: usize,
    mask: &LaneMask<N>,
)
    requires x { AreAlike vectors.old out x }
    ensures { vectors.new ≡ slice_set vectors.old out (written mask.now (map (unary_bits K.op (vector vectors.old out).elem) (vector vectors.old x).bits) (vector vectors.old out)) }
{
    match vectors[out].elem() {
        Elem::Bool => apply::<N, K, bool, Simd<u8, N>>(vectors, out, x, mask),
        Elem::I8 => apply::<N, K, i8, Simd<u8, N>>(vectors, out, x, mask),
        Elem::U8 => apply::<N, K, u8, Simd<u8, N>>(vectors, out, x, mask),
        Elem::I16 => apply::<N, K, i16, Simd<u16, N>>(vectors, out, x, mask),
        Elem::U16 => apply::<N, K, u16, Simd<u16, N>>(vectors, out, x, mask),
        Elem::I32 => apply::<N, K, i32, Simd<u32, N>>(vectors, out, x, mask),
        Elem::U32 => apply::<N, K, u32, Simd<u32, N>>(vectors, out, x, mask),
        Elem::I64 => apply::<N, K, i64, Simd<u64, N>>(vectors, out, x, mask),
        Elem::U64 => apply::<N, K, u64, Simd<u64, N>>(vectors, out, x, mask),
    }
}

// The same where the width of the words is known.
#[inline(always)]
fn apply<const N: usize, K: UnaryOperator<N>, T: LaneElem, V: Words<N>>(
    vectors: &mut [Lanes<N>],
    out: usize,
    x: usize,
    mask: &LaneMask<N>,
)
    requires is { (vector vectors.old out).elem ≡ T.elem }
    requires wide { V.width ≡ cell_width (vector vectors.old out).elem }
    requires x { AreAlike vectors.old out x }
    ensures { vectors.new ≡ slice_set vectors.old out (written mask.now (map (unary_bits K.op (vector vectors.old out).elem) (vector vectors.old x).bits) (vector vectors.old out)) }
{
    mask.told();
    let x: V = vectors[x].words_as();
    let new = K::on::<T, V>(x);
    vectors[out].blend(new, mask);
}

// 1 where the bits of a vector are not 0, else 0, in a vector of bools.
fn truths<const N: usize>(vectors: &mut [Lanes<N>], out: usize, x: usize, mask: &LaneMask<N>)
    requires truth { (vector vectors.old out).elem ≡ Truth }
    requires out { out < length vectors.old }
    requires x { x < length vectors.old }
    ensures { vectors.new ≡ slice_set vectors.old out (written mask.now (map (λ a. cond (is_on a) 1 0) (vector vectors.old x).bits) (vector vectors.old out)) }
{
    mask.told();
    let truths = vectors[x].row().flags();
    vectors[out].blend(Simd::from_array(truths), mask);
}

// The conversion to a type that is not bool, where the width of its words is known.
fn converted<const N: usize, W: Words<N>>(
    vectors: &mut [Lanes<N>],
    out: usize,
    x: usize,
    mask: &LaneMask<N>,
)
    requires wide { W.width ≡ width (vector vectors.old out).elem }
    requires words { W.width ≡ cell_width (vector vectors.old out).elem }
    requires out { out < length vectors.old }
    requires x { x < length vectors.old }
    ensures { vectors.new ≡ slice_set vectors.old out (written mask.now (map (λ b. wrap (vector vectors.old out).elem (number (vector vectors.old x).elem b)) (vector vectors.old x).bits) (vector vectors.old out)) }
{
    match vectors[x].elem() {
        Elem::Bool => convert::<N, bool, Simd<u8, N>, W>(vectors, out, x, mask),
        Elem::I8 => convert::<N, i8, Simd<u8, N>, W>(vectors, out, x, mask),
        Elem::U8 => convert::<N, u8, Simd<u8, N>, W>(vectors, out, x, mask),
        Elem::I16 => convert::<N, i16, Simd<u16, N>, W>(vectors, out, x, mask),
        Elem::U16 => convert::<N, u16, Simd<u16, N>, W>(vectors, out, x, mask),
        Elem::I32 => convert::<N, i32, Simd<u32, N>, W>(vectors, out, x, mask),
        Elem::U32 => convert::<N, u32, Simd<u32, N>, W>(vectors, out, x, mask),
        Elem::I64 => convert::<N, i64, Simd<u64, N>, W>(vectors, out, x, mask),
        Elem::U64 => convert::<N, u64, Simd<u64, N>, W>(vectors, out, x, mask),
    }
}

// The same where the width of what is converted is known too.
#[inline(always)]
fn convert<const N: usize, T: LaneElem, V: Words<N>, W: Words<N>>(
    vectors: &mut [Lanes<N>],
    out: usize,
    x: usize,
    mask: &LaneMask<N>,
)
    requires is { (vector vectors.old x).elem ≡ T.elem }
    requires wide { W.width ≡ width (vector vectors.old out).elem }
    requires words { W.width ≡ cell_width (vector vectors.old out).elem }
    requires from { V.width ≡ cell_width (vector vectors.old x).elem }
    requires out { out < length vectors.old }
    requires x { x < length vectors.old }
    ensures { vectors.new ≡ slice_set vectors.old out (written mask.now (map (λ b. wrap (vector vectors.old out).elem (number (vector vectors.old x).elem b)) (vector vectors.old x).bits) (vector vectors.old out)) }
{
    mask.told();
    let to = vectors[out].elem();
    let x: V = vectors[x].words_as();
    let new: W = masked::convert::<N, T, V, W>(to, x);
    vectors[out].blend(new, mask);
}

// The choice between two vectors where the width of the words is known.
#[inline(always)]
fn select<const N: usize, V: Words<N>>(
    vectors: &mut [Lanes<N>],
    out: usize,
    test: usize,
    x: usize,
    y: usize,
    mask: &LaneMask<N>,
)
    requires wide { V.width ≡ cell_width (vector vectors.old out).elem }
    requires test { test < length vectors.old }
    requires truth { (vector vectors.old test).elem ≡ Truth }
    requires x { AreAlike vectors.old out x }
    requires y { AreAlike vectors.old out y }
    ensures { vectors.new ≡ slice_set vectors.old out (written mask.now (sel_l (map is_on (vector vectors.old test).bits) (vector vectors.old x).bits (vector vectors.old y).bits) (vector vectors.old out)) }
{
    mask.told();
    let test = vectors[test].row().bytes();
    let x: V = vectors[x].words_as();
    let y: V = vectors[y].words_as();
    let new = x.over(&test, y);
    vectors[out].blend(new, mask);
}

// The lanes of another vector where the width of the words is known.
#[inline(always)]
fn copy<const N: usize, V: Words<N>>(
    vectors: &mut [Lanes<N>],
    out: usize,
    x: usize,
    mask: &LaneMask<N>,
)
    requires wide { V.width ≡ cell_width (vector vectors.old out).elem }
    requires x { AreAlike vectors.old out x }
    ensures { vectors.new ≡ slice_set vectors.old out (written mask.now (vector vectors.old x).bits (vector vectors.old out)) }
{
    mask.told();
    let x: V = vectors[x].words_as();
    vectors[out].blend(x, mask);
}
