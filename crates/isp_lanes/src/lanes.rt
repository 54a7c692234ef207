//! Vectors of N values of one element type.
ghost use Rattle.std.specs.Prelude.{◌≡◌, ℕ, ◌^◌, ◌<◌, length, map, replicate, slice_get, slice_set, Some, None, IfOk, IfErr, ◌&&◌};
ghost use Rattle.std.specs.List.{range_with_len};
ghost use Rattle.std.specs.Simd.Lanes.{zip2, sel_l};
ghost use Rattle.isp_base.specs.declared.types.Elem.TheVariants.{Bool as Truth, I32, I64};
ghost use Rattle.isp_base.specs.Maps.{lane_of, on, lowest_failing};
ghost use Rattle.isp_base.specs.Sets.{flag_of};
ghost use Rattle.isp_base.specs.Values.{width, op_bits, compare_bits, convert_bits, number};
ghost use Rattle.isp_base.specs.Unary.{unary_bits};
ghost use Rattle.isp_base.specs.Rows.{Row, Fit};
ghost use Rattle.isp_lanes.specs.Lanes.{is_on, first_zero, written};
ghost use Rattle.isp_lanes.specs.Held.{held, held_width, IsRow};
ghost use Rattle.isp_base.specs.Cells.{cell_width};

use crate::kernels;
use crate::lane_elem::LaneElem;
use crate::mask::LaneMask;
use crate::row::Row;
use crate::source::Source;
use crate::words::Words;
use isp_base::{BinOp, Compare, Elem, UnaryOp};
use std::marker::Model;
use std::simd::prelude::*;

/// A value of one element type in each of N lanes. Contracts see a `Row` of N values' bits.
///
/// The calls with a mask write the lanes that are on. The others keep their old value.
#[derive(Clone, Copy)]
pub struct Lanes<const N: usize> {
    elem: Elem,
    row: Row<N>,
}

impl<const N: usize> Model for Lanes<N> {
    ghost use Rattle.std.proofs.Common.{ap};
    ghost use Rattle.std.specs.Prelude.{◌≡◌, length};
    ghost use Rattle.isp_base.specs.Rows.{Row, Fit};
    ghost use Rattle.isp_base.specs.Cells.{cell_width};
    ghost use Rattle.isp_lanes.specs.Held.{held, held_width, row_of};
    ghost use Rattle.isp_lanes.specs.RowsBack.{row_back};

    ghost Value = { Row };

    ghost view = { λ v. record { elem = v.elem; bits = held v.row } };

    ghost inverse = { λ r. record { elem = r.elem; row = row_of r.elem r.bits } };

    ghost inverse_ok = { λ a h. ap (λ r. record { elem = a.elem; row = r }) (row_back a.elem a.row h.1) };

    ghost invariant = { λ v. (length (held v.row) ≡ N) × (held_width v.row ≡ cell_width v.elem) × Fit v.elem (held v.row) };
}

impl<const N: usize> Lanes<N> {
    /// Zero in each lane.
    pub fn zero(elem: Elem) -> Self
        ensures { result ≡ record { elem = elem; bits = replicate N 0 } }
    {
        Lanes {
            elem,
            row: Row::zero(elem),
        }
    }

    /// What holds of every vector: it has N lanes, and each fits the element type. Changes nothing.
    pub fn told(&self)
        ensures long { length self.now.bits ≡ N }
        ensures fits { Fit self.now.elem self.now.bits }
    {
        let _ = &self.row;
    }

    /// The element type.
    pub fn elem(&self) -> Elem
        ensures { result ≡ self.now.elem }
    {
        self.elem
    }

    /// The bits of one lane.
    pub fn get(&self, lane: usize) -> u64
        requires { lane < N }
        ensures value { slice_get self.now.bits lane ≡ Some result }
        ensures fits { result < 2 ^ width self.now.elem }
    {
        self.row.get(lane)
    }

    /// Writes one lane.
    pub fn set(&mut self, lane: usize, bits: u64)
        requires there { lane < N }
        requires fits { bits < 2 ^ width self.old.elem }
        ensures { self.new ≡ record { elem = self.old.elem; bits = slice_set self.old.bits lane bits } }
    {
        self.row.set(lane, bits);
    }

    /// The operator on one vector.
    pub fn unary(&mut self, op: UnaryOp, x: &Self, mask: &LaneMask<N>)
        requires { x.now.elem ≡ self.old.elem }
        ensures { self.new ≡ written mask.now (map (unary_bits op self.old.elem) x.now.bits) self.old }
    {
        mask.told();
        let mut vectors = [*self, *x];
        Self::unary_at(&mut vectors, 0, op, 1, mask);
        *self = vectors[0];
    }

    /// The operator on two vectors.
    ///
    /// A division by zero in a lane of the mask is `Err` with the lowest such lane, and then nothing
    /// changes.
    pub fn binary(&mut self, op: BinOp, x: &Self, y: &Self, mask: &LaneMask<N>) -> Result<(), usize>
        requires x_elem { x.now.elem ≡ self.old.elem }
        requires y_elem { y.now.elem ≡ self.old.elem }
        ensures divided { IfOk result (λ _. first_zero op mask.now y.now.bits ≡ None) }
        ensures value { IfOk result (λ _. self.new ≡ written mask.now (zip2 (op_bits op self.old.elem) x.now.bits y.now.bits) self.old) }
        ensures lowest { IfErr result (λ lane. first_zero op mask.now y.now.bits ≡ Some lane) }
        ensures same { IfErr result (λ _. self.new ≡ self.old) }
    {
        mask.told();
        let mut vectors = [*self, *x, *y];
        Self::binary_at(&mut vectors, 0, op, 1, 2, mask)?;
        *self = vectors[0];
        Ok(())
    }

    /// The comparison of two vectors of one element type, in a vector of bools.
    pub fn compare(&mut self, compare: Compare, x: &Self, y: &Self, mask: &LaneMask<N>)
        requires elem { self.old.elem ≡ Truth }
        requires y_elem { y.now.elem ≡ x.now.elem }
        ensures { self.new ≡ written mask.now (zip2 (compare_bits compare x.now.elem) x.now.bits y.now.bits) self.old }
    {
        mask.told();
        x.told();
        y.told();
        let holds = x.compared(compare, y);
        self.blend(Simd::from_array(holds), mask);
    }

    /// The values of a vector of any element type, converted to this one's.
    pub fn convert(&mut self, x: &Self, mask: &LaneMask<N>)
        ensures { self.new ≡ written mask.now (map (λ b. convert_bits self.old.elem (number x.now.elem b)) x.now.bits) self.old }
    {
        mask.told();
        let mut vectors = [*self, *x];
        Self::convert_at(&mut vectors, 0, 1, mask);
        *self = vectors[0];
    }

    /// The lanes of `x` where a vector of bools is true, and of `y` where it is false.
    pub fn select(&mut self, test: &Self, x: &Self, y: &Self, mask: &LaneMask<N>)
        requires test { test.now.elem ≡ Truth }
        requires x_elem { x.now.elem ≡ self.old.elem }
        requires y_elem { y.now.elem ≡ self.old.elem }
        ensures { self.new ≡ written mask.now (sel_l (map is_on test.now.bits) x.now.bits y.now.bits) self.old }
    {
        mask.told();
        let mut vectors = [*self, *test, *x, *y];
        Self::select_at(&mut vectors, 0, 1, 2, 3, mask);
        *self = vectors[0];
    }

    /// The lanes of another vector.
    pub fn copy(&mut self, x: &Self, mask: &LaneMask<N>)
        requires { x.now.elem ≡ self.old.elem }
        ensures { self.new ≡ written mask.now x.now.bits self.old }
    {
        match self.row() {
            Row::Bits8(_) => self.copied::<Simd<u8, N>>(x, mask),
            Row::Bits16(_) => self.copied::<Simd<u16, N>>(x, mask),
            Row::Bits32(_) => self.copied::<Simd<u32, N>>(x, mask),
            Row::Bits64(_) => self.copied::<Simd<u64, N>>(x, mask),
        }
    }

    /// One value.
    pub fn splat(&mut self, bits: u64, mask: &LaneMask<N>)
        requires { bits < 2 ^ width self.old.elem }
        ensures { self.new ≡ written mask.now (replicate N bits) self.old }
    {
        match self.row() {
            Row::Bits8(_) => self.filled::<Simd<u8, N>>(bits, mask),
            Row::Bits16(_) => self.filled::<Simd<u16, N>>(bits, mask),
            Row::Bits32(_) => self.filled::<Simd<u32, N>>(bits, mask),
            Row::Bits64(_) => self.filled::<Simd<u64, N>>(bits, mask),
        }
    }

    /// The words of all lanes, of the width that the element type takes, where they stand.
    #[inline(always)]
    pub fn row(&self) -> &Row<N>
        ensures bits { held result.now ≡ self.now.bits }
        ensures wide { held_width result.now ≡ cell_width self.now.elem }
        ensures row { IsRow N (held_width result.now) self.now.elem (held result.now) }
    {
        &self.row
    }

    /// A row of words of the width that the element type takes, in the place of all lanes.
    #[inline(always)]
    pub fn set_row(&mut self, row: Row<N>)
        requires { IsRow N (held_width row) self.old.elem (held row) }
        ensures { self.new ≡ record { elem = self.old.elem; bits = held row.entry } }
    {
        self.row = row;
    }

    /// The bits of all lanes of a vector of int64, which are read where they stand.
    pub fn wide_words(&self) -> &[u64; N]
        requires { self.now.elem ≡ I64 }
        ensures { result.now ≡ self.now.bits }
    {
        match &self.row {
            Row::Bits64(words) => words,
            _ => unreachable!(),
        }
    }

    /// The bits of all lanes.
    pub fn bits(&self) -> [u64; N]
        ensures value { result ≡ self.now.bits }
        ensures fits { Fit self.now.elem result }
    {
        match &self.row {
            Row::Bits8(words) => Simd::from_array(*words).wide(),
            Row::Bits16(words) => Simd::from_array(*words).wide(),
            Row::Bits32(words) => Simd::from_array(*words).wide(),
            Row::Bits64(words) => *words,
        }
    }

    /// The bits of all lanes, one of a list in each lane.
    pub fn put(&mut self, bits: &[u64; N], mask: &LaneMask<N>)
        requires { Fit self.old.elem bits.now }
        ensures { self.new ≡ written mask.now bits.now self.old }
    {
        match self.row() {
            Row::Bits8(_) => self.cut::<Simd<u8, N>>(bits, mask),
            Row::Bits16(_) => self.cut::<Simd<u16, N>>(bits, mask),
            Row::Bits32(_) => self.cut::<Simd<u32, N>>(bits, mask),
            Row::Bits64(_) => self.cut::<Simd<u64, N>>(bits, mask),
        }
    }

    /// The word that a source has for the lane at its place, in each lane of the mask. A list gives the places.
    ///
    /// A place in a lane of the mask that is outside is `Err` with the lowest such lane, and then nothing
    /// changes.
    #[inline(always)]
    pub fn gather<S: Source<N>>(
        &mut self,
        places: &[u64; N],
        source: &S,
        mask: &LaneMask<N>,
    ) -> Result<(), usize>
        requires { (lane place : ℕ) → S.word source.now lane place < 2 ^ width self.old.elem }
        ensures inside { IfOk result (λ _. lowest_failing N (S.outside source.now) (on (flag_of mask.now) (lane_of places.now)) ≡ None) }
        ensures value { IfOk result (λ _. self.new ≡ written mask.now (zip2 (S.word source.now) (range_with_len 0 N) places.now) self.old) }
        ensures lowest { IfErr result (λ lane. lowest_failing N (S.outside source.now) (on (flag_of mask.now) (lane_of places.now)) ≡ Some lane) }
        ensures same { IfErr result (λ _. self.new ≡ self.old) }
    {
        mask.told();
        self.row.gather(places, source, mask)
    }

    /// The lanes' numbers, from 0, as int32.
    pub fn index(&mut self, mask: &LaneMask<N>)
        requires { self.old.elem ≡ I32 }
        ensures { self.new ≡ written mask.now (range_with_len 0 N) self.old }
    {
        mask.told();
        let numbers = kernels::numbers().to_array();
        let zeros: Simd<u32, N> = Simd::splat(0);
        self.blend(zeros.cut(&numbers), mask);
    }
}

impl<const N: usize> Lanes<N> {
    // The words, of a width that is known.
    #[inline(always)]
    pub(crate) fn words_as<V: Words<N>>(&self) -> V
        requires { V.width ≡ cell_width self.now.elem }
        ensures words { V.words result ≡ self.now.bits }
        ensures row { IsRow N V.width self.now.elem (V.words result) }
    {
        V::all(0).read(&self.row)
    }

    // These words in the place of the old ones.
    #[inline(always)]
    pub(crate) fn take<V: Words<N>>(&mut self, new: V)
        requires { IsRow N V.width self.old.elem (V.words new) }
        ensures { self.new ≡ record { elem = self.old.elem; bits = V.words new } }
    {
        new.put(&mut self.row);
    }

    // New words in the lanes of a mask. The old ones are read last: read before the operator they would wait on the
    // stack for its end.
    #[inline(always)]
    pub(crate) fn blend<V: Words<N>>(&mut self, new: V, mask: &LaneMask<N>)
        requires { IsRow N V.width self.old.elem (V.words new) }
        ensures { self.new ≡ written mask.now (V.words new) self.old }
    {
        mask.told();
        let old: V = self.words_as();
        self.take(mask.merge(new, old));
    }

    // The lanes of another vector, where the width of the words is known.
    #[inline(always)]
    fn copied<V: Words<N>>(&mut self, x: &Self, mask: &LaneMask<N>)
        requires wide { V.width ≡ cell_width self.old.elem }
        requires elem { x.now.elem ≡ self.old.elem }
        ensures { self.new ≡ written mask.now x.now.bits self.old }
    {
        let new: V = x.words_as();
        self.blend(new, mask);
    }

    // One value, where the width of the words is known.
    #[inline(always)]
    fn filled<V: Words<N>>(&mut self, bits: u64, mask: &LaneMask<N>)
        requires wide { V.width ≡ cell_width self.old.elem }
        requires fits { bits < 2 ^ width self.old.elem }
        ensures { self.new ≡ written mask.now (replicate N bits) self.old }
    {
        let new: V = V::all(bits);
        self.blend(new, mask);
    }

    // One of a list in each lane, where the width of the words is known.
    #[inline(always)]
    fn cut<V: Words<N>>(&mut self, bits: &[u64; N], mask: &LaneMask<N>)
        requires wide { V.width ≡ cell_width self.old.elem }
        requires fits { Fit self.old.elem bits.now }
        ensures { self.new ≡ written mask.now bits.now self.old }
    {
        mask.told();
        let new: V = V::all(0).cut(bits);
        self.blend(new, mask);
    }

    // 1 in the lanes where the comparison holds, and 0 in the others.
    pub(crate) fn compared(&self, compare: Compare, y: &Self) -> [u8; N]
        requires { y.now.elem ≡ self.now.elem }
        ensures { result ≡ zip2 (compare_bits compare self.now.elem) self.now.bits y.now.bits }
    {
        match self.elem {
            Elem::Bool => self.compared_as::<bool, Simd<u8, N>>(compare, y),
            Elem::I8 => self.compared_as::<i8, Simd<u8, N>>(compare, y),
            Elem::U8 => self.compared_as::<u8, Simd<u8, N>>(compare, y),
            Elem::I16 => self.compared_as::<i16, Simd<u16, N>>(compare, y),
            Elem::U16 => self.compared_as::<u16, Simd<u16, N>>(compare, y),
            Elem::I32 => self.compared_as::<i32, Simd<u32, N>>(compare, y),
            Elem::U32 => self.compared_as::<u32, Simd<u32, N>>(compare, y),
            Elem::I64 => self.compared_as::<i64, Simd<u64, N>>(compare, y),
            Elem::U64 => self.compared_as::<u64, Simd<u64, N>>(compare, y),
        }
    }

    // The same where the width of the words is known.
    #[inline(always)]
    fn compared_as<T: LaneElem, V: Words<N>>(&self, compare: Compare, y: &Self) -> [u8; N]
        requires is { self.now.elem ≡ T.elem }
        requires wide { V.width ≡ cell_width self.now.elem }
        requires elem { y.now.elem ≡ self.now.elem }
        ensures { result ≡ zip2 (compare_bits compare self.now.elem) self.now.bits y.now.bits }
    {
        let x: V = self.words_as();
        let y: V = y.words_as();
        kernels::compare::<N, T, V>(compare, x, y)
    }

    // The lanes of the mask in which a vector of bools is true.
    pub(crate) fn truths(&self, mask: &LaneMask<N>) -> LaneMask<N>
        requires { self.now.elem ≡ Truth }
        ensures { result ≡ zip2 (λ m b. m && is_on b) mask.now self.now.bits }
    {
        let truths = self.row.bytes();
        mask.nonzero(Simd::from_array(truths))
    }
}
