//! The lanes of a vector in words of the width that their type takes.
ghost use Rattle.std.specs.Prelude.{◌≡◌, ℕ, ◌<◌, ◌^◌, length, map, replicate, slice_get, slice_set, Some, None, IfOk, IfErr, cond};
ghost use Rattle.std.specs.List.{range_with_len};
ghost use Rattle.std.specs.Simd.Lanes.{zip2, sel_l};
ghost use Rattle.isp_base.specs.Maps.{lane_of, on, lowest_failing};
ghost use Rattle.isp_base.specs.Sets.{flag_of};
ghost use Rattle.isp_base.specs.Cells.{cell_width};
ghost use Rattle.isp_lanes.specs.Lanes.{is_on};
ghost use Rattle.isp_lanes.specs.Held.{held, held_width};

use crate::gather::gather;
use crate::mask::LaneMask;
use crate::source::Source;
use crate::words::Words;
use isp_base::Elem;
use std::simd::prelude::*;

/// N words of 8, 16, 32 or 64 bits.
#[derive(Clone, Copy)]
pub enum Row<const N: usize> {
    Bits8([u8; N]),
    Bits16([u16; N]),
    Bits32([u32; N]),
    Bits64([u64; N]),
}

impl<const N: usize> Row<N> {
    // Zeros, in words of the width that the type takes.
    pub(crate) fn zero(elem: Elem) -> Self
        ensures zero { held result ≡ replicate N 0 }
        ensures wide { held_width result ≡ cell_width elem }
    {
        match elem {
            Elem::Bool | Elem::I8 | Elem::U8 => Row::Bits8([0; N]),
            Elem::I16 | Elem::U16 => Row::Bits16([0; N]),
            Elem::I32 | Elem::U32 => Row::Bits32([0; N]),
            Elem::I64 | Elem::U64 => Row::Bits64([0; N]),
        }
    }

    // One word.
    pub(crate) fn get(&self, lane: usize) -> u64
        requires there { lane < N }
        requires long { length (held self.now) ≡ N }
        ensures { slice_get (held self.now) lane ≡ Some result }
    {
        match self {
            Row::Bits8(words) => words[lane] as u64,
            Row::Bits16(words) => words[lane] as u64,
            Row::Bits32(words) => words[lane] as u64,
            Row::Bits64(words) => words[lane],
        }
    }

    // Writes one word.
    pub(crate) fn set(&mut self, lane: usize, word: u64)
        requires there { lane < N }
        requires fits { word < 2 ^ held_width self.old }
        ensures words { held self.new ≡ slice_set (held self.old) lane word }
        ensures wide { held_width self.new ≡ held_width self.old }
    {
        match self {
            Row::Bits8(words) => words[lane] = word as u8,
            Row::Bits16(words) => words[lane] = word as u16,
            Row::Bits32(words) => words[lane] = word as u32,
            Row::Bits64(words) => words[lane] = word,
        }
    }
}

// What the kernels ask of a row.
impl<const N: usize> Row<N> {
    // 1 in the lanes whose word is not 0, and 0 in the others.
    pub(crate) fn flags(&self) -> [u8; N]
        requires { length (held self.now) ≡ N }
        ensures { result ≡ map (λ a. cond (is_on a) 1 0) (held self.now) }
    {
        match self {
            Row::Bits8(words) => Simd::from_array(*words).flags(),
            Row::Bits16(words) => Simd::from_array(*words).flags(),
            Row::Bits32(words) => Simd::from_array(*words).flags(),
            Row::Bits64(words) => Simd::from_array(*words).flags(),
        }
    }

    // The words that a source has for the lanes at their places.
    //
    // Where a place is outside it is `Err` with the lowest such lane, and then nothing changes.
    #[inline(always)]
    pub(crate) fn gather<S: Source<N>>(
        &mut self,
        places: &[u64; N],
        source: &S,
        mask: &LaneMask<N>,
    ) -> Result<(), usize>
        requires { (lane place : ℕ) → S.word source.now lane place < 2 ^ held_width self.old }
        ensures inside { IfOk result (λ _. lowest_failing N (S.outside source.now) (on (flag_of mask.now) (lane_of places.now)) ≡ None) }
        ensures words { IfOk result (λ _. held self.new ≡ sel_l mask.now (zip2 (S.word source.now) (range_with_len 0 N) places.now) (held self.old)) }
        ensures wide { held_width self.new ≡ held_width self.old }
        ensures lowest { IfErr result (λ lane. lowest_failing N (S.outside source.now) (on (flag_of mask.now) (lane_of places.now)) ≡ Some lane) }
        ensures same { IfErr result (λ _. self.new ≡ self.old) }
    {
        match self {
            Row::Bits8(words) => gather(words, places, source, mask),
            Row::Bits16(words) => gather(words, places, source, mask),
            Row::Bits32(words) => gather(words, places, source, mask),
            Row::Bits64(words) => gather(words, places, source, mask),
        }
    }

    // The words, of 8 bits.
    pub(crate) fn bytes(&self) -> [u8; N]
        requires { held_width self.now ≡ 8 }
        ensures { result ≡ held self.now }
    {
        match self {
            Row::Bits8(words) => *words,
            _ => unreachable!(),
        }
    }
}
