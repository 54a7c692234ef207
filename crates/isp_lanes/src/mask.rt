//! Which of N lanes are on.
ghost use Rattle.std.proofs.Common.{ap};
ghost use Rattle.std.specs.Prelude.{◌≡◌, ℕ, ◌<◌, ◌≤◌, List, Bool, true, false, length, map, replicate, slice_index, slice_get, Some, IfSome, ◌&&◌, ◌||◌, not, slice_set, position, unwrap_or, ◌^◌, ◌==◌, ◌/◌, ◌%◌};
ghost use Rattle.std.specs.List.{list_any, list_all};
ghost use Rattle.std.specs.Simd.Lanes.{zip2, sel_l, mask_l};
ghost use Rattle.isp_base.specs.declared.types.Elem.TheVariants.{Bool as Truth};
ghost use Rattle.isp_lanes.specs.Lanes.{is_on, lowest, range};
ghost use Rattle.isp_lanes.specs.Bytes.{byte_of, bytes_back};

use crate::kernels;
use crate::lanes::Lanes;
use crate::words::Words;
use std::marker::Model;
use std::simd::prelude::*;

/// The lanes of a vector that an operator works on: each of the N lanes, 64 at most, is on or off.
/// Contracts see the list of the lanes.
#[derive(Clone, Copy)]
pub struct LaneMask<const N: usize> {
    lanes: [u8; N],
}

impl<const N: usize> Model for LaneMask<N> {
    ghost Value = { List Bool };

    ghost view = { λ m. map is_on m.lanes };

    ghost inverse = { λ bs. record { lanes = map byte_of bs } };

    ghost inverse_ok = { λ a h. ap (λ xs. record { lanes = xs }) (bytes_back a.lanes h.1) };

    ghost invariant = { λ m. (length m.lanes ≡ N) × ((k : ℕ) → slice_index m.lanes k < 2) × (N ≤ 64) };
}

impl<const N: usize> LaneMask<N> {
    /// All lanes on.
    pub fn full() -> Self
        requires { N ≤ 64 }
        ensures { result ≡ replicate N true }
    {
        LaneMask { lanes: [1; N] }
    }

    /// All lanes off.
    pub fn none() -> Self
        requires { N ≤ 64 }
        ensures { result ≡ replicate N false }
    {
        LaneMask { lanes: [0; N] }
    }

    /// What holds of every mask: it has N lanes, and N is 64 at most. Changes nothing.
    pub fn told(&self)
        ensures long { length self.now ≡ N }
        ensures wide { N ≤ 64 }
    {
        let _ = &self.lanes;
    }

    /// Whether the lane is on.
    pub fn get(&self, lane: usize) -> bool
        requires { lane < N }
        ensures { slice_get self.now lane ≡ Some result }
    {
        self.lanes[lane] != 0
    }

    /// Turns the lane on or off.
    pub fn set(&mut self, lane: usize, on: bool)
        requires { lane < N }
        ensures { self.new ≡ slice_set self.old lane on }
    {
        self.lanes[lane] = on as u8;
    }

    /// The lanes that are on in both masks.
    pub fn and(&self, other: &Self) -> Self
        ensures { result ≡ zip2 (λ a b. a && b) self.now other.now }
    {
        LaneMask {
            lanes: (Simd::from_array(self.lanes) & Simd::from_array(other.lanes)).to_array(),
        }
    }

    /// The lanes that are on in one of the masks, or in both.
    pub fn or(&self, other: &Self) -> Self
        ensures { result ≡ zip2 (λ a b. a || b) self.now other.now }
    {
        LaneMask {
            lanes: (Simd::from_array(self.lanes) | Simd::from_array(other.lanes)).to_array(),
        }
    }

    /// The lanes of this mask that are off in the other.
    pub fn and_not(&self, other: &Self) -> Self
        ensures { result ≡ zip2 (λ a b. a && not b) self.now other.now }
    {
        let off = Simd::from_array(other.lanes) ^ Simd::splat(1);
        LaneMask {
            lanes: (Simd::from_array(self.lanes) & off).to_array(),
        }
    }

    /// The lanes of this mask in which a vector of bools is true.
    pub fn test(&self, x: &Lanes<N>) -> Self
        requires { x.now.elem ≡ Truth }
        ensures { result ≡ zip2 (λ m b. m && is_on b) self.now x.now.bits }
    {
        x.truths(self)
    }

    /// The lowest lane that is on, alone.
    pub fn lowest(&self) -> Self
        ensures { result ≡ lowest self.now }
    {
        self.told();
        let mut lone = LaneMask::none();
        if let Some(lane) = self.position() {
            lone.set(lane, true);
        }
        lone
    }

    /// The number of the lowest lane that is on, 0 where none is.
    pub fn first(&self) -> usize
        ensures { result ≡ unwrap_or (position (λ b. b) self.now) 0 }
    {
        self.position().unwrap_or(0)
    }

    /// The lanes whose number, added to `start`, is below `end`. Both are the bits of an int64, and
    /// the sum is that of whole numbers.
    pub fn range(start: u64, end: u64) -> Self
        requires { N ≤ 64 }
        ensures { result ≡ range N start end }
    {
        let count = kernels::numbers_between(start, end);
        LaneMask::full().nonzero(kernels::below(count))
    }

    /// The same lanes, a bit for each: who asks for many lanes one after the other asks these.
    #[inline(always)]
    pub fn bits(&self) -> LaneBits
        ensures { result.bits ≡ mask_l self.now }
    {
        let lanes = Simd::from_array(self.lanes);
        LaneBits {
            bits: lanes.simd_ne(Simd::splat(0)).to_bitmask(),
        }
    }

    /// Whether a lane is on.
    pub fn any(&self) -> bool
        ensures { result ≡ list_any (λ b. b) self.now }
    {
        self.bits().bits != 0
    }

    /// Whether all lanes are on.
    pub fn all(&self) -> bool
        ensures { result ≡ list_all (λ b. b) self.now }
    {
        self.told();
        !LaneMask::full().and_not(self).any()
    }
}

/// Which lanes are on, up to 64 of them: the bit of lane 0 is the lowest.
#[derive(Clone, Copy)]
pub struct LaneBits {
    bits: u64,
}

impl LaneBits {
    /// Whether the lane is on.
    #[inline(always)]
    pub fn get(self, lane: usize) -> bool
        requires { lane < 64 }
        ensures { result ≡ (self.bits / 2 ^ lane % 2 == 1) }
    {
        (self.bits >> lane) % 2 == 1
    }
}

// What the kernels ask of a mask.
impl<const N: usize> LaneMask<N> {
    // The number of the lowest lane that is on, where one is.
    pub(crate) fn position(&self) -> Option<usize>
        ensures value { result ≡ position (λ b. b) self.now }
        ensures there { IfSome result (λ lane. lane < N) }
    {
        self.told();
        let bits = self.bits().bits;
        if bits == 0 {
            None
        } else {
            Some(bits.trailing_zeros() as usize)
        }
    }

    // The lanes that are on and have a word other than 0.
    pub(crate) fn nonzero<V: Words<N>>(&self, words: V) -> Self
        requires { length (V.words words) ≡ N }
        ensures { result ≡ zip2 (λ m b. m && is_on b) self.now (V.words words) }
    {
        let flags = words.flags();
        LaneMask {
            lanes: (Simd::from_array(self.lanes) & Simd::from_array(flags)).to_array(),
        }
    }

    // The lanes that are on and have the word 0.
    pub(crate) fn zeros<V: Words<N>>(&self, words: V) -> Self
        requires { length (V.words words) ≡ N }
        ensures { result ≡ zip2 (λ m b. m && b == 0) self.now (V.words words) }
    {
        self.and_not(&self.nonzero(words))
    }

    // The new words in the lanes that are on, the old ones in the others.
    pub(crate) fn merge<V: Words<N>>(&self, new: V, old: V) -> V
        ensures { V.words result ≡ sel_l self.now (V.words new) (V.words old) }
    {
        new.under(&self.lanes, old)
    }
}
