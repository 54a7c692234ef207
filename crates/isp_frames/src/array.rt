//! The arrays of a call.
ghost use Rattle.std.specs.Prelude.{◌≡◌, ◌<◌, length, slice_set, None, Some, IfOk, IfErr, if◌then◌else◌};
ghost use Rattle.isp_base.specs.Maps.{lane_of, over};
ghost use Rattle.isp_base.specs.Sets.{flag_of};
ghost use Rattle.isp_base.specs.declared.types.Elem.TheVariants.{I64};
ghost use Rattle.isp_lanes.specs.Lanes.{vector};
ghost use Rattle.isp_frames.specs.Arrays.{ArrayThere, Rewritten, Scattered, array_count, array_elem, first_outside, gathered};

use isp_lanes::{LaneMask, Lanes};
use isp_store::{Arrays, IndexTrap, LaneArray};
use std::marker::Model;

/// An array of a call: the store that it is by number; or, of which each lane has its own, those,
/// and then the number is that of the next store.
#[derive(Drop)]
pub struct FrameArray<const N: usize> {
    store: usize,
    own: Option<LaneArray<N>>,
}

impl<const N: usize> Model for FrameArray<N> {
    ghost use Rattle.isp_frames.specs.Rows.{Named};

    ghost Value = { Named };

    ghost view = { λ a. record { store = a.store; own = a.own } };
}

impl<const N: usize> FrameArray<N> {
    /// The array of this kind.
    pub fn new(store: usize, own: Option<LaneArray<N>>) -> Self
        ensures { result ≡ record { store = store; own = own.entry } }
    {
        FrameArray { store, own }
    }

    /// The number of the store.
    pub fn store(&self) -> usize
        ensures { result ≡ self.now.store }
    {
        self.store
    }

    /// How many elements it has, or the lanes' own have each.
    pub fn size(&self, stores: &Arrays) -> usize
        requires { ArrayThere stores.now self.now }
        ensures { result ≡ array_count stores.now self.now }
    {
        match &self.own {
            Some(own) => own.size(),
            None => stores.size(self.store),
        }
    }

    /// In each lane of the mask the element at its index, of the array that all share or of its own.
    /// The vector that is written and that of the indices are of one list, and may be the same.
    ///
    /// Index where one is outside, with the lowest such lane, and then nothing changes.
    #[inline(always)]
    pub fn gather(
        &self,
        stores: &Arrays,
        vectors: &mut [Lanes<N>],
        out: usize,
        index: usize,
        mask: &LaneMask<N>,
    ) -> Result<(), IndexTrap>
        requires there { ArrayThere stores.now self.now }
        requires out { out < length vectors.old }
        requires index { index < length vectors.old }
        requires index_elem { (vector vectors.old index).elem ≡ I64 }
        requires elem { (vector vectors.old out).elem ≡ array_elem stores.now self.now }
        ensures inside { IfOk result (λ _. first_outside N stores.now self.now (flag_of mask.now) (lane_of (vector vectors.old index).bits) ≡ None) }
        ensures lanes { IfOk result (λ _. lane_of (vector vectors.new out).bits ≡ over (gathered stores.now self.now (flag_of mask.now) (lane_of (vector vectors.old index).bits)) (lane_of (vector vectors.old out).bits)) }
        ensures elem { (vector vectors.new out).elem ≡ (vector vectors.old out).elem }
        ensures others { vectors.new ≡ slice_set vectors.old out (vector vectors.new out) }
        ensures lowest { IfErr result (λ t. first_outside N stores.now self.now (flag_of mask.now) (lane_of (vector vectors.old index).bits) ≡ Some t.instance) }
        ensures same { IfErr result (λ t. vectors.new ≡ vectors.old) }
    {
        match &self.own {
            Some(own) => own.gather_at(vectors, out, index, mask),
            None => stores.gather_at(self.store, vectors, out, index, mask),
        }
    }

    /// Each lane of the mask writes its value at its index, into the array that all share or into
    /// its own. Where two write at one element, the higher wins.
    ///
    /// Index where one is outside, with the lowest such lane, and then nothing changes.
    pub fn scatter(
        &mut self,
        stores: &mut Arrays,
        index: &Lanes<N>,
        value: &Lanes<N>,
        mask: &LaneMask<N>,
    ) -> Result<(), IndexTrap>
        requires there { ArrayThere stores.old self.old }
        requires index { index.now.elem ≡ I64 }
        requires elem { value.now.elem ≡ array_elem stores.old self.old }
        ensures inside { IfOk result (λ _. first_outside N stores.old self.old (flag_of mask.now) (lane_of index.now.bits) ≡ None) }
        ensures written { IfOk result (λ _. Scattered N stores.old self.old stores.new self.new (flag_of mask.now) (lane_of index.now.bits) (lane_of value.now.bits)) }
        ensures lowest { IfErr result (λ t. first_outside N stores.old self.old (flag_of mask.now) (lane_of index.now.bits) ≡ Some t.instance) }
        ensures same { IfErr result (λ t. self.new ≡ self.old) }
        ensures same_stores { IfErr result (λ t. stores.new ≡ stores.old) }
    {
        match &mut self.own {
            Some(own) => own.scatter(index, value, mask),
            None => stores.scatter(self.store, index, value, mask),
        }
    }

    /// Zeroes the array that all lanes share, or the lanes' own in a mask.
    pub fn clear(&mut self, stores: &mut Arrays, mask: &LaneMask<N>)
        requires { ArrayThere stores.old self.old }
        ensures { Rewritten stores.old self.old stores.new self.new (λ f e. 0) (λ f e p. if flag_of mask.now p then 0 else f e p) }
    {
        match &mut self.own {
            Some(own) => own.clear(mask),
            None => stores.clear(self.store),
        }
    }
}
