//! Arrays of which each lane has its own.
ghost use Rattle.std.specs.Prelude.{◌≡◌, ◌<◌, ◌≤◌, length, slice_set, Some, None, IfOk, IfErr, if◌then◌else◌};
ghost use Rattle.isp_base.specs.declared.types.Elem.TheVariants.{I64};
ghost use Rattle.isp_base.specs.Access.{element};
ghost use Rattle.isp_base.specs.Maps.{lane_of, on, map1};
ghost use Rattle.isp_base.specs.Sets.{flag_of};
ghost use Rattle.isp_lanes.specs.Lanes.{vector};
ghost use Rattle.isp_base.specs.Stores.{own_put};
ghost use Rattle.isp_store.specs.Own.{own, size};
ghost use Rattle.isp_cells.specs.Access.{lanes_on, lowest_out, own_gathered};

use crate::lane_rows::LaneRows;
use isp_base::Elem;
use isp_cells::IndexTrap;
use isp_lanes::{LaneMask, Lanes};
use std::alloc::{AllocError, Global};
use std::marker::Model;

/// A local array of which each of N lanes has its own: one row of words for each element.
///
/// Such an array is never passed on, so it has no number among the `Arrays`: the frame of the call
/// that it is local to owns it, and drops it.
#[derive(Drop)]
pub struct LaneArray<const N: usize> {
    elem: Elem,
    rows: LaneRows<N>,
}

impl<const N: usize> Model for LaneArray<N> {
    ghost use Rattle.isp_store.specs.LaneRows.{lists, rows_width, rows_as, AreRows};
    ghost use Rattle.isp_store.specs.Own.{Own};

    ghost Value = { Own };

    ghost view = { λ a. record { elem = a.elem; rows = rows_as a.elem (lists a.rows) } };

    ghost invariant = { λ a. AreRows N (rows_width a.rows) a.elem (lists a.rows) };
}

impl<const N: usize> LaneArray<N> {
    /// An array of `count` elements, zero in each lane. 0 where memory is refused.
    pub fn new(alloc: Global, elem: Elem, count: usize) -> Result<Self, AllocError>
        requires { N ≤ 64 }
        ensures elem { IfOk result (λ a. a.elem ≡ elem) }
        ensures size { IfOk result (λ a. size a ≡ count) }
        ensures zeros { IfOk result (λ a. own a ≡ (λ e p. 0)) }
    {
        let rows = LaneRows::zeros(alloc, elem, count)?;
        Ok(LaneArray { elem, rows })
    }

    /// How many elements each lane has.
    pub fn size(&self) -> usize
        ensures { result ≡ size self.now }
    {
        self.rows.count()
    }

    /// In each lane of the mask the lane's own element at the lane's index.
    ///
    /// Index where one is outside, with the lowest such lane, and then nothing changes.
    pub fn gather(
        &self,
        index: &Lanes<N>,
        mask: &LaneMask<N>,
        into: &mut Lanes<N>,
    ) -> Result<(), IndexTrap>
        requires index { index.now.elem ≡ I64 }
        requires elem { into.old.elem ≡ self.now.elem }
        ensures inside { IfOk result (λ _. lowest_out N (size self.now) mask.now index.now.bits ≡ None) }
        ensures lanes { IfOk result (λ _. lane_of into.new.bits ≡ own_gathered (own self.now) mask.now index.now.bits into.old.bits) }
        ensures elem { into.new.elem ≡ into.old.elem }
        ensures lowest { IfErr result (λ t. lowest_out N (size self.now) mask.now index.now.bits ≡ Some t.instance) }
        ensures same { IfErr result (λ t. into.new ≡ into.old) }
    {
        self.gather_from(index.wide_words(), mask, into)
    }

    /// In each lane of the mask the lane's own element at the lane's index, where the vector that is
    /// written and that of the indices are of one list, and may be the same.
    ///
    /// Index where one is outside, with the lowest such lane, and then nothing changes.
    pub fn gather_at(
        &self,
        vectors: &mut [Lanes<N>],
        out: usize,
        index: usize,
        mask: &LaneMask<N>,
    ) -> Result<(), IndexTrap>
        requires out { out < length vectors.old }
        requires index { index < length vectors.old }
        requires index_elem { (vector vectors.old index).elem ≡ I64 }
        requires elem { (vector vectors.old out).elem ≡ self.now.elem }
        ensures inside { IfOk result (λ _. lowest_out N (size self.now) mask.now (vector vectors.old index).bits ≡ None) }
        ensures lanes { IfOk result (λ _. lane_of (vector vectors.new out).bits ≡ own_gathered (own self.now) mask.now (vector vectors.old index).bits (vector vectors.old out).bits) }
        ensures elem { (vector vectors.new out).elem ≡ (vector vectors.old out).elem }
        ensures others { vectors.new ≡ slice_set vectors.old out (vector vectors.new out) }
        ensures lowest { IfErr result (λ t. lowest_out N (size self.now) mask.now (vector vectors.old index).bits ≡ Some t.instance) }
        ensures same { IfErr result (λ t. vectors.new ≡ vectors.old) }
    {
        // The indices are read where they stand, unless it is their vector that is written.
        if out < index {
            let (front, back) = vectors.split_at_mut(index);
            self.gather_from(back[0].wide_words(), mask, &mut front[out])
        } else if index < out {
            let (front, back) = vectors.split_at_mut(out);
            self.gather_from(front[index].wide_words(), mask, &mut back[0])
        } else {
            let places = *vectors[index].wide_words();
            self.gather_from(&places, mask, &mut vectors[out])
        }
    }

    /// Each lane of the mask writes its value into its own array, at its index.
    ///
    /// Index where one is outside, with the lowest such lane, and then nothing changes.
    pub fn scatter(
        &mut self,
        index: &Lanes<N>,
        value: &Lanes<N>,
        mask: &LaneMask<N>,
    ) -> Result<(), IndexTrap>
        requires index { index.now.elem ≡ I64 }
        requires elem { value.now.elem ≡ self.old.elem }
        ensures inside { IfOk result (λ _. lowest_out N (size self.old) mask.now index.now.bits ≡ None) }
        ensures elements { IfOk result (λ _. own self.new ≡ own_put (map1 (element I64) (lanes_on mask.now index.now.bits)) (lane_of value.now.bits) (own self.old)) }
        ensures elem { self.new.elem ≡ self.old.elem }
        ensures size { size self.new ≡ size self.old }
        ensures lowest { IfErr result (λ t. lowest_out N (size self.old) mask.now index.now.bits ≡ Some t.instance) }
        ensures same { IfErr result (λ t. self.new ≡ self.old) }
    {
        index.told();
        mask.told();
        value.told();
        self.rows.store(index, mask, value)
    }

    /// Zero in the lanes of the mask, in each element.
    pub fn clear(&mut self, mask: &LaneMask<N>)
        ensures elements { own self.new ≡ (λ e p. if flag_of mask.now p then 0 else own self.old e p) }
        ensures elem { self.new.elem ≡ self.old.elem }
        ensures size { size self.new ≡ size self.old }
    {
        mask.told();
        self.rows.clear(mask);
    }
}

impl<const N: usize> LaneArray<N> {
    // In each lane of the mask the lane's own element at the lane's place.
    //
    // Index where one is outside, with the lowest such lane, and then nothing changes.
    #[inline(always)]
    fn gather_from(
        &self,
        places: &[u64; N],
        mask: &LaneMask<N>,
        into: &mut Lanes<N>,
    ) -> Result<(), IndexTrap>
        requires { into.old.elem ≡ self.now.elem }
        ensures inside { IfOk result (λ _. lowest_out N (size self.now) mask.now places.now ≡ None) }
        ensures lanes { IfOk result (λ _. lane_of into.new.bits ≡ own_gathered (own self.now) mask.now places.now into.old.bits) }
        ensures elem { into.new.elem ≡ into.old.elem }
        ensures lowest { IfErr result (λ t. lowest_out N (size self.now) mask.now places.now ≡ Some t.instance) }
        ensures same { IfErr result (λ t. into.new ≡ into.old) }
    {
        self.rows.gather(places, mask, into)
    }
}
