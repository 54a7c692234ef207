//! The arrays that all lanes share.
ghost use Rattle.std.specs.Prelude.{◌≡◌, ◌+◌, ◌<◌, ◌≤◌, ◌^◌, length, take, slice_set, true, false, Some, None, IfOk, IfErr, OnOk, OnErr};
ghost use Rattle.isp_base.specs.declared.types.Elem.TheVariants.{I64};
ghost use Rattle.isp_base.specs.Access.{is_outside, element, scatter};
ghost use Rattle.isp_base.specs.Maps.{lane_of, on, put};
ghost use Rattle.isp_base.specs.Cross.{rank, run_places, packed_places};
ghost use Rattle.isp_base.specs.Sets.{flag_of, lowest};
ghost use Rattle.isp_base.specs.Values.{number, width};
ghost use Rattle.isp_lanes.specs.Lanes.{vector};
ghost use Rattle.isp_store.specs.Held.{changed, elements, size, elem, shapes, named, with_array};
ghost use Rattle.isp_cells.specs.Access.{lowest_out};
ghost use Rattle.isp_store.specs.Access.{gathered, packed_loaded, packed_out, packed_stored, run_loaded, run_out, run_stored, scattered};

use crate::consecutive::{is_whole, packed_places, run_places};
use crate::index::trap_under;
use crate::rows;
use isp_base::{Array, Elem};
use isp_cells::{IndexTrap, limit};
use isp_lanes::{LaneMask, Lanes};
use std::alloc::{AllocError, Global};
use std::marker::Model;

/// The arrays of a run that all lanes share, by number: first the parameters, then the local arrays
/// in the order in which they were opened.
///
/// Indices are int64, in elements from 0. An array and its number are there, and types agree: that
/// the caller knows. Indices it does not know, so they are looked at here, and only here.
#[derive(Drop)]
pub struct Arrays {
    items: Vec<Array>,
    params: usize,
    alloc: Global,
}

impl Model for Arrays {
    ghost use Rattle.std.specs.Prelude.{◌≤◌, length};
    ghost use Rattle.isp_store.specs.Held.{Held};

    ghost Value = { Held };

    ghost view = { λ a. record { params = a.params; rows = a.items.items } };

    ghost invariant = { λ a. a.params ≤ length a.items.items };
}

impl Arrays {
    /// The parameters of a run, and no local array.
    pub fn new(alloc: Global, params: Vec<Array>) -> Arrays
        ensures { result ≡ record { params = length params.items; rows = params.items } }
    {
        Arrays {
            params: params.len(),
            items: params,
            alloc,
        }
    }

    /// The parameters as they are now.
    pub fn params(&self) -> &[Array]
        ensures { result.now ≡ take self.now.params self.now.rows }
    {
        &self.items[..self.params]
    }

    /// Gives up the parameters as they are now. The local arrays are dropped.
    pub fn into_params(self) -> Vec<Array>
        ensures { result.items ≡ take self.params self.rows }
    {
        let mut params = self.items;
        params.truncate(self.params);
        params
    }

    /// Another array in the place of a parameter.
    pub fn set_param(&mut self, number: usize, array: Array)
        requires { number < self.old.params }
        ensures { self.new ≡ record self.old { rows = slice_set self.old.rows number array } }
    {
        self.items[number] = array;
    }

    /// The number of arrays. The next one to be opened has this number.
    pub fn count(&self) -> usize
        ensures { result ≡ length self.now.rows }
    {
        self.items.len()
    }

    /// How many elements an array has.
    pub fn size(&self, array: usize) -> usize
        requires { array < length self.now.rows }
        ensures { result ≡ size self.now array }
    {
        rows::count(&self.items, array)
    }

    /// The number of local arrays.
    pub fn locals(&self) -> usize
        ensures { self.now.params + result ≡ length self.now.rows }
    {
        self.items.len() - self.params
    }

    /// One more local array, of `count` elements, all zero. 0 where memory is refused, and then
    /// nothing changes.
    pub fn open_local(&mut self, elem: Elem, count: usize) -> Result<(), AllocError>
        ensures ok { OnOk result (self.new ≡ with_array self.old elem count) }
        ensures err { OnErr result (self.new ≡ self.old) }
    {
        let array = rows::zeros(self.alloc, elem, count)?;
        self.items.push(array)?;
        Ok(())
    }

    /// Drops the local arrays after the first `count`, those that were opened last.
    pub fn close_locals(&mut self, count: usize)
        ensures { self.new ≡ record self.old { rows = take (self.old.params + count) self.old.rows } }
    {
        if count < self.items.len() - self.params {
            self.items.truncate(self.params + count);
        }
    }

    /// An array all zero.
    pub fn clear(&mut self, array: usize)
        requires { array < length self.old.rows }
        ensures elements { elements self.new ≡ put (elements self.old) array (λ e. 0) }
        ensures shapes { shapes self.new ≡ shapes self.old }
    {
        rows::clear(&mut self.items, self.alloc, array);
    }

    /// The element at an index that all lanes share.
    ///
    /// Index where it is outside, with the lowest lane of the mask, or 0 under no lane.
    pub fn load<const N: usize>(
        &self,
        array: usize,
        index: u64,
        mask: &LaneMask<N>,
    ) -> Result<u64, IndexTrap>
        requires { array < length self.now.rows }
        ensures inside { IfOk result (λ bits. is_outside I64 (size self.now array) index ≡ false) }
        ensures value { IfOk result (λ bits. bits ≡ elements self.now array (element I64 index)) }
        ensures fits { IfOk result (λ bits. bits < 2 ^ width (elem self.now array)) }
        ensures outside { IfErr result (λ t. is_outside I64 (size self.now array) index ≡ true) }
        ensures lane { IfErr result (λ t. t.instance ≡ named N (flag_of mask.now)) }
    {
        if index >= limit(rows::count(&self.items, array)) {
            return Err(trap_under(mask));
        }
        Ok(rows::load(&self.items, array, index as usize))
    }

    /// Writes the element at an index that all lanes share.
    ///
    /// Index where it is outside, with the lowest lane of the mask, or 0 under no lane, and then
    /// nothing changes.
    pub fn store<const N: usize>(
        &mut self,
        array: usize,
        index: u64,
        bits: u64,
        mask: &LaneMask<N>,
    ) -> Result<(), IndexTrap>
        requires there { array < length self.old.rows }
        requires fits { bits < 2 ^ width (elem self.old array) }
        ensures inside { IfOk result (λ _. is_outside I64 (size self.old array) index ≡ false) }
        ensures elements { IfOk result (λ _. elements self.new ≡ changed self.old array (λ f. put f (element I64 index) bits)) }
        ensures shapes { shapes self.new ≡ shapes self.old }
        ensures outside { IfErr result (λ t. is_outside I64 (size self.old array) index ≡ true) }
        ensures lane { IfErr result (λ t. t.instance ≡ named N (flag_of mask.now)) }
        ensures same { IfErr result (λ t. self.new ≡ self.old) }
    {
        if index >= limit(rows::count(&self.items, array)) {
            return Err(trap_under(mask));
        }
        rows::put(&mut self.items, array, index as usize, bits);
        Ok(())
    }

    /// In each lane of the mask the element at the lane's index.
    ///
    /// Index where one is outside, with the lowest such lane, and then nothing changes.
    pub fn gather<const N: usize>(
        &self,
        array: usize,
        index: &Lanes<N>,
        mask: &LaneMask<N>,
        into: &mut Lanes<N>,
    ) -> Result<(), IndexTrap>
        requires there { array < length self.now.rows }
        requires index { index.now.elem ≡ I64 }
        requires elem { into.old.elem ≡ elem self.now array }
        ensures inside { IfOk result (λ _. lowest_out N (size self.now array) mask.now index.now.bits ≡ None) }
        ensures lanes { IfOk result (λ _. lane_of into.new.bits ≡ gathered (elements self.now array) mask.now index.now.bits into.old.bits) }
        ensures elem { into.new.elem ≡ into.old.elem }
        ensures lowest { IfErr result (λ t. lowest_out N (size self.now array) mask.now index.now.bits ≡ Some t.instance) }
        ensures same { IfErr result (λ t. into.new ≡ into.old) }
    {
        rows::gather(&self.items, array, index.wide_words(), mask, into)
    }

    /// In each lane of the mask the element at the lane's index, where the vector that is written and
    /// that of the indices are of one list, and may be the same.
    ///
    /// Index where one is outside, with the lowest such lane, and then nothing changes.
    pub fn gather_at<const N: usize>(
        &self,
        array: usize,
        vectors: &mut [Lanes<N>],
        out: usize,
        index: usize,
        mask: &LaneMask<N>,
    ) -> Result<(), IndexTrap>
        requires there { array < length self.now.rows }
        requires out { out < length vectors.old }
        requires index { index < length vectors.old }
        requires index_elem { (vector vectors.old index).elem ≡ I64 }
        requires elem { (vector vectors.old out).elem ≡ elem self.now array }
        ensures inside { IfOk result (λ _. lowest_out N (size self.now array) mask.now (vector vectors.old index).bits ≡ None) }
        ensures lanes { IfOk result (λ _. lane_of (vector vectors.new out).bits ≡ gathered (elements self.now array) mask.now (vector vectors.old index).bits (vector vectors.old out).bits) }
        ensures elem { (vector vectors.new out).elem ≡ (vector vectors.old out).elem }
        ensures others { vectors.new ≡ slice_set vectors.old out (vector vectors.new out) }
        ensures lowest { IfErr result (λ t. lowest_out N (size self.now array) mask.now (vector vectors.old index).bits ≡ Some t.instance) }
        ensures same { IfErr result (λ t. vectors.new ≡ vectors.old) }
    {
        // The indices are read where they stand, unless it is their vector that is written.
        if out < index {
            let (front, back) = vectors.split_at_mut(index);
            rows::gather(
                &self.items,
                array,
                back[0].wide_words(),
                mask,
                &mut front[out],
            )
        } else if index < out {
            let (front, back) = vectors.split_at_mut(out);
            rows::gather(
                &self.items,
                array,
                front[index].wide_words(),
                mask,
                &mut back[0],
            )
        } else {
            let places = *vectors[index].wide_words();
            rows::gather(&self.items, array, &places, mask, &mut vectors[out])
        }
    }

    /// Each lane of the mask writes its value at its index. Where two write at one, the higher wins.
    ///
    /// Index where one is outside, with the lowest such lane, and then nothing changes.
    pub fn scatter<const N: usize>(
        &mut self,
        array: usize,
        index: &Lanes<N>,
        value: &Lanes<N>,
        mask: &LaneMask<N>,
    ) -> Result<(), IndexTrap>
        requires there { array < length self.old.rows }
        requires index { index.now.elem ≡ I64 }
        requires elem { value.now.elem ≡ elem self.old array }
        ensures inside { IfOk result (λ _. lowest_out N (size self.old array) mask.now index.now.bits ≡ None) }
        ensures elements { IfOk result (λ _. elements self.new ≡ changed self.old array (scattered N mask.now index.now.bits value.now.bits)) }
        ensures shapes { shapes self.new ≡ shapes self.old }
        ensures lowest { IfErr result (λ t. lowest_out N (size self.old array) mask.now index.now.bits ≡ Some t.instance) }
        ensures same { IfErr result (λ t. self.new ≡ self.old) }
    {
        rows::scatter(&mut self.items, self.alloc, array, index, mask, value)
    }
}

// Consecutive elements.
impl Arrays {
    /// In each lane of the mask the element that is as many after an index as the lane's number says.
    ///
    /// Index where one is outside, with the lowest such lane, and then nothing changes.
    pub fn load_run<const N: usize>(
        &self,
        array: usize,
        index: u64,
        mask: &LaneMask<N>,
        into: &mut Lanes<N>,
    ) -> Result<(), IndexTrap>
        requires there { array < length self.now.rows }
        requires elem { into.old.elem ≡ elem self.now array }
        ensures inside { IfOk result (λ _. run_out N (size self.now array) index mask.now ≡ None) }
        ensures lanes { IfOk result (λ _. lane_of into.new.bits ≡ run_loaded (elements self.now array) index mask.now into.old.bits) }
        ensures elem { into.new.elem ≡ into.old.elem }
        ensures lowest { IfErr result (λ t. run_out N (size self.now array) index mask.now ≡ Some t.instance) }
        ensures same { IfErr result (λ t. into.new ≡ into.old) }
    {
        mask.told();
        into.told();
        let count = rows::count(&self.items, array);
        if is_whole(count, index, mask) {
            rows::load_row(&self.items, array, index as usize, into);
            return Ok(());
        }
        let mut places = [0; N];
        run_places(count, index, mask, &mut places)?;
        rows::load_lanes(&self.items, array, &places, mask, into);
        Ok(())
    }

    /// Each lane of the mask writes its value as many elements after an index as the lane's number says.
    ///
    /// Index where one is outside, with the lowest such lane, and then nothing changes.
    pub fn store_run<const N: usize>(
        &mut self,
        array: usize,
        index: u64,
        value: &Lanes<N>,
        mask: &LaneMask<N>,
    ) -> Result<(), IndexTrap>
        requires there { array < length self.old.rows }
        requires elem { value.now.elem ≡ elem self.old array }
        ensures inside { IfOk result (λ _. run_out N (size self.old array) index mask.now ≡ None) }
        ensures elements { IfOk result (λ _. elements self.new ≡ changed self.old array (run_stored N index mask.now value.now.bits)) }
        ensures shapes { shapes self.new ≡ shapes self.old }
        ensures lowest { IfErr result (λ t. run_out N (size self.old array) index mask.now ≡ Some t.instance) }
        ensures same { IfErr result (λ t. self.new ≡ self.old) }
    {
        mask.told();
        value.told();
        let count = rows::count(&self.items, array);
        if is_whole(count, index, mask) {
            rows::put_row(&mut self.items, self.alloc, array, index as usize, value);
            return Ok(());
        }
        let mut places = [0; N];
        run_places(count, index, mask, &mut places)?;
        rows::put_lanes(&mut self.items, self.alloc, array, &places, mask, value);
        Ok(())
    }

    /// In the lanes of the mask, from the lowest on, the elements from an index on. Answers how many lanes there are.
    ///
    /// Index where an element is outside, with the lowest such lane, and then nothing changes.
    pub fn pack_load<const N: usize>(
        &self,
        array: usize,
        index: u64,
        mask: &LaneMask<N>,
        into: &mut Lanes<N>,
    ) -> Result<u64, IndexTrap>
        requires there { array < length self.now.rows }
        requires elem { into.old.elem ≡ elem self.now array }
        ensures inside { IfOk result (λ _. packed_out N (size self.now array) index mask.now ≡ None) }
        ensures count { IfOk result (λ n. n ≡ rank (flag_of mask.now) N) }
        ensures few { IfOk result (λ n. n ≤ 64) }
        ensures lanes { IfOk result (λ _. lane_of into.new.bits ≡ packed_loaded (elements self.now array) index mask.now into.old.bits) }
        ensures elem { into.new.elem ≡ into.old.elem }
        ensures lowest { IfErr result (λ t. packed_out N (size self.now array) index mask.now ≡ Some t.instance) }
        ensures same { IfErr result (λ t. into.new ≡ into.old) }
    {
        mask.told();
        let mut places = [0; N];
        let count = packed_places(rows::count(&self.items, array), index, mask, &mut places)?;
        rows::load_lanes(&self.items, array, &places, mask, into);
        Ok(count)
    }

    /// The lanes of the mask, from the lowest on, write their values to the elements from an index on. Answers how many lanes
    /// there are.
    ///
    /// Index where an element is outside, with the lowest such lane, and then nothing changes.
    pub fn pack_store<const N: usize>(
        &mut self,
        array: usize,
        index: u64,
        value: &Lanes<N>,
        mask: &LaneMask<N>,
    ) -> Result<u64, IndexTrap>
        requires there { array < length self.old.rows }
        requires elem { value.now.elem ≡ elem self.old array }
        ensures inside { IfOk result (λ _. packed_out N (size self.old array) index mask.now ≡ None) }
        ensures count { IfOk result (λ n. n ≡ rank (flag_of mask.now) N) }
        ensures few { IfOk result (λ n. n ≤ 64) }
        ensures elements { IfOk result (λ _. elements self.new ≡ changed self.old array (packed_stored N index mask.now value.now.bits)) }
        ensures shapes { shapes self.new ≡ shapes self.old }
        ensures lowest { IfErr result (λ t. packed_out N (size self.old array) index mask.now ≡ Some t.instance) }
        ensures same { IfErr result (λ t. self.new ≡ self.old) }
    {
        mask.told();
        let mut places = [0; N];
        let stored = packed_places(rows::count(&self.items, array), index, mask, &mut places)?;
        rows::put_lanes(&mut self.items, self.alloc, array, &places, mask, value);
        Ok(stored)
    }
}
