//! Elements from an array into lanes, and back.
ghost use Rattle.std.specs.Prelude.{◌≡◌, ℕ, ◌<◌, ◌≤◌, ◌+◌, ◌^◌, length, true, Some, None, IfOk, IfErr};
ghost use Rattle.std.specs.Simd.Lanes.{chunk, put_chunk};
ghost use Rattle.isp_base.specs.declared.types.Elem.TheVariants.{I64};
ghost use Rattle.isp_base.specs.Access.{element, scatter};
ghost use Rattle.isp_base.specs.Cells.{cell_width};
ghost use Rattle.isp_base.specs.Held.{held, held_width};
ghost use Rattle.isp_base.specs.Maps.{lane_of, map1, on, over};
ghost use Rattle.isp_base.specs.Sets.{flag_of};
ghost use Rattle.isp_cells.specs.Cells.{stored, word_with};
ghost use Rattle.isp_cells.specs.Access.{lanes_on, lowest_out};
ghost use Rattle.isp_store.specs.Access.{gathered, scattered};

use isp_base::{Array, Cells};
use isp_cells::{IndexTrap, gathered, leave, loaded, scattered};
use isp_lanes::{LaneMask, Lanes, Row};
use std::alloc::Global;
use std::simd::prelude::*;

// The element at its place in each lane of the mask. How wide the array's words are is asked once.
//
// Index where one is outside, with the lowest such lane, and then nothing changes.
pub(crate) fn gather<const N: usize>(
    array: &Array,
    places: &[u64; N],
    mask: &LaneMask<N>,
    into: &mut Lanes<N>,
) -> Result<(), IndexTrap>
    requires { into.old.elem ≡ array.now.elem }
    ensures inside { IfOk result (λ _. lowest_out N (length array.now.bits) mask.now places.now ≡ None) }
    ensures lanes { IfOk result (λ _. lane_of into.new.bits ≡ gathered (lane_of array.now.bits) mask.now places.now into.old.bits) }
    ensures elem { into.new.elem ≡ into.old.elem }
    ensures lowest { IfErr result (λ trap. lowest_out N (length array.now.bits) mask.now places.now ≡ Some trap.instance) }
    ensures same { IfErr result (λ trap. into.new ≡ into.old) }
{
    mask.told();
    match array.cells() {
        Cells::Bits8(cells) => gathered(cells.as_slice(), places, mask, into),
        Cells::Bits16(cells) => gathered(cells.as_slice(), places, mask, into),
        Cells::Bits32(cells) => gathered(cells.as_slice(), places, mask, into),
        Cells::Bits64(cells) => gathered(cells.as_slice(), places, mask, into),
    }
}

// Each lane of the mask writes its value at its index. Where two write at one, the higher wins. The words are taken out of the
// array while lanes write them, and put back.
//
// Index where one is outside, with the lowest such lane, and then nothing changes.
pub(crate) fn write<const N: usize>(
    array: &mut Array,
    alloc: Global,
    index: &Lanes<N>,
    mask: &LaneMask<N>,
    value: &Lanes<N>,
) -> Result<(), IndexTrap>
    requires index { index.now.elem ≡ I64 }
    requires elem { value.now.elem ≡ array.old.elem }
    ensures inside { IfOk result (λ _. lowest_out N (length array.old.bits) mask.now index.now.bits ≡ None) }
    ensures elements { IfOk result (λ _. lane_of array.new.bits ≡ scattered N mask.now index.now.bits value.now.bits (lane_of array.old.bits)) }
    ensures elem { array.new.elem ≡ array.old.elem }
    ensures size { length array.new.bits ≡ length array.old.bits }
    ensures lowest { IfErr result (λ trap. lowest_out N (length array.old.bits) mask.now index.now.bits ≡ Some trap.instance) }
    ensures same { IfErr result (λ trap. array.new ≡ array.old) }
{
    index.told();
    value.told();
    let mut cells = array.take_cells(alloc);
    let outcome = store(&mut cells, index, mask, value);
    array.put_cells(cells);
    outcome
}

// Each lane of the mask writes its value at its index. How wide the words are is asked once.
//
// Index where one is outside, with the lowest such lane, and then nothing changes.
fn store<const N: usize>(
    cells: &mut Cells,
    index: &Lanes<N>,
    mask: &LaneMask<N>,
    value: &Lanes<N>,
) -> Result<(), IndexTrap>
    requires index { index.now.elem ≡ I64 }
    requires wide { held_width cells.old ≡ cell_width value.now.elem }
    requires fits { (p : ℕ) → lane_of value.now.bits p < 2 ^ held_width cells.old }
    ensures inside { IfOk result (λ _. lowest_out N (length (held cells.old)) mask.now index.now.bits ≡ None) }
    ensures held { IfOk result (λ _. held cells.new ≡ stored word_with N (flag_of mask.now) (lane_of index.now.bits) (lane_of value.now.bits) (held cells.old)) }
    ensures wide { held_width cells.new ≡ held_width cells.old }
    ensures lowest { IfErr result (λ trap. lowest_out N (length (held cells.old)) mask.now index.now.bits ≡ Some trap.instance) }
    ensures same { IfErr result (λ trap. held cells.new ≡ held cells.old) }
{
    match (cells, value.row()) {
        (Cells::Bits8(items), Row::Bits8(row)) => scattered(items.as_mut_slice(), index, mask, row),
        (Cells::Bits16(items), Row::Bits16(row)) => scattered(
            items.as_mut_slice(),
            index,
            mask,
            row,
        ),
        (Cells::Bits32(items), Row::Bits32(row)) => scattered(
            items.as_mut_slice(),
            index,
            mask,
            row,
        ),
        (Cells::Bits64(items), Row::Bits64(row)) => scattered(
            items.as_mut_slice(),
            index,
            mask,
            row,
        ),
        _ => unreachable!(),
    }
}

// The element at its place in each lane of the mask, and 0 past the end. How wide the array's words are is asked once.
pub(crate) fn load<const N: usize>(
    array: &Array,
    places: &[u64; N],
    mask: &LaneMask<N>,
    into: &mut Lanes<N>,
)
    requires { into.old.elem ≡ array.now.elem }
    ensures lanes { lane_of into.new.bits ≡ over (map1 (lane_of array.now.bits) (lanes_on mask.now places.now)) (lane_of into.old.bits) }
    ensures elem { into.new.elem ≡ into.old.elem }
{
    mask.told();
    match array.cells() {
        Cells::Bits8(cells) => loaded(cells.as_slice(), places, mask, into),
        Cells::Bits16(cells) => loaded(cells.as_slice(), places, mask, into),
        Cells::Bits32(cells) => loaded(cells.as_slice(), places, mask, into),
        Cells::Bits64(cells) => loaded(cells.as_slice(), places, mask, into),
    }
}

// Each lane of the mask writes its value at its place, which is there. Where two write at one, the higher wins. The words are taken
// out of the array while lanes write them, and put back.
pub(crate) fn put<const N: usize>(
    array: &mut Array,
    alloc: Global,
    places: &[u64; N],
    mask: &LaneMask<N>,
    value: &Lanes<N>,
)
    requires elem { value.now.elem ≡ array.old.elem }
    requires there { (p : ℕ) → flag_of mask.now p ≡ true → lane_of places.now p < length array.old.bits }
    ensures elements { lane_of array.new.bits ≡ scatter N (lanes_on mask.now places.now) (lanes_on mask.now value.now.bits) (lane_of array.old.bits) }
    ensures elem { array.new.elem ≡ array.old.elem }
    ensures size { length array.new.bits ≡ length array.old.bits }
{
    value.told();
    let mut cells = array.take_cells(alloc);
    leave_all(&mut cells, places, mask, value);
    array.put_cells(cells);
}

// Each lane of the mask leaves its value at its place, which is there. How wide the words are is asked once.
fn leave_all<const N: usize>(
    cells: &mut Cells,
    places: &[u64; N],
    mask: &LaneMask<N>,
    value: &Lanes<N>,
)
    requires wide { held_width cells.old ≡ cell_width value.now.elem }
    requires fits { (p : ℕ) → lane_of value.now.bits p < 2 ^ held_width cells.old }
    requires there { (p : ℕ) → flag_of mask.now p ≡ true → lane_of places.now p < length (held cells.old) }
    ensures held { held cells.new ≡ stored word_with N (flag_of mask.now) (lane_of places.now) (lane_of value.now.bits) (held cells.old) }
    ensures wide { held_width cells.new ≡ held_width cells.old }
{
    match (cells, value.row()) {
        (Cells::Bits8(items), Row::Bits8(row)) => leave(items.as_mut_slice(), places, mask, row),
        (Cells::Bits16(items), Row::Bits16(row)) => leave(items.as_mut_slice(), places, mask, row),
        (Cells::Bits32(items), Row::Bits32(row)) => leave(items.as_mut_slice(), places, mask, row),
        (Cells::Bits64(items), Row::Bits64(row)) => leave(items.as_mut_slice(), places, mask, row),
        _ => unreachable!(),
    }
}

// As many elements as there are lanes, from a place on, in the place of a vector's lanes.
#[inline(always)]
pub(crate) fn load_row<const N: usize>(array: &Array, start: usize, into: &mut Lanes<N>)
    requires elem { into.old.elem ≡ array.now.elem }
    requires inside { start + N ≤ length array.now.bits }
    ensures { into.new ≡ record { elem = into.old.elem; bits = chunk start N array.now.bits } }
{
    match array.cells() {
        Cells::Bits8(cells) => {
            into.set_row(Row::Bits8(Simd::from_slice(&cells.as_slice()[start..]).to_array()));
        }
        Cells::Bits16(cells) => {
            into.set_row(Row::Bits16(Simd::from_slice(&cells.as_slice()[start..]).to_array()));
        }
        Cells::Bits32(cells) => {
            into.set_row(Row::Bits32(Simd::from_slice(&cells.as_slice()[start..]).to_array()));
        }
        Cells::Bits64(cells) => {
            into.set_row(Row::Bits64(Simd::from_slice(&cells.as_slice()[start..]).to_array()));
        }
    }
}

// The lanes of a vector in the place of as many elements, from a place on. The words are taken out of the array while they are
// written, and put back.
#[inline(always)]
pub(crate) fn put_row<const N: usize>(
    array: &mut Array,
    alloc: Global,
    start: usize,
    value: &Lanes<N>,
)
    requires elem { value.now.elem ≡ array.old.elem }
    requires inside { start + N ≤ length array.old.bits }
    ensures { array.new ≡ record { elem = array.old.elem; bits = put_chunk start array.old.bits value.now.bits } }
{
    value.told();
    let mut cells = array.take_cells(alloc);
    copy_row(&mut cells, start, value);
    array.put_cells(cells);
}

// The lanes of a vector in the place of as many words, from a place on.
#[inline(always)]
fn copy_row<const N: usize>(cells: &mut Cells, start: usize, value: &Lanes<N>)
    requires wide { held_width cells.old ≡ cell_width value.now.elem }
    requires inside { start + N ≤ length (held cells.old) }
    ensures held { held cells.new ≡ put_chunk start (held cells.old) value.now.bits }
    ensures wide { held_width cells.new ≡ held_width cells.old }
{
    match (cells, value.row()) {
        (Cells::Bits8(items), Row::Bits8(row)) => lay(items.as_mut_slice(), start, row),
        (Cells::Bits16(items), Row::Bits16(row)) => lay(items.as_mut_slice(), start, row),
        (Cells::Bits32(items), Row::Bits32(row)) => lay(items.as_mut_slice(), start, row),
        (Cells::Bits64(items), Row::Bits64(row)) => lay(items.as_mut_slice(), start, row),
        _ => unreachable!(),
    }
}

// A row of words in the place of as many, from a place on.
#[inline(always)]
fn lay<T: Copy, const N: usize>(cells: &mut [T], start: usize, row: &[T; N])
    requires { start + N ≤ length cells.old }
    ensures { cells.new ≡ put_chunk start cells.old row.now }
{
    cells[start..start + N].copy_from_slice(row);
}
