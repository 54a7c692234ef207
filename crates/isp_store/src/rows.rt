//! Arrays by their numbers, where the places are known to be there.
ghost use Rattle.std.specs.Prelude.{◌≡◌, ℕ, ◌<◌, ◌≤◌, ◌+◌, ◌^◌, length, replicate, true, Some, None, IfOk, IfErr};
ghost use Rattle.std.specs.Simd.Lanes.{chunk, put_chunk};
ghost use Rattle.isp_base.specs.declared.types.Elem.TheVariants.{I64};
ghost use Rattle.isp_base.specs.Access.{element, scatter};
ghost use Rattle.isp_base.specs.Arguments.{row_bits};
ghost use Rattle.isp_base.specs.Cells.{cell_width};
ghost use Rattle.isp_base.specs.Held.{held, held_width};
ghost use Rattle.isp_base.specs.Maps.{lane_of, map1, on, over, put};
ghost use Rattle.isp_base.specs.Sets.{flag_of};
ghost use Rattle.isp_base.specs.Values.{width};
ghost use Rattle.isp_store.specs.Held.{bits_of, shapes_of, type_of};
ghost use Rattle.isp_cells.specs.Access.{lanes_on, lowest_out};
ghost use Rattle.isp_store.specs.Access.{gathered, scattered};

use crate::moves::{self, write};
use isp_base::{Array, Cells, Elem};
use isp_cells::IndexTrap;
use isp_lanes::{LaneMask, Lanes};
use std::alloc::{AllocError, Global};

// The number of elements.
pub(crate) fn count(rows: &[Array], array: usize) -> usize
    requires { array < length rows.now }
    ensures { result ≡ length (row_bits rows.now array) }
{
    rows[array].len()
}

// The bits of an element that is there.
pub(crate) fn load(rows: &[Array], array: usize, place: usize) -> u64
    requires { place < length (row_bits rows.now array) }
    ensures value { result ≡ bits_of rows.now array place }
    ensures fits { result < 2 ^ width (type_of rows.now array) }
{
    rows[array].at(place)
}

// Writes an element that is there.
pub(crate) fn put(rows: &mut [Array], array: usize, place: usize, bits: u64)
    requires there { place < length (row_bits rows.old array) }
    requires fits { bits < 2 ^ width (type_of rows.old array) }
    ensures elements { bits_of rows.new ≡ put (bits_of rows.old) array (put (bits_of rows.old array) place bits) }
    ensures shapes { shapes_of rows.new ≡ shapes_of rows.old }
{
    rows[array].put(place, bits);
}

// An array all zero.
pub(crate) fn clear(rows: &mut [Array], alloc: Global, array: usize)
    requires { array < length rows.old }
    ensures elements { bits_of rows.new ≡ put (bits_of rows.old) array (λ e. 0) }
    ensures shapes { shapes_of rows.new ≡ shapes_of rows.old }
{
    zero(&mut rows[array], alloc);
}

// The element at the lane's place in each lane of the mask.
//
// Index where one is outside, with the lowest such lane, and then nothing changes.
pub(crate) fn gather<const N: usize>(
    rows: &[Array],
    array: usize,
    places: &[u64; N],
    mask: &LaneMask<N>,
    into: &mut Lanes<N>,
) -> Result<(), IndexTrap>
    requires there { array < length rows.now }
    requires elem { into.old.elem ≡ type_of rows.now array }
    ensures inside { IfOk result (λ _. lowest_out N (length (row_bits rows.now array)) mask.now places.now ≡ None) }
    ensures lanes { IfOk result (λ _. lane_of into.new.bits ≡ gathered (bits_of rows.now array) mask.now places.now into.old.bits) }
    ensures elem { into.new.elem ≡ into.old.elem }
    ensures lowest { IfErr result (λ trap. lowest_out N (length (row_bits rows.now array)) mask.now places.now ≡ Some trap.instance) }
    ensures same { IfErr result (λ trap. into.new ≡ into.old) }
{
    mask.told();
    moves::gather(&rows[array], places, mask, into)
}

// Each lane of the mask writes its value at its index. Where two write at one, the higher wins.
//
// Index where one is outside, with the lowest such lane, and then nothing changes.
pub(crate) fn scatter<const N: usize>(
    rows: &mut [Array],
    alloc: Global,
    array: usize,
    index: &Lanes<N>,
    mask: &LaneMask<N>,
    value: &Lanes<N>,
) -> Result<(), IndexTrap>
    requires there { array < length rows.old }
    requires index { index.now.elem ≡ I64 }
    requires elem { value.now.elem ≡ type_of rows.old array }
    ensures inside { IfOk result (λ _. lowest_out N (length (row_bits rows.old array)) mask.now index.now.bits ≡ None) }
    ensures elements { IfOk result (λ _. bits_of rows.new ≡ put (bits_of rows.old) array (scattered N mask.now index.now.bits value.now.bits (bits_of rows.old array))) }
    ensures shapes { shapes_of rows.new ≡ shapes_of rows.old }
    ensures lowest { IfErr result (λ trap. lowest_out N (length (row_bits rows.old array)) mask.now index.now.bits ≡ Some trap.instance) }
    ensures same { IfErr result (λ trap. rows.new ≡ rows.old) }
{
    mask.told();
    write(&mut rows[array], alloc, index, mask, value)
}

// The element at its place in each lane of the mask, and 0 past the end.
pub(crate) fn load_lanes<const N: usize>(
    rows: &[Array],
    array: usize,
    places: &[u64; N],
    mask: &LaneMask<N>,
    into: &mut Lanes<N>,
)
    requires there { array < length rows.now }
    requires elem { into.old.elem ≡ type_of rows.now array }
    ensures lanes { lane_of into.new.bits ≡ over (map1 (bits_of rows.now array) (lanes_on mask.now places.now)) (lane_of into.old.bits) }
    ensures elem { into.new.elem ≡ into.old.elem }
{
    moves::load(&rows[array], places, mask, into);
}

// Each lane of the mask writes its value at its place, which is there. Where two write at one, the higher wins.
pub(crate) fn put_lanes<const N: usize>(
    rows: &mut [Array],
    alloc: Global,
    array: usize,
    places: &[u64; N],
    mask: &LaneMask<N>,
    value: &Lanes<N>,
)
    requires there { array < length rows.old }
    requires elem { value.now.elem ≡ type_of rows.old array }
    requires inside { (p : ℕ) → flag_of mask.now p ≡ true → lane_of places.now p < length (row_bits rows.old array) }
    ensures elements { bits_of rows.new ≡ put (bits_of rows.old) array (scatter N (lanes_on mask.now places.now) (lanes_on mask.now value.now.bits) (bits_of rows.old array)) }
    ensures shapes { shapes_of rows.new ≡ shapes_of rows.old }
{
    moves::put(&mut rows[array], alloc, places, mask, value);
}

// As many elements as there are lanes, from a place on, in the place of a vector's lanes.
#[inline(always)]
pub(crate) fn load_row<const N: usize>(
    rows: &[Array],
    array: usize,
    start: usize,
    into: &mut Lanes<N>,
)
    requires there { array < length rows.now }
    requires elem { into.old.elem ≡ type_of rows.now array }
    requires inside { start + N ≤ length (row_bits rows.now array) }
    ensures { into.new ≡ record { elem = into.old.elem; bits = chunk start N (row_bits rows.now array) } }
{
    moves::load_row(&rows[array], start, into);
}

// The lanes of a vector in the place of as many elements, from a place on.
#[inline(always)]
pub(crate) fn put_row<const N: usize>(
    rows: &mut [Array],
    alloc: Global,
    array: usize,
    start: usize,
    value: &Lanes<N>,
)
    requires there { array < length rows.old }
    requires elem { value.now.elem ≡ type_of rows.old array }
    requires inside { start + N ≤ length (row_bits rows.old array) }
    ensures elements { bits_of rows.new ≡ put (bits_of rows.old) array (lane_of (put_chunk start (row_bits rows.old array) value.now.bits)) }
    ensures shapes { shapes_of rows.new ≡ shapes_of rows.old }
{
    moves::put_row(&mut rows[array], alloc, start, value);
}

// An array of zeros.
pub(crate) fn zeros(alloc: Global, elem: Elem, count: usize) -> Result<Array, AllocError>
    ensures { IfOk result (λ a. a ≡ record { elem = elem; bits = replicate count 0 }) }
{
    let mut array = Array::empty(alloc, elem);
    array.put_cells(zero_cells(alloc, elem, count)?);
    Ok(array)
}

// Words of zeros, of the width that the type takes.
fn zero_cells(alloc: Global, elem: Elem, count: usize) -> Result<Cells, AllocError>
    ensures words { IfOk result (λ cells. held cells ≡ replicate count 0) }
    ensures wide { IfOk result (λ cells. held_width cells ≡ cell_width elem) }
{
    match elem {
        Elem::Bool | Elem::I8 | Elem::U8 => Ok(Cells::Bits8(vec![in alloc; 0; count]?)),
        Elem::I16 | Elem::U16 => Ok(Cells::Bits16(vec![in alloc; 0; count]?)),
        Elem::I32 | Elem::U32 => Ok(Cells::Bits32(vec![in alloc; 0; count]?)),
        Elem::I64 | Elem::U64 => Ok(Cells::Bits64(vec![in alloc; 0; count]?)),
    }
}

// Zero in each element.
fn zero(array: &mut Array, alloc: Global)
    ensures elem { array.new.elem ≡ array.old.elem }
    ensures elements { array.new.bits ≡ replicate (length array.old.bits) 0 }
{
    let mut cells = array.take_cells(alloc);
    zero_words(&mut cells);
    array.put_cells(cells);
}

// Zero in each word.
fn zero_words(cells: &mut Cells)
    ensures words { held cells.new ≡ replicate (length (held cells.old)) 0 }
    ensures wide { held_width cells.new ≡ held_width cells.old }
{
    match cells {
        Cells::Bits8(words) => words.as_mut_slice().fill(0),
        Cells::Bits16(words) => words.as_mut_slice().fill(0),
        Cells::Bits32(words) => words.as_mut_slice().fill(0),
        Cells::Bits64(words) => words.as_mut_slice().fill(0),
    }
}
