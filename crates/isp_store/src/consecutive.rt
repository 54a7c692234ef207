//! Places of consecutive elements, one for each lane of a mask, from an index on.
ghost use Rattle.std.specs.Prelude.{◌≡◌, ℕ, ◌<◌, ◌≤◌, ◌+◌, ◌^◌, pos, ◌+ℤ◌, unsigned_abs, true, false, Some, None, IfOk, IfErr, IfSome};
ghost use Rattle.isp_base.specs.Access.{is_beyond};
ghost use Rattle.isp_base.specs.Cross.{rank, run_index, packed_index};
ghost use Rattle.isp_base.specs.Maps.{lane_of};
ghost use Rattle.isp_base.specs.Sets.{flag_of, lowest};
ghost use Rattle.isp_base.specs.Values.{number};
ghost use Rattle.isp_base.specs.declared.types.Elem.TheVariants.{I64};
ghost use Rattle.isp_store.specs.Access.{packed_out, run_out};

use isp_base::{Elem, number};
use isp_cells::IndexTrap;
use isp_lanes::LaneMask;

// The place so many elements after an index, or none where it is not among the first `count`.
fn place_behind(count: usize, index: u64, offset: u64) -> Option<u64>
    requires { offset ≤ 64 }
    ensures place { IfSome result (λ e. e ≡ unsigned_abs (number I64 index +ℤ pos offset)) }
    ensures there { IfSome result (λ e. e < count) }
    ensures inside { IfSome result (λ e. is_beyond count (number I64 index +ℤ pos offset) ≡ false) }
    ensures outside { result ≡ None → is_beyond count (number I64 index +ℤ pos offset) ≡ true }
{
    let place = number(Elem::I64, index) + i128::from(offset);
    if place < 0 || place >= count as i128 {
        None
    } else {
        Some(place as u64)
    }
}

// Whether all lanes are on, and as many elements as there are lanes stand in a row from an index on.
#[inline(always)]
pub(crate) fn is_whole<const N: usize>(count: usize, index: u64, mask: &LaneMask<N>) -> bool
    ensures on { result ≡ true → (p : ℕ) → p < N → flag_of mask.now p ≡ true }
    ensures there { result ≡ true → index + N ≤ count }
    ensures low { result ≡ true → index < 2 ^ 63 }
{
    mask.told();
    let count = count as u64;
    mask.all() && index < 1 << 63 && index <= count && N as u64 <= count - index
}

// For each lane of the mask the place that is as many after an index as the lane's number says.
//
// Index where one is outside, with the lowest such lane.
#[inline(always)]
pub(crate) fn run_places<const N: usize>(
    count: usize,
    index: u64,
    mask: &LaneMask<N>,
    places: &mut [u64; N],
) -> Result<(), IndexTrap>
    ensures inside { IfOk result (λ _. run_out N count index mask.now ≡ None) }
    ensures places { IfOk result (λ _. (p : ℕ) → flag_of mask.now p ≡ true → lane_of places.new p ≡ unsigned_abs (run_index (number I64 index) p)) }
    ensures there { IfOk result (λ _. (p : ℕ) → flag_of mask.now p ≡ true → lane_of places.new p < count) }
    ensures lowest { IfErr result (λ trap. run_out N count index mask.now ≡ Some trap.instance) }
{
    mask.told();
    for lane in 0..N {
        if mask.get(lane) {
            match place_behind(count, index, lane as u64) {
                Some(place) => places[lane] = place,
                None => return Err(IndexTrap { instance: lane }),
            }
        }
    }
    Ok(())
}

// For each lane of the mask the place that is as many after an index as lower lanes are in the mask; and how many lanes
// there are.
//
// Index where one is outside, with the lowest such lane.
#[inline(always)]
pub(crate) fn packed_places<const N: usize>(
    count: usize,
    index: u64,
    mask: &LaneMask<N>,
    places: &mut [u64; N],
) -> Result<u64, IndexTrap>
    ensures inside { IfOk result (λ _. packed_out N count index mask.now ≡ None) }
    ensures count { IfOk result (λ n. n ≡ rank (flag_of mask.now) N) }
    ensures few { IfOk result (λ n. n ≤ N) }
    ensures places { IfOk result (λ _. (p : ℕ) → flag_of mask.now p ≡ true → lane_of places.new p ≡ unsigned_abs (packed_index (number I64 index) (flag_of mask.now) p)) }
    ensures there { IfOk result (λ _. (p : ℕ) → flag_of mask.now p ≡ true → lane_of places.new p < count) }
    ensures lowest { IfErr result (λ trap. packed_out N count index mask.now ≡ Some trap.instance) }
{
    mask.told();
    let mut lower = 0;
    for lane in 0..N {
        if mask.get(lane) {
            match place_behind(count, index, lower) {
                Some(place) => places[lane] = place,
                None => return Err(IndexTrap { instance: lane }),
            }
            lower += 1;
        }
    }
    Ok(lower)
}
