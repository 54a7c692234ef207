//! Which indices are outside an array.
ghost use Rattle.std.specs.Prelude.{◌≡◌, ℕ, ◌<◌, ◌^◌, not, nat_lt, true};
ghost use Rattle.isp_base.specs.declared.types.Elem.TheVariants.{I64};
ghost use Rattle.isp_base.specs.Access.{is_outside};
ghost use Rattle.isp_base.specs.Maps.{lane_of};
ghost use Rattle.isp_base.specs.Sets.{flag_of};
ghost use Rattle.isp_cells.specs.Access.{lowest_out};

use isp_lanes::LaneMask;
use thiserror::Error;

/// An index outside its array: the trap index of the machine, with the lane that it names.
#[derive(Clone, Copy, Debug, PartialEq, Eq, Error)]
#[error("index outside the array in lane {instance}")]
pub struct IndexTrap {
    pub instance: usize,
}

/// Indices are int64, and a negative one has bits from 2 to the 63rd on. So the elements of an array
/// are at the indices whose bits are below this.
pub fn limit(count: usize) -> u64
    ensures { (x : ℕ) → x < 2 ^ 64 → is_outside I64 count x ≡ not (nat_lt x result) }
{
    let count = count as u64;
    if count < 1 << 63 { count } else { 1 << 63 }
}

// The lowest lane of the mask whose index is outside. Mostly no lane's is, and a look at all indices at once tells so.
#[inline(always)]
pub(crate) fn first_outside<const N: usize>(
    count: usize,
    places: &[u64; N],
    mask: &LaneMask<N>,
) -> Option<usize>
    ensures { result ≡ lowest_out N count mask.now places.now }
{
    if are_below(places, limit(count)) {
        None
    } else {
        lowest_outside(count, places, mask)
    }
}

// Whether all indices are below a number, those of lanes that are off too: they are where the bits that one of them has are.
#[inline(never)]
fn are_below<const N: usize>(places: &[u64; N], limit: u64) -> bool
    ensures { result ≡ true → (p : ℕ) → p < N → lane_of places.now p < limit }
{
    let mut bits = 0;
    for lane in 0..N {
        bits |= places[lane];
    }
    bits < limit
}

// Whether an index is outside an array of so many elements.
#[inline(always)]
fn lies_outside(count: usize, place: u64) -> bool
    ensures { result ≡ is_outside I64 count place }
{
    place >= limit(count)
}

// The same as `first_outside`, lane by lane.
#[inline(never)]
fn lowest_outside<const N: usize>(
    count: usize,
    places: &[u64; N],
    mask: &LaneMask<N>,
) -> Option<usize>
    ensures { result ≡ lowest_out N count mask.now places.now }
{
    for lane in 0..N {
        if mask.get(lane) && lies_outside(count, places[lane]) {
            return Some(lane);
        }
    }
    None
}
