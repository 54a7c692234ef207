//! What an operator gives over the lanes below each lane.
ghost use Rattle.std.specs.Prelude.{◌≡◌, ℕ, ◌-◌, ◌^◌, ◌<◌, ◌≤◌, true, false, if◌then◌else◌, nat_lt, slice_index};
ghost use Rattle.isp_base.specs.Cross.{neutral, exclusive_scan};
ghost use Rattle.isp_base.specs.Maps.{lane_of, or_old};
ghost use Rattle.isp_base.specs.Values.{width, divides, op_bits};
ghost use Rattle.isp_cross.specs.Lanes.{active, renewed};
ghost use Rattle.isp_cross.specs.Scans.{scans};

use crate::moves::lanes_below;
use isp_base::{BinOp, Elem, low_mask};
use isp_lanes::{LaneMask, Lanes};

/// In each lane what `Add`, `And` or `Or` gives over the lower lanes of the mask. The lowest lane of the mask gets what the operator
/// leaves every value as it is with: 0, and for `And` all ones.
pub fn exclusive_scan<const N: usize>(
    op: BinOp,
    out: &mut Lanes<N>,
    x: &Lanes<N>,
    mask: &LaneMask<N>,
)
    requires elem { x.now.elem ≡ out.old.elem }
    requires op { scans op ≡ true }
    requires some { 0 < N }
    ensures elem { out.new.elem ≡ out.old.elem }
    ensures lanes { lane_of out.new.bits ≡ renewed mask.now (exclusive_scan op out.old.elem (active mask.now x.now)) out.old }
{
    mask.told();
    out.told();
    x.told();
    let start = neutral(op, x.elem());
    let mut sums = lower(&active_or(x, mask, start), 1, start);
    let mut distance = 1;
    while distance < N {
        sums = joined(op, &lower(&sums, distance, start), &sums);
        distance *= 2;
    }
    sums.told();
    out.copy(&sums, mask);
}

// The bits that the operator leaves every value as it is with.
fn neutral(op: BinOp, elem: Elem) -> u64
    ensures value { result ≡ neutral op elem }
    ensures fits { result < 2 ^ width elem }
{
    match op {
        BinOp::And => low_mask(elem),
        _ => 0,
    }
}

// The lanes of the mask, and one value in the others.
fn active_or<const N: usize>(x: &Lanes<N>, mask: &LaneMask<N>, other: u64) -> Lanes<N>
    requires { other < 2 ^ width x.now.elem }
    ensures elem { result.elem ≡ x.now.elem }
    ensures value { (p : ℕ) → p < N → slice_index result.bits p ≡ or_old (active mask.now x.now p) other }
{
    mask.told();
    x.told();
    let mut lanes = Lanes::zero(x.elem());
    lanes.splat(other, &LaneMask::full());
    lanes.copy(x, mask);
    lanes
}

// In each lane the lane so far below it, and one value where there is none.
fn lower<const N: usize>(x: &Lanes<N>, distance: usize, other: u64) -> Lanes<N>
    requires near { distance ≤ N }
    requires few { N ≤ 64 }
    requires fits { other < 2 ^ width x.now.elem }
    ensures elem { result.elem ≡ x.now.elem }
    ensures value { (p : ℕ) → p < N → slice_index result.bits p ≡ (if nat_lt p distance then other else slice_index x.now.bits (p - distance)) }
{
    let lanes = lanes_below(x.bits(), distance, other);
    let mut moved = Lanes::zero(x.elem());
    moved.put(&lanes, &LaneMask::full());
    moved
}

// The operator on all lanes.
fn joined<const N: usize>(op: BinOp, x: &Lanes<N>, y: &Lanes<N>) -> Lanes<N>
    requires elem { x.now.elem ≡ y.now.elem }
    requires op { divides op ≡ false }
    requires few { N ≤ 64 }
    ensures elem { result.elem ≡ y.now.elem }
    ensures value { (p : ℕ) → p < N → slice_index result.bits p ≡ op_bits op y.now.elem (slice_index x.now.bits p) (slice_index y.now.bits p) }
{
    x.told();
    y.told();
    let mut both = *y;
    match both.binary(op, x, y, &LaneMask::full()) {
        Ok(()) => both,
        Err(_) => unreachable!(),
    }
}
