//! Lanes that are taken from other lanes.
ghost use Rattle.std.specs.Prelude.{◌-◌, ◌*◌, if◌then◌else◌, nat_lt, pos, ◌+ℤ◌, Some, ◌≡◌, ℕ, ◌+◌, ◌%◌, ◌^◌, ◌<◌, ◌≤◌, slice_index};
ghost use Rattle.isp_base.specs.Cross.{or_zero, instance, within, rotate, shift, extract, broadcast, insert, of_two, shuffle, shuffle_two};
ghost use Rattle.isp_base.specs.Maps.{lane_of};
ghost use Rattle.isp_base.specs.Values.{width, number};
ghost use Rattle.isp_base.specs.declared.types.Elem.TheVariants.{I32};
ghost use Rattle.isp_cross.specs.Lanes.{active, renewed};

use isp_lanes::{LaneMask, Lanes};
use std::simd::prelude::*;

/// In lane p the value of lane (p + k) mod N, where k is an int32.
pub fn rotate<const N: usize>(out: &mut Lanes<N>, x: &Lanes<N>, k: u64, mask: &LaneMask<N>)
    requires elem { x.now.elem ≡ out.old.elem }
    requires some { 0 < N }
    requires k { k < 2 ^ 32 }
    ensures elem { out.new.elem ≡ out.old.elem }
    ensures lanes { lane_of out.new.bits ≡ renewed mask.now (rotate N (active mask.now x.now) (number I32 k)) out.old }
{
    mask.told();
    out.told();
    let from = instance(N, k);
    let lanes = turned(active(x, mask), from);
    out.put(&lanes, mask);
}

/// In lane p the value of lane p + k, as a whole number, and 0 where there is no such lane; k is an int32.
pub fn shift<const N: usize>(out: &mut Lanes<N>, x: &Lanes<N>, k: u64, mask: &LaneMask<N>)
    requires elem { x.now.elem ≡ out.old.elem }
    requires k { k < 2 ^ 32 }
    ensures elem { out.new.elem ≡ out.old.elem }
    ensures lanes { lane_of out.new.bits ≡ renewed mask.now (shift N (active mask.now x.now) (number I32 k)) out.old }
{
    mask.told();
    out.told();
    let lanes = shifted(active(x, mask), k);
    out.put(&lanes, mask);
}

/// The value of lane i mod N, where i is an int32; 0 if that lane is off.
pub fn extract<const N: usize>(x: &Lanes<N>, i: u64, mask: &LaneMask<N>) -> u64
    requires some { 0 < N }
    requires i { i < 2 ^ 32 }
    ensures value { result ≡ extract N (active mask.now x.now) (number I32 i) }
    ensures fits { result < 2 ^ width x.now.elem }
{
    mask.told();
    let lanes = active(x, mask);
    lanes[instance(N, i)]
}

/// In each lane the value of lane i mod N, where i is an int32.
pub fn broadcast<const N: usize>(out: &mut Lanes<N>, x: &Lanes<N>, i: u64, mask: &LaneMask<N>)
    requires elem { x.now.elem ≡ out.old.elem }
    requires some { 0 < N }
    requires i { i < 2 ^ 32 }
    ensures elem { out.new.elem ≡ out.old.elem }
    ensures lanes { lane_of out.new.bits ≡ renewed mask.now (broadcast N (active mask.now x.now) (number I32 i)) out.old }
{
    mask.told();
    out.told();
    out.splat(extract(x, i, mask), mask);
}

/// The lanes of `x`, but a value of their type, given by its bits, in lane i mod N, where i is an int32.
pub fn insert<const N: usize>(
    out: &mut Lanes<N>,
    x: &Lanes<N>,
    i: u64,
    value: u64,
    mask: &LaneMask<N>,
)
    requires elem { x.now.elem ≡ out.old.elem }
    requires value { value < 2 ^ width out.old.elem }
    requires some { 0 < N }
    requires i { i < 2 ^ 32 }
    ensures elem { out.new.elem ≡ out.old.elem }
    ensures lanes { lane_of out.new.bits ≡ renewed mask.now (insert N (active mask.now x.now) (number I32 i) value) out.old }
{
    mask.told();
    out.told();
    let mut lanes = active(x, mask);
    lanes[instance(N, i)] = value;
    out.put(&lanes, mask);
}

/// In each lane the value of lane i mod N, where i is what the lane has in `index`, a vector of int32.
pub fn shuffle<const N: usize>(
    out: &mut Lanes<N>,
    x: &Lanes<N>,
    index: &Lanes<N>,
    mask: &LaneMask<N>,
)
    requires elem { x.now.elem ≡ out.old.elem }
    requires index { index.now.elem ≡ I32 }
    requires some { 0 < N }
    ensures elem { out.new.elem ≡ out.old.elem }
    ensures lanes { lane_of out.new.bits ≡ renewed mask.now (shuffle N (active mask.now x.now) (active mask.now index.now)) out.old }
{
    mask.told();
    out.told();
    let lanes = picked(active(x, mask), index.bits());
    out.put(&lanes, mask);
}

/// In each lane the value of lane i mod 2N of `x` and `y` side by side, where i is what the lane has in `index`, a vector of
/// int32: below N a lane of `x`, else one of `y`.
pub fn shuffle_two<const N: usize>(
    out: &mut Lanes<N>,
    x: &Lanes<N>,
    y: &Lanes<N>,
    index: &Lanes<N>,
    mask: &LaneMask<N>,
)
    requires x_elem { x.now.elem ≡ out.old.elem }
    requires y_elem { y.now.elem ≡ out.old.elem }
    requires index { index.now.elem ≡ I32 }
    requires some { 0 < N }
    ensures elem { out.new.elem ≡ out.old.elem }
    ensures lanes { lane_of out.new.bits ≡ renewed mask.now (shuffle_two N (active mask.now x.now) (active mask.now y.now) (active mask.now index.now)) out.old }
{
    mask.told();
    out.told();
    let first = active(x, mask);
    let second = active(y, mask);
    let lanes = picked_of_two(first, second, index.bits());
    out.put(&lanes, mask);
}

// The bits in the lanes of the mask, and 0 in the others.
pub(crate) fn active<const N: usize>(x: &Lanes<N>, mask: &LaneMask<N>) -> [u64; N]
    ensures value { (p : ℕ) → slice_index result p ≡ or_zero (active mask.now x.now p) }
    ensures fits { (p : ℕ) → slice_index result p < 2 ^ width x.now.elem }
{
    mask.told();
    x.told();
    let mut lanes = Lanes::zero(x.elem());
    lanes.copy(x, mask);
    lanes.bits()
}

// The one of so many lanes that an int32 names.
fn instance(count: usize, bits: u64) -> usize
    requires some { 0 < count }
    requires few { count ≤ 128 }
    requires fits { bits < 2 ^ 32 }
    ensures value { result ≡ instance count (number I32 bits) }
    ensures within { result < count }
{
    let above = if bits > 0x7fff_ffff {
        0x1_0000_0000 * (count as u64 - 1)
    } else {
        0
    };
    ((bits + above) % count as u64) as usize
}

// The lanes from one on, and then those before it.
fn turned<const N: usize>(x: [u64; N], from: usize) -> [u64; N]
    requires within { from < N }
    requires few { N ≤ 64 }
    ensures { (p : ℕ) → p < N → slice_index result p ≡ slice_index x.entry ((p + from) % N) }
{
    let twice = [x, x];
    Simd::<u64, N>::from_slice(&twice.as_flattened()[from..]).to_array()
}

// In each lane the lane that its index names.
fn picked<const N: usize>(x: [u64; N], index: [u64; N]) -> [u64; N]
    requires some { 0 < N }
    requires few { N ≤ 64 }
    requires fits { (p : ℕ) → slice_index index p < 2 ^ 32 }
    ensures { (p : ℕ) → p < N → slice_index result p ≡ slice_index x.entry (instance N (number I32 (slice_index index.entry p))) }
{
    let mut lanes = [0; N];
    for p in 0..N {
        lanes[p] = x[instance(N, index[p])];
    }
    lanes
}

// In each lane the lane that its index names, of two vectors side by side.
fn picked_of_two<const N: usize>(x: [u64; N], y: [u64; N], index: [u64; N]) -> [u64; N]
    requires some { 0 < N }
    requires few { N ≤ 64 }
    requires fits { (p : ℕ) → slice_index index p < 2 ^ 32 }
    ensures { (p : ℕ) → p < N → slice_index result p ≡ of_two N (λ q. Some (slice_index x.entry q)) (λ q. Some (slice_index y.entry q)) (instance (2 * N) (number I32 (slice_index index.entry p))) }
{
    let mut lanes = [0; N];
    for p in 0..N {
        let from = instance(2 * N, index[p]);
        lanes[p] = if from < N { x[from] } else { y[from - N] };
    }
    lanes
}

// The lanes moved by an int32, and 0 where none is.
fn shifted<const N: usize>(x: [u64; N], k: u64) -> [u64; N]
    requires few { N ≤ 64 }
    requires k { k < 2 ^ 32 }
    ensures { (p : ℕ) → p < N → slice_index result p ≡ within N (λ q. Some (slice_index x.entry q)) (pos p +ℤ number I32 k) }
{
    if k > 0x7fff_ffff {
        let down = 0x1_0000_0000 - k;
        lanes_below(x, if down < N as u64 { down as usize } else { N }, 0)
    } else {
        lanes_above(x, if k < N as u64 { k as usize } else { N })
    }
}

// In each lane the lane so far below it, and one value where there is none.
pub(crate) fn lanes_below<const N: usize>(x: [u64; N], distance: usize, other: u64) -> [u64; N]
    requires near { distance ≤ N }
    requires few { N ≤ 64 }
    ensures { (p : ℕ) → p < N → slice_index result p ≡ (if nat_lt p distance then other else slice_index x.entry (p - distance)) }
{
    let both = [[other; N], x];
    Simd::<u64, N>::from_slice(&both.as_flattened()[N - distance..]).to_array()
}

// In each lane the lane so far above it, and 0 where there is none.
fn lanes_above<const N: usize>(x: [u64; N], distance: usize) -> [u64; N]
    requires near { distance ≤ N }
    requires few { N ≤ 64 }
    ensures { (p : ℕ) → p < N → slice_index result p ≡ (if nat_lt (p + distance) N then slice_index x.entry (p + distance) else 0) }
{
    let both = [x, [0; N]];
    Simd::<u64, N>::from_slice(&both.as_flattened()[distance..]).to_array()
}
