//! What the lanes of a mask give together.
ghost use Rattle.std.specs.Prelude.{◌≡◌, ℕ, ◌%◌, ◌^◌, ◌<◌, ◌≤◌, List, length, replicate, false, not};
ghost use Rattle.isp_base.specs.Cross.{reduce_add, reduce_best, best, rank, any_of, all_of, reduce_equal};
ghost use Rattle.isp_base.specs.Ranks.{widened};
ghost use Rattle.isp_base.specs.Maps.{lane_of};
ghost use Rattle.isp_base.specs.Sets.{flag_of};
ghost use Rattle.isp_base.specs.Truths.{is_true};
ghost use Rattle.isp_base.specs.Values.{divides, op_bits, width};
ghost use Rattle.isp_base.specs.declared.operators.BinOp.TheVariants.{Min, Max};
ghost use Rattle.isp_base.specs.declared.types.Elem.TheVariants.{Bool as Truth, I32, I64};
ghost use Rattle.isp_cross.specs.Lanes.{active, renewed};

use crate::scans::exclusive_scan;
use isp_base::{BinOp, Compare, Elem, low_bits, widened};
use isp_lanes::{LaneMask, Lanes};
use std::simd::prelude::*;

/// The sum of the lanes of the mask, as whole numbers, wrapped to the type of a sum: of twice the width, up to 64 bits. 0 where none
/// is on.
pub fn reduce_add<const N: usize>(x: &Lanes<N>, mask: &LaneMask<N>) -> u64
    ensures value { result ≡ reduce_add x.now.elem N (active mask.now x.now) }
    ensures fits { result < 2 ^ width (widened x.now.elem) }
{
    mask.told();
    x.told();
    let wide = widened(x.elem());
    let mut lanes = Lanes::zero(wide);
    lanes.convert(x, mask);
    low_bits(wide, Simd::from_array(lanes.bits()).reduce_sum())
}

/// The least of the lanes of the mask; 0 where none is on.
pub fn reduce_min<const N: usize>(x: &Lanes<N>, mask: &LaneMask<N>) -> u64
    ensures value { result ≡ reduce_best Min x.now.elem N (active mask.now x.now) }
    ensures fits { result < 2 ^ width x.now.elem }
{
    reduce_best(BinOp::Min, x, mask)
}

/// The greatest of the lanes of the mask; 0 where none is on.
pub fn reduce_max<const N: usize>(x: &Lanes<N>, mask: &LaneMask<N>) -> u64
    ensures value { result ≡ reduce_best Max x.now.elem N (active mask.now x.now) }
    ensures fits { result < 2 ^ width x.now.elem }
{
    reduce_best(BinOp::Max, x, mask)
}

/// Whether the lanes of the mask have no two values.
pub fn reduce_equal<const N: usize>(x: &Lanes<N>, mask: &LaneMask<N>) -> bool
    requires { 0 < N }
    ensures { result ≡ reduce_equal N (active mask.now x.now) }
{
    mask.told();
    x.told();
    let lowest = x.get(mask.first());
    let mut first = *x;
    first.splat(lowest, &LaneMask::full());
    let mut same = Lanes::zero(Elem::Bool);
    same.compare(Compare::Equal, x, &first, mask);
    all(&same, mask)
}

/// Whether a vector of bools is true in a lane of the mask.
pub fn any<const N: usize>(x: &Lanes<N>, mask: &LaneMask<N>) -> bool
    requires { x.now.elem ≡ Truth }
    ensures { result ≡ any_of is_true N (active mask.now x.now) }
{
    mask.told();
    x.told();
    mask.test(x).any()
}

/// Whether a vector of bools is true in all lanes of the mask.
pub fn all<const N: usize>(x: &Lanes<N>, mask: &LaneMask<N>) -> bool
    requires { x.now.elem ≡ Truth }
    ensures { result ≡ all_of is_true N (active mask.now x.now) }
{
    mask.told();
    x.told();
    !mask.and_not(&mask.test(x)).any()
}

/// Whether a vector of bools is true in no lane of the mask.
pub fn none<const N: usize>(x: &Lanes<N>, mask: &LaneMask<N>) -> bool
    requires { x.now.elem ≡ Truth }
    ensures { result ≡ not (any_of is_true N (active mask.now x.now)) }
{
    !any(x, mask)
}

/// In each lane the number of lower lanes of the mask, as int32.
pub fn ranks<const N: usize>(out: &mut Lanes<N>, mask: &LaneMask<N>)
    requires elem { out.old.elem ≡ I32 }
    requires some { 0 < N }
    ensures elem { out.new.elem ≡ out.old.elem }
    ensures lanes { lane_of out.new.bits ≡ renewed mask.now (rank (flag_of mask.now)) out.old }
{
    mask.told();
    let mut ones = Lanes::zero(Elem::I32);
    ones.splat(1, &LaneMask::full());
    exclusive_scan(BinOp::Add, out, &ones, mask);
}

// The least or the greatest, by `Min` or `Max`.
fn reduce_best<const N: usize>(op: BinOp, x: &Lanes<N>, mask: &LaneMask<N>) -> u64
    requires { divides op ≡ false }
    ensures value { result ≡ reduce_best op x.now.elem N (active mask.now x.now) }
    ensures fits { result < 2 ^ width x.now.elem }
{
    mask.told();
    x.told();
    let bits = x.bits();
    let elem = x.elem();
    let mut best = None;
    for p in 0..N {
        if mask.get(p) {
            best = with_this(op, elem, best, bits[p]);
        }
    }
    best.unwrap_or(0)
}

// The better of the best so far and another.
fn with_this(op: BinOp, elem: Elem, so_far: Option<u64>, bits: u64) -> Option<u64>
    requires { divides op ≡ false }
    ensures { result ≡ best (op_bits op elem) so_far bits }
{
    let Some(other) = so_far else {
        return Some(bits);
    };
    match isp_base::apply(op, elem, other, bits) {
        Ok(better) => Some(better),
        Err(_) => unreachable!(),
    }
}
