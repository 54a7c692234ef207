//! The division under a mask, in which a lane that is off neither divides by zero nor loses its old word, and conversions.
ghost use Rattle.std.specs.Prelude.{◌≡◌, ◌<◌, ◌≤◌, length, map, replicate, None, cond, true};
ghost use Rattle.std.specs.Simd.Lanes.{zip2, sel_l};
ghost use Rattle.isp_base.specs.Values.{divides, number, op_bits, width, wrap};
ghost use Rattle.isp_lanes.specs.Lanes.{first_zero};
ghost use Rattle.isp_lanes.specs.Held.{IsRow};

use crate::kernels;
use crate::lane_elem::LaneElem;
use crate::mask::LaneMask;
use crate::words::Words;
use isp_base::{BinOp, Elem};

// A division, where no lane of the mask divides by zero.
pub(crate) fn divide<const N: usize, T: LaneElem, V: Words<N>>(
    op: BinOp,
    x: V,
    y: V,
    mask: &LaneMask<N>,
    old: V,
) -> V
    requires x_row { IsRow N V.width T.elem (V.words x) }
    requires y_row { IsRow N V.width T.elem (V.words y) }
    requires division { divides op ≡ true }
    requires divided { first_zero op mask.now (V.words y) ≡ None }
    ensures { V.words result ≡ sel_l mask.now (zip2 (op_bits op T.elem) (V.words x) (V.words y)) (V.words old) }
{
    mask.told();
    let divisors = safe_divisors(op, y, mask);
    mask.merge(kernels::divide::<N, T, V>(op, x, divisors), old)
}

// The lowest lane of the mask that would divide by zero.
pub(crate) fn fault<const N: usize, V: Words<N>>(
    op: BinOp,
    divisors: V,
    mask: &LaneMask<N>,
) -> Option<usize>
    requires { length (V.words divisors) ≡ N }
    ensures { result ≡ first_zero op mask.now (V.words divisors) }
{
    if op.divides() {
        mask.zeros(divisors).position()
    } else {
        None
    }
}

// The divisors with 1 in the lanes that are off, so that these divide by no zero.
fn safe_divisors<const N: usize, V: Words<N>>(op: BinOp, divisors: V, mask: &LaneMask<N>) -> V
    requires { length (V.words divisors) ≡ N }
    ensures { V.words result ≡ cond (divides op) (sel_l mask.now (V.words divisors) (replicate (length (V.words divisors)) 1)) (V.words divisors) }
{
    if op.divides() {
        mask.merge(divisors, V::all(1))
    } else {
        divisors
    }
}

// The numbers of one element type as values of another that is not bool. Through 64 bits, of which the compiler leaves no more than
// the wider of the two takes.
pub(crate) fn convert<const N: usize, T: LaneElem, V: Words<N>, W: Words<N>>(to: Elem, x: V) -> W
    requires few { N ≤ 64 }
    requires x_row { IsRow N V.width T.elem (V.words x) }
    requires wide { W.width ≡ width to }
    ensures { W.words result ≡ map (λ a. wrap to (number T.elem a)) (V.words x) }
{
    if T::is_signed() {
        W::all(0).cut(&x.spread())
    } else {
        W::all(0).cut(&x.wide())
    }
}
