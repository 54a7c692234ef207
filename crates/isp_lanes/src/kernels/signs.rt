//! Signs, and division by the magnitudes, to which the sign is put back.
ghost use Rattle.std.specs.Prelude.{◌≡◌, ℕ, ◌-◌, ◌%◌, ◌^◌, ◌<◌, nat_lt, cond, length, map, slice_index};
ghost use Rattle.std.specs.Simd.Lanes.{zip2};
ghost use Rattle.isp_base.specs.declared.operators.BinOp.{BinOp};
ghost use Rattle.isp_base.specs.Values.{width, greatest, op_bits};
ghost use Rattle.isp_base.specs.Words.{magnitude};
ghost use Rattle.isp_lanes.specs.Held.{IsRow};

use super::arithmetic::low;
use crate::lane_elem::LaneElem;
use crate::words::Words;

// Whether the number is negative.
pub(super) fn signs<const N: usize, T: LaneElem, V: Words<N>>(x: V) -> V
    requires { IsRow N V.width T.elem (V.words x) }
    ensures { V.words result ≡ map (λ a. cond (nat_lt (greatest T.elem) a) (2 ^ V.width - 1) 0) (V.words x) }
{
    if T::is_signed() { x.signs() } else { V::all(0) }
}

// The bits of the numbers with the other sign.
pub(super) fn negate<const N: usize, T: LaneElem, V: Words<N>>(x: V) -> V
    requires { IsRow N V.width T.elem (V.words x) }
    ensures { V.words result ≡ map (λ a. (2 ^ width T.elem - a) % 2 ^ width T.elem) (V.words x) }
{
    low::<N, T, V>(V::all(0).minus(x))
}

// The numbers without their signs.
pub(super) fn magnitudes<const N: usize, T: LaneElem, V: Words<N>>(x: V) -> V
    requires { IsRow N V.width T.elem (V.words x) }
    ensures { V.words result ≡ map (magnitude (width T.elem) (greatest T.elem)) (V.words x) }
{
    if T::is_signed() {
        signs::<N, T, V>(x).choose(negate::<N, T, V>(x), x)
    } else {
        x
    }
}

pub(super) fn div<const N: usize, T: LaneElem, V: Words<N>>(x: V, y: V) -> V
    requires x_row { IsRow N V.width T.elem (V.words x) }
    requires y_row { IsRow N V.width T.elem (V.words y) }
    requires divisors { (k : ℕ) → k < length (V.words y) → 0 < slice_index (V.words y) k }
    ensures { V.words result ≡ zip2 (op_bits BinOp.Div T.elem) (V.words x) (V.words y) }
{
    let size = magnitudes::<N, T, V>(x).quotient(magnitudes::<N, T, V>(y));
    let turned = negate::<N, T, V>(size);
    let x_negative = signs::<N, T, V>(x);
    let y_negative = signs::<N, T, V>(y);
    let same = y_negative.choose(size, turned);
    let other = y_negative.choose(turned, size);
    x_negative.choose(same, other)
}

// The remainder has the sign of x.
pub(super) fn rem<const N: usize, T: LaneElem, V: Words<N>>(x: V, y: V) -> V
    requires x_row { IsRow N V.width T.elem (V.words x) }
    requires y_row { IsRow N V.width T.elem (V.words y) }
    requires divisors { (k : ℕ) → k < length (V.words y) → 0 < slice_index (V.words y) k }
    ensures { V.words result ≡ zip2 (op_bits BinOp.Rem T.elem) (V.words x) (V.words y) }
{
    let size = magnitudes::<N, T, V>(x).rest(magnitudes::<N, T, V>(y));
    let turned = negate::<N, T, V>(size);
    signs::<N, T, V>(x).choose(turned, size)
}
