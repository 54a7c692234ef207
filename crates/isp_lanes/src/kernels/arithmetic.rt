//! Sums, differences and products, cut to the width.
ghost use Rattle.std.specs.Prelude.{◌≡◌, ℕ, ◌<◌, ◌-◌, ◌^◌, bit_and, length, map, slice_index};
ghost use Rattle.isp_base.specs.declared.operators.BinOp.{BinOp};
ghost use Rattle.isp_base.specs.Values.{width};
ghost use Rattle.isp_base.specs.Cells.{cell_width};

use super::operators::Operator;
use crate::lane_elem::LaneElem;
use crate::words::Words;

// The low bits, as many as the type has. Of words that it fills nothing is cut.
pub(super) fn low<const N: usize, T: LaneElem, V: Words<N>>(x: V) -> V
    requires wide { V.width ≡ cell_width T.elem }
    requires long { length (V.words x) ≡ N }
    requires room { (k : ℕ) → slice_index (V.words x) k < 2 ^ V.width }
    ensures { V.words result ≡ map (λ a. bit_and a (2 ^ width T.elem - 1)) (V.words x) }
{
    if T::is_bool() { x.and(V::all(1)) } else { x }
}

pub(crate) struct Add;

impl<const N: usize> Operator<N> for Add {
    ghost op = { BinOp.Add };

    fn on<T: LaneElem, V: Words<N>>(x: V, y: V) -> V {
        low::<N, T, V>(x.plus(y))
    }
}

pub(crate) struct Sub;

impl<const N: usize> Operator<N> for Sub {
    ghost op = { BinOp.Sub };

    fn on<T: LaneElem, V: Words<N>>(x: V, y: V) -> V {
        low::<N, T, V>(x.minus(y))
    }
}

pub(crate) struct Mul;

impl<const N: usize> Operator<N> for Mul {
    ghost op = { BinOp.Mul };

    fn on<T: LaneElem, V: Words<N>>(x: V, y: V) -> V {
        low::<N, T, V>(x.times(y))
    }
}
