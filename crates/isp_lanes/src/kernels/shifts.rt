//! Shifts, whose amount is taken modulo the width.
ghost use Rattle.std.specs.Prelude.{◌≡◌, ◌-◌, bit_and, map, length};
ghost use Rattle.isp_base.specs.declared.operators.BinOp.{BinOp};
ghost use Rattle.isp_base.specs.Values.{width};
ghost use Rattle.isp_base.specs.Cells.{cell_width};

use super::arithmetic::low;
use super::operators::Operator;
use super::signs::signs;
use crate::lane_elem::LaneElem;
use crate::words::Words;

// The amounts modulo the width of the type. Where the type fills its words that is the words' own width, which is known when this
// is compiled.
fn amounts<const N: usize, T: LaneElem, V: Words<N>>(y: V) -> V
    requires wide { V.width ≡ cell_width T.elem }
    requires long { length (V.words y) ≡ N }
    ensures { V.words result ≡ map (λ b. bit_and b (width T.elem - 1)) (V.words y) }
{
    if T::is_bool() { V::all(0) } else { y.amounts() }
}

pub(crate) struct Shl;

impl<const N: usize> Operator<N> for Shl {
    ghost op = { BinOp.Shl };

    fn on<T: LaneElem, V: Words<N>>(x: V, y: V) -> V {
        let by = amounts::<N, T, V>(y);
        low::<N, T, V>(x.left(by))
    }
}

// The bits of a negative number are turned before and after, so that ones come in from above.
pub(crate) struct Shr;

impl<const N: usize> Operator<N> for Shr {
    ghost op = { BinOp.Shr };

    fn on<T: LaneElem, V: Words<N>>(x: V, y: V) -> V {
        let by = amounts::<N, T, V>(y);
        if T::is_signed() {
            let negative = signs::<N, T, V>(x);
            let shifted = x.xor(negative).right(by);
            shifted.xor(negative)
        } else {
            x.right(by)
        }
    }
}
