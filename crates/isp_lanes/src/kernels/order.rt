//! The order of the numbers, by words that have it. The least and the greatest ask for the sign before they compare, so that no vector
//! but the result lives from one branch on.
ghost use Rattle.std.specs.Prelude.{◌≡◌, ◌-◌, ◌^◌, cond, nat_lt, true, false};
ghost use Rattle.std.specs.Simd.Lanes.{zip2};
ghost use Rattle.isp_base.specs.declared.operators.BinOp.{BinOp};
ghost use Rattle.isp_base.specs.Values.{width, greatest, number, compare_to};
ghost use Rattle.isp_base.specs.Words.{turned};
ghost use Rattle.isp_lanes.specs.Held.{IsRow};

use super::operators::Operator;
use crate::lane_elem::LaneElem;
use crate::words::Words;
use isp_base::Compare;

// Whether x is less than y, both of a signed type, whose words are in order once each is moved by half of their range.
fn less_signed<const N: usize, T: LaneElem, V: Words<N>>(x: V, y: V) -> V
    requires x_row { IsRow N V.width T.elem (V.words x) }
    requires y_row { IsRow N V.width T.elem (V.words y) }
    requires signed { nat_lt (greatest T.elem) (2 ^ width T.elem - 1) ≡ true }
    ensures { V.words result ≡ zip2 (λ a b. cond (nat_lt (turned (width T.elem) (greatest T.elem) a) (turned (width T.elem) (greatest T.elem) b)) (2 ^ V.width - 1) 0) (V.words x) (V.words y) }
{
    x.turned().less(y.turned())
}

// Whether x is less than y, both of a type whose words are in order as they are.
fn less_unsigned<const N: usize, T: LaneElem, V: Words<N>>(x: V, y: V) -> V
    requires x_row { IsRow N V.width T.elem (V.words x) }
    requires y_row { IsRow N V.width T.elem (V.words y) }
    requires unsigned { nat_lt (greatest T.elem) (2 ^ width T.elem - 1) ≡ false }
    ensures { V.words result ≡ zip2 (λ a b. cond (nat_lt (turned (width T.elem) (greatest T.elem) a) (turned (width T.elem) (greatest T.elem) b)) (2 ^ V.width - 1) 0) (V.words x) (V.words y) }
{
    x.less(y)
}

// Whether x is less than y.
fn less<const N: usize, T: LaneElem, V: Words<N>>(x: V, y: V) -> V
    requires x_row { IsRow N V.width T.elem (V.words x) }
    requires y_row { IsRow N V.width T.elem (V.words y) }
    ensures { V.words result ≡ zip2 (λ a b. cond (nat_lt (turned (width T.elem) (greatest T.elem) a) (turned (width T.elem) (greatest T.elem) b)) (2 ^ V.width - 1) 0) (V.words x) (V.words y) }
{
    if T::is_signed() {
        less_signed::<N, T, V>(x, y)
    } else {
        less_unsigned::<N, T, V>(x, y)
    }
}

pub(crate) struct Min;

impl<const N: usize> Operator<N> for Min {
    ghost op = { BinOp.Min };

    fn on<T: LaneElem, V: Words<N>>(x: V, y: V) -> V {
        if T::is_signed() {
            less_signed::<N, T, V>(y, x).choose(y, x)
        } else {
            less_unsigned::<N, T, V>(y, x).choose(y, x)
        }
    }
}

pub(crate) struct Max;

impl<const N: usize> Operator<N> for Max {
    ghost op = { BinOp.Max };

    fn on<T: LaneElem, V: Words<N>>(x: V, y: V) -> V {
        if T::is_signed() {
            less_signed::<N, T, V>(y, x).choose(x, y)
        } else {
            less_unsigned::<N, T, V>(y, x).choose(x, y)
        }
    }
}

// Whether the comparison holds.
pub(super) fn holds<const N: usize, T: LaneElem, V: Words<N>>(compare: Compare, x: V, y: V) -> V
    requires x_row { IsRow N V.width T.elem (V.words x) }
    requires y_row { IsRow N V.width T.elem (V.words y) }
    ensures { V.words result ≡ zip2 (λ a b. cond (compare_to compare (number T.elem a) (number T.elem b)) (2 ^ V.width - 1) 0) (V.words x) (V.words y) }
{
    match compare {
        Compare::Equal => x.equal(y),
        Compare::NotEqual => x.equal(y).inverse(),
        Compare::Less => less::<N, T, V>(x, y),
        Compare::LessOrEqual => less::<N, T, V>(y, x).inverse(),
        Compare::Greater => less::<N, T, V>(y, x),
        Compare::GreaterOrEqual => less::<N, T, V>(x, y).inverse(),
    }
}
