//! One operator on all lanes, each lane in a word of its type's width.
ghost use Rattle.std.specs.Prelude.{◌≡◌, ℕ, ◌^◌, ◌<◌, ◌≤◌, length, map, slice_index, true, nat_lt, cond, int_lt, ◌+ℤ◌, pos};
ghost use Rattle.std.specs.List.{range_with_len};
ghost use Rattle.std.specs.Simd.Lanes.{zip2};
ghost use Rattle.isp_base.specs.declared.types.Elem.TheVariants.{I64};
ghost use Rattle.isp_base.specs.Values.{op_bits, compare_bits, divides, number};
ghost use Rattle.isp_lanes.specs.Held.{IsRow};

mod arithmetic;
pub(crate) mod operators;
mod order;
mod shifts;
mod signs;

use crate::lane_elem::LaneElem;
use crate::words::Words;
use isp_base::{BinOp, Compare, Elem};
use std::simd::prelude::*;

// The numbers of the lanes that a vector can have.
const NUMBERS: [u64; 64] = [
    0, 1, 2, 3, 4, 5, 6, 7, 8, 9, 10, 11, 12, 13, 14, 15, 16, 17, 18, 19, 20, 21, 22, 23, 24, 25,
    26, 27, 28, 29, 30, 31, 32, 33, 34, 35, 36, 37, 38, 39, 40, 41, 42, 43, 44, 45, 46, 47, 48, 49,
    50, 51, 52, 53, 54, 55, 56, 57, 58, 59, 60, 61, 62, 63,
];

// The division on all lanes.
pub(crate) fn divide<const N: usize, T: LaneElem, V: Words<N>>(op: BinOp, x: V, y: V) -> V
    requires x_row { IsRow N V.width T.elem (V.words x) }
    requires y_row { IsRow N V.width T.elem (V.words y) }
    requires division { divides op ≡ true }
    requires divisors { (k : ℕ) → k < length (V.words y) → 0 < slice_index (V.words y) k }
    ensures { V.words result ≡ zip2 (op_bits op T.elem) (V.words x) (V.words y) }
{
    match op {
        BinOp::Div => signs::div::<N, T, V>(x, y),
        BinOp::Rem => signs::rem::<N, T, V>(x, y),
        _ => unreachable!(),
    }
}

// 1 in the lanes where the comparison holds, and 0 in the others.
pub(crate) fn compare<const N: usize, T: LaneElem, V: Words<N>>(
    compare: Compare,
    x: V,
    y: V,
) -> [u8; N]
    requires x_row { IsRow N V.width T.elem (V.words x) }
    requires y_row { IsRow N V.width T.elem (V.words y) }
    ensures { result ≡ zip2 (compare_bits compare T.elem) (V.words x) (V.words y) }
{
    order::holds::<N, T, V>(compare, x, y).flags()
}

// The number of each lane.
pub(crate) fn numbers<const N: usize>() -> Simd<u64, N>
    requires { N ≤ 64 }
    ensures { result ≡ range_with_len 0 N }
{
    Simd::from_slice(&NUMBERS)
}

// 1 in the lanes whose number is below a bound, and 0 in the others.
pub(crate) fn below<const N: usize>(bound: u64) -> Simd<u64, N>
    requires { N ≤ 64 }
    ensures { result ≡ map (λ p. cond (nat_lt p bound) 1 0) (range_with_len 0 N) }
{
    numbers()
        .simd_lt(Simd::splat(bound))
        .select(Simd::splat(1), Simd::splat(0))
}

// How many whole numbers there are from `start` on that are below `end`, both the bits of an int64.
pub(crate) fn numbers_between(start: u64, end: u64) -> u64
    ensures { (p : ℕ) → nat_lt p result ≡ int_lt (number I64 start +ℤ pos p) (number I64 end) }
{
    if isp_base::compare(Compare::Less, Elem::I64, start, end) {
        end.wrapping_sub(start)
    } else {
        0
    }
}
