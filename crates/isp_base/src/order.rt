//! The order of values.
ghost use Rattle.std.specs.Prelude.{◌≡◌, nat_lt};
ghost use Rattle.isp_base.specs.Values.{width, greatest, number, compare_to};
ghost use Rattle.isp_base.specs.Words.{turned};

use crate::operators::Compare;
use crate::types::Elem;
use crate::values::{greatest_of, low_bits, low_mask};

/// How the numbers compare that the low bits of `x` and `y` stand for.
pub fn compare(comparison: Compare, elem: Elem, x: u64, y: u64) -> bool
    ensures { result ≡ compare_to comparison (number elem x) (number elem y) }
{
    let x = low_bits(elem, x);
    let y = low_bits(elem, y);
    match comparison {
        Compare::Equal => x == y,
        Compare::NotEqual => x != y,
        Compare::Less => is_less(elem, x, y),
        Compare::LessOrEqual => !is_less(elem, y, x),
        Compare::Greater => is_less(elem, y, x),
        Compare::GreaterOrEqual => !is_less(elem, x, y),
    }
}

// The order of the numbers, by the bits moved so that the least comes first.
pub(crate) fn is_less(elem: Elem, x: u64, y: u64) -> bool
    ensures { result ≡ nat_lt (turned (width elem) (greatest elem) x) (turned (width elem) (greatest elem) y) }
{
    turn(elem, x) < turn(elem, y)
}

fn turn(elem: Elem, x: u64) -> u64
    ensures { result ≡ turned (width elem) (greatest elem) x }
{
    x.wrapping_add(low_mask(elem) - greatest_of(elem)) & low_mask(elem)
}
