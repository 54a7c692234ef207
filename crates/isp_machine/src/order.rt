//! The order of scalars, by the bits moved so that the least number comes first.
ghost use Rattle.std.specs.Prelude.{◌≡◌, ◌<◌, ◌-◌, ◌^◌, nat_lt};
ghost use Rattle.isp_base.specs.Values.{width, greatest, number, compare_to};
ghost use Rattle.isp_base.specs.Words.{turned};

use isp_base::{Compare, Elem, low_mask};

// How far the bits are moved: half of the range where there are negative values.
#[inline(always)]
fn half(elem: Elem) -> u64
    ensures { result ≡ 2 ^ width elem - 1 - greatest elem }
{
    match elem {
        Elem::Bool | Elem::U8 | Elem::U16 | Elem::U32 | Elem::U64 => 0,
        Elem::I8 => 0x80,
        Elem::I16 => 0x8000,
        Elem::I32 => 0x8000_0000,
        Elem::I64 => 0x8000_0000_0000_0000,
    }
}

#[inline(always)]
fn turn(elem: Elem, x: u64) -> u64
    ensures { result ≡ turned (width elem) (greatest elem) x }
{
    x.wrapping_add(half(elem)) & low_mask(elem)
}

#[inline(always)]
fn is_less(elem: Elem, x: u64, y: u64) -> bool
    ensures { result ≡ nat_lt (turned (width elem) (greatest elem) x) (turned (width elem) (greatest elem) y) }
{
    turn(elem, x) < turn(elem, y)
}

/// How the numbers compare that the bits stand for, all of which fit the type.
#[inline(always)]
pub(crate) fn compare(comparison: Compare, elem: Elem, x: u64, y: u64) -> bool
    requires x_fits { x < 2 ^ width elem }
    requires y_fits { y < 2 ^ width elem }
    ensures { result ≡ compare_to comparison (number elem x) (number elem y) }
{
    match comparison {
        Compare::Equal => x == y,
        Compare::NotEqual => x != y,
        Compare::Less => is_less(elem, x, y),
        Compare::LessOrEqual => !is_less(elem, y, x),
        Compare::Greater => is_less(elem, y, x),
        Compare::GreaterOrEqual => !is_less(elem, x, y),
    }
}
