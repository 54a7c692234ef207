//! The values of an element type, and the words of 64 bits that hold them.
//!
//! A value is held by its bits in a `u64`, as many low ones as the element type has, in two's
//! complement. The bits above are zero.
ghost use Rattle.std.specs.Prelude.{◌≡◌, ◌+◌, ◌-◌, ◌%◌, ◌^◌, ◌<◌, nat_lt, if◌then◌else◌, ℕ, ℤ};
ghost use Rattle.isp_base.specs.Values.{width, greatest, wrap, number, convert_bits};
ghost use Rattle.isp_base.specs.Ranges.{IsValue, SameModulo};

use crate::types::Elem;

/// The word in which all bits of a value are set, and no other.
pub fn low_mask(elem: Elem) -> u64
    ensures { result ≡ 2 ^ width elem - 1 }
{
    match elem {
        Elem::Bool => 1,
        Elem::I8 | Elem::U8 => 0xff,
        Elem::I16 | Elem::U16 => 0xffff,
        Elem::I32 | Elem::U32 => 0xffff_ffff,
        Elem::I64 | Elem::U64 => u64::MAX,
    }
}

/// The greatest value. Bits above it stand for the negative values.
pub fn greatest_of(elem: Elem) -> u64
    ensures { result ≡ greatest elem }
{
    match elem {
        Elem::Bool => 1,
        Elem::I8 => 0x7f,
        Elem::U8 => 0xff,
        Elem::I16 => 0x7fff,
        Elem::U16 => 0xffff,
        Elem::I32 => 0x7fff_ffff,
        Elem::U32 => 0xffff_ffff,
        Elem::I64 => 0x7fff_ffff_ffff_ffff,
        Elem::U64 => u64::MAX,
    }
}

/// One less than the number of bits: the bits of a word that say by how many places to shift.
pub fn amount_mask(elem: Elem) -> u64
    ensures { result ≡ width elem - 1 }
{
    match elem {
        Elem::Bool => 0,
        Elem::I8 | Elem::U8 => 7,
        Elem::I16 | Elem::U16 => 15,
        Elem::I32 | Elem::U32 => 31,
        Elem::I64 | Elem::U64 => 63,
    }
}

/// The bits of a value, without those above its width.
pub fn low_bits(elem: Elem, bits: u64) -> u64
    ensures { result ≡ bits % 2 ^ width elem }
{
    bits & low_mask(elem)
}

/// The bits of the value that differs from `value` by a multiple of 2 to the width.
pub fn wrap(elem: Elem, value: i128) -> u64
    ensures { result ≡ wrap elem value }
{
    low_bits(elem, value.rem_euclid(u64::MAX as i128 + 1) as u64)
}

/// The whole number that the low bits of `bits` stand for.
pub fn number(elem: Elem, bits: u64) -> i128
    ensures { result ≡ number elem bits }
{
    let low = low_bits(elem, bits);
    if is_negative(elem, low) {
        low as i128 - (low_mask(elem) as i128 + 1)
    } else {
        low as i128
    }
}

/// The value of type `from` as one of type `to`: whether it is not zero for `bool`, else wrapped.
///
/// The low bits of `bits` are read.
pub fn convert(from: Elem, to: Elem, bits: u64) -> u64
    ensures { result ≡ convert_bits to (number from bits) }
{
    let low = low_bits(from, bits);
    match to {
        Elem::Bool => u64::from(low != 0),
        _ => low_bits(to, extended(from, low)),
    }
}

// Bits that fit stand for a negative value where they are above the greatest.
pub(crate) fn is_negative(elem: Elem, bits: u64) -> bool
    ensures { result ≡ nat_lt (greatest elem) bits }
{
    bits > greatest_of(elem)
}

// The same number in 64 bits.
fn extended(elem: Elem, bits: u64) -> u64
    requires { bits < 2 ^ width elem }
    ensures { result ≡ (if nat_lt (greatest elem) bits then bits + (2 ^ 64 - 2 ^ width elem) else bits) }
{
    if is_negative(elem, bits) {
        bits + !low_mask(elem)
    } else {
        bits
    }
}

/// What holds of all values: the bits that `wrap` gives fit, and stand for the one value that
/// differs from the number by a multiple of 2 to the width; `wrap` and `number` undo one another.
pub fn value_laws()
    ensures fits { (t : Elem) (z : ℤ) → wrap t z < 2 ^ width t }
    ensures value { (t : Elem) (z : ℤ) → IsValue t (number t (wrap t z)) }
    ensures same { (t : Elem) (z : ℤ) → SameModulo (2 ^ width t) (number t (wrap t z)) z }
    ensures only { (t : Elem) (y z : ℤ) → IsValue t y → SameModulo (2 ^ width t) y z → number t (wrap t z) ≡ y }
    ensures back { (t : Elem) (z : ℤ) → IsValue t z → number t (wrap t z) ≡ z }
    ensures bits { (t : Elem) (b : ℕ) → b < 2 ^ width t → wrap t (number t b) ≡ b }
{}
