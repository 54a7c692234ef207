//! The operators on one value, and the sign of a value.
ghost use Rattle.std.specs.Prelude.{◌≡◌, ◌-◌, ◌%◌, ◌^◌, ◌<◌};
ghost use Rattle.isp_base.specs.Values.{width, greatest};
ghost use Rattle.isp_base.specs.Unary.{unary_bits};
ghost use Rattle.isp_base.specs.Words.{magnitude};

use crate::operators::UnaryOp;
use crate::types::Elem;
use crate::values::{is_negative, low_bits, low_mask};

/// The result of an operator on one value, on the low bits of `bits`, wrapped to the element type.
pub fn apply_unary(op: UnaryOp, elem: Elem, bits: u64) -> u64
    ensures { result ≡ unary_bits op elem bits }
{
    let bits = low_bits(elem, bits);
    match op {
        UnaryOp::Negate => negate(elem, bits),
        UnaryOp::Invert => !bits & low_mask(elem),
        UnaryOp::Absolute => magnitude(elem, bits),
        UnaryOp::Not => u64::from(bits == 0),
    }
}

// The bits of the number with the other sign.
pub(crate) fn negate(elem: Elem, x: u64) -> u64
    requires { x < 2 ^ width elem }
    ensures { result ≡ (2 ^ width elem - x) % 2 ^ width elem }
{
    0u64.wrapping_sub(x) & low_mask(elem)
}

// The number without its sign.
pub(crate) fn magnitude(elem: Elem, x: u64) -> u64
    requires { x < 2 ^ width elem }
    ensures { result ≡ magnitude (width elem) (greatest elem) x }
{
    if is_negative(elem, x) {
        negate(elem, x)
    } else {
        x
    }
}
