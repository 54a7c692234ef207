//! The operators on values.
ghost use Rattle.std.specs.Prelude.{◌≡◌, ◌-◌, ◌^◌, ◌<◌, ◌≢◌, ◌<ℤ◌, pos, MatchResult, true, ℕ, ℤ, int_div, int_rem};
ghost use Rattle.std.specs.Int.{int_shr, bit_at};
ghost use Rattle.isp_base.specs.Unary.{unary_bits};
ghost use Rattle.isp_base.specs.Values.{width, number, wrap, amount, op_bits, DividesByZero, divides};
ghost use Rattle.isp_base.specs.Ranges.{SameModulo};
ghost use Rattle.isp_base.specs.Rounding.{IsQuotient, IsFloor, IsLeast, IsItsNegative};

use crate::order::is_less;
use crate::types::Elem;
use crate::unary::{magnitude, negate};
use crate::values::{amount_mask, is_negative, low_bits, low_mask};
use thiserror::Error;

/// An operator on two values of one element type.
#[derive(Clone, Copy, Debug, PartialEq, Eq)]
pub enum BinOp {
    Add,
    Sub,
    Mul,
    Div,
    Rem,
    And,
    Or,
    Xor,
    Shl,
    Shr,
    Min,
    Max,
}

/// A comparison of two values of one element type.
#[derive(Clone, Copy, Debug, PartialEq, Eq)]
pub enum Compare {
    Equal,
    NotEqual,
    Less,
    LessOrEqual,
    Greater,
    GreaterOrEqual,
}

/// An operator on one value: `-`, `~`, the number without its sign, and `!`.
#[derive(Clone, Copy, Debug, PartialEq, Eq)]
pub enum UnaryOp {
    Negate,
    Invert,
    Absolute,
    Not,
}

/// The divisor is zero.
#[derive(Clone, Copy, Debug, PartialEq, Eq, Error)]
#[error("divide by zero")]
pub struct DivideByZero;

impl BinOp {
    /// Whether the operator is a division or its remainder, for which a divisor of zero has no
    /// result.
    pub fn divides(self) -> bool
        ensures { result ≡ divides self }
    {
        matches!(self, BinOp::Div | BinOp::Rem)
    }
}

/// The operator's result on the low bits of `x` and `y`, wrapped to the element type.
///
/// `DivideByZero` comes exactly where a division or a remainder has the divisor 0.
pub fn apply(op: BinOp, elem: Elem, x: u64, y: u64) -> Result<u64, DivideByZero>
    ensures { MatchResult result
        (λ bits. (divides op ≡ true → number elem y ≢ pos 0) × (bits ≡ op_bits op elem x y))
        (λ _. DividesByZero op elem y) }
{
    let x = low_bits(elem, x);
    let y = low_bits(elem, y);
    if op.divides() && y == 0 {
        Err(DivideByZero)
    } else {
        Ok(apply_nonzero(op, elem, x, y))
    }
}

/// The operator's result on bits that fit their element type, where it does not divide by 0.
#[inline(always)]
pub fn apply_nonzero(op: BinOp, elem: Elem, x: u64, y: u64) -> u64
    requires x_fits { x < 2 ^ width elem }
    requires y_fits { y < 2 ^ width elem }
    requires divisor { divides op ≡ true → 0 < y }
    ensures { result ≡ op_bits op elem x y }
{
    let low = low_mask(elem);
    match op {
        BinOp::Add => x.wrapping_add(y) & low,
        BinOp::Sub => x.wrapping_sub(y) & low,
        BinOp::Mul => x.wrapping_mul(y) & low,
        BinOp::And => x & y,
        BinOp::Or => x | y,
        BinOp::Xor => x ^ y,
        BinOp::Shl => (x << (y & amount_mask(elem))) & low,
        BinOp::Shr => shift_right(elem, x, y),
        BinOp::Min => if is_less(elem, y, x) { y } else { x },
        BinOp::Max => if is_less(elem, y, x) { x } else { y },
        BinOp::Div => divide(elem, x, y),
        BinOp::Rem => remainder(elem, x, y),
    }
}

// A negative number is shifted by its complement.
fn shift_right(elem: Elem, x: u64, y: u64) -> u64
    requires x_fits { x < 2 ^ width elem }
    requires y_fits { y < 2 ^ width elem }
    ensures { result ≡ op_bits BinOp.Shr elem x y }
{
    let low = low_mask(elem);
    let by = y & amount_mask(elem);
    if is_negative(elem, x) {
        low - ((low - x) >> by)
    } else {
        x >> by
    }
}

// The quotient of the magnitudes, with the sign that the two signs give.
fn divide(elem: Elem, x: u64, y: u64) -> u64
    requires x_fits { x < 2 ^ width elem }
    requires y_fits { y < 2 ^ width elem }
    requires divisor { 0 < y }
    ensures { result ≡ op_bits BinOp.Div elem x y }
{
    let quotient = magnitude(elem, x) / magnitude(elem, y);
    if is_negative(elem, x) == is_negative(elem, y) {
        quotient
    } else {
        negate(elem, quotient)
    }
}

// The remainder of the magnitudes, with the sign of the first.
fn remainder(elem: Elem, x: u64, y: u64) -> u64
    requires x_fits { x < 2 ^ width elem }
    requires y_fits { y < 2 ^ width elem }
    requires divisor { 0 < y }
    ensures { result ≡ op_bits BinOp.Rem elem x y }
{
    let rest = magnitude(elem, x) % magnitude(elem, y);
    if is_negative(elem, x) {
        negate(elem, rest)
    } else {
        rest
    }
}

/// What holds of the operators: a quotient rounds toward zero and its remainder has the sign of
/// the dividend, a shift to the right rounds down, a shift's amount is taken modulo the width, `~`
/// turns each bit, and the least value is its own negative.
pub fn operator_laws()
    ensures quotient { (x y : ℤ) → y ≢ pos 0 → IsQuotient x y (int_div x y) (int_rem x y) }
    ensures shift { (x : ℤ) (k : ℕ) → IsFloor x k (int_shr x k) }
    ensures amount { (w : ℕ) (y : ℤ) → 0 < w → (amount w y < w) × SameModulo w (pos (amount w y)) y }
    ensures invert { (t : Elem) (b k : ℕ) → b < 2 ^ width t → k < width t → bit_at (unary_bits UnaryOp.Invert t b) k ≡ 1 - bit_at b k }
    ensures least { (t : Elem) (z : ℤ) → IsLeast t z → z <ℤ pos 0 → IsItsNegative t (wrap t z) }
{}
