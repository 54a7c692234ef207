//! A value in each instance of a set, and none outside.
ghost use Rattle.std.specs.Prelude.{◌≡◌, ◌<◌, ◌^◌, ℕ, None, false};
ghost use Rattle.isp_base.specs.Access.{is_zero};
ghost use Rattle.isp_base.specs.Cross.{or_zero};
ghost use Rattle.isp_base.specs.Maps.{holds, lane_of, map1, map2, on, over, where_true};
ghost use Rattle.isp_base.specs.Sets.{flag_of};
ghost use Rattle.isp_base.specs.Unary.{unary_bits};
ghost use Rattle.isp_base.specs.Values.{compare_bits, number, op_bits};
ghost use Rattle.isp_meaning.specs.Payloads.{converted, except, layer};
ghost use Rattle.isp_meaning.specs.Rounds.{have, holding};
ghost use Rattle.isp_gang_values.specs.Seen.{is_bool, map_of};

use crate::sets::{Active, WIDEST};
use isp_base::{BinOp, Compare, Elem, UnaryOp, apply, apply_unary, compare, convert, low_bits};

/// The bits in each instance of a set.
pub type Row = [Option<u64>; WIDEST];

/// Bits for each instance.
pub type Lanes = [u64; WIDEST];

/// A value in no instance.
#[tactic(auto, using(crate::proofs::Rows::nothing_made))]
pub fn nothing() -> Row
    ensures { map_of result ≡ (λ p. None) }
{
    [None; WIDEST]
}

/// The lanes of the members of a set.
#[tactic(auto, using(crate::proofs::Rows::on_made))]
pub fn on(set: &Active, lanes: &Lanes) -> Row
    ensures { map_of result ≡ on (flag_of set.now) (lane_of lanes.now) }
{
    let mut row = [None; WIDEST];
    for instance in 0..WIDEST {
        row[instance] = if set[instance] {
            Some(lanes[instance])
        } else {
            None
        };
    }
    row
}

/// One value in each member of a set.
#[tactic(auto, using(crate::proofs::Rows::on_made))]
pub fn repeated(set: &Active, bits: u64) -> Row
    ensures { map_of result ≡ on (flag_of set.now) (λ p. bits) }
{
    let mut row = [None; WIDEST];
    for instance in 0..WIDEST {
        row[instance] = if set[instance] { Some(bits) } else { None };
    }
    row
}

/// The number of each member of a set.
#[tactic(auto, using(crate::proofs::Rows::on_made))]
pub fn numbers(set: &Active) -> Row
    ensures { map_of result ≡ on (flag_of set.now) (λ p. p) }
{
    let mut row = [None; WIDEST];
    for instance in 0..WIDEST {
        row[instance] = if set[instance] {
            Some(instance as u64)
        } else {
            None
        };
    }
    row
}

/// New bits where there are some.
#[tactic(auto, using(crate::proofs::Rows::over_made))]
pub fn over(row: &Row, old: &Lanes) -> Lanes
    ensures { lane_of result ≡ over (map_of row.now) (lane_of old.now) }
{
    let mut lanes = [0; WIDEST];
    for instance in 0..WIDEST {
        lanes[instance] = match row[instance] {
            Some(bits) => bits,
            None => old[instance],
        };
    }
    lanes
}

/// The values of the first, or else of the second.
#[tactic(auto, using(crate::proofs::Rows::layer_made))]
pub fn layer(first: &Row, second: &Row) -> Row
    ensures { map_of result ≡ layer (map_of first.now) (map_of second.now) }
{
    let mut row = [None; WIDEST];
    for instance in 0..WIDEST {
        row[instance] = match first[instance] {
            Some(bits) => Some(bits),
            None => second[instance],
        };
    }
    row
}

/// The values of the instances that are not of a set.
#[tactic(auto, using(crate::proofs::Rows::except_made))]
pub fn except(row: &Row, set: &Active) -> Row
    ensures { map_of result ≡ except (map_of row.now) (flag_of set.now) }
{
    let mut rest = [None; WIDEST];
    for instance in 0..WIDEST {
        rest[instance] = if set[instance] { None } else { row[instance] };
    }
    rest
}

/// Each value converted to another element type.
#[tactic(auto, using(crate::proofs::Rows::map1_made))]
pub fn converted(from: Elem, to: Elem, operand: &Row) -> Row
    ensures { map_of result ≡ map1 (converted from to) (map_of operand.now) }
{
    let mut row = [None; WIDEST];
    for instance in 0..WIDEST {
        row[instance] = match operand[instance] {
            Some(bits) => Some(convert(from, to, bits)),
            None => None,
        };
    }
    row
}

/// An operator on each value.
#[tactic(auto, using(crate::proofs::Rows::map1_made))]
pub fn unary(operator: UnaryOp, elem: Elem, operand: &Row) -> Row
    ensures { map_of result ≡ map1 (unary_bits operator elem) (map_of operand.now) }
{
    let mut row = [None; WIDEST];
    for instance in 0..WIDEST {
        row[instance] = match operand[instance] {
            Some(bits) => Some(apply_unary(operator, elem, bits)),
            None => None,
        };
    }
    row
}

/// An operator's result. Where a divisor is 0 the quotient is 0 and the remainder is the dividend, as whole numbers have
/// it; a run traps before it asks.
pub fn operated(operator: BinOp, elem: Elem, x: u64, y: u64) -> u64
    ensures { result ≡ op_bits operator elem x y }
{
    match apply(operator, elem, x, y) {
        Ok(bits) => bits,
        Err(_) => match operator {
            BinOp::Rem => low_bits(elem, x),
            _ => 0,
        },
    }
}

/// An operator on the values of both.
#[tactic(auto, using(crate::proofs::Rows::map2_made))]
pub fn binary(operator: BinOp, elem: Elem, left: &Row, right: &Row) -> Row
    ensures { map_of result ≡ map2 (op_bits operator elem) (map_of left.now) (map_of right.now) }
{
    let mut row = [None; WIDEST];
    for instance in 0..WIDEST {
        row[instance] = match (left[instance], right[instance]) {
            (Some(x), Some(y)) => Some(operated(operator, elem, x, y)),
            _ => None,
        };
    }
    row
}

/// A comparison of the values of both.
#[tactic(auto, using(crate::proofs::Rows::map2_made))]
pub fn compared(comparison: Compare, elem: Elem, left: &Row, right: &Row) -> Row
    ensures { map_of result ≡ map2 (compare_bits comparison elem) (map_of left.now) (map_of right.now) }
{
    let mut row = [None; WIDEST];
    for instance in 0..WIDEST {
        row[instance] = match (left[instance], right[instance]) {
            (Some(x), Some(y)) => Some(u64::from(compare(comparison, elem, x, y))),
            _ => None,
        };
    }
    row
}

/// The instances whose value is true, or is false.
#[tactic(auto, using(crate::proofs::Rows::where_made))]
pub fn where_is(truth: bool, row: &Row) -> Active
    ensures { flag_of result ≡ where_true (is_bool truth) (map_of row.now) }
{
    let mut set = [false; WIDEST];
    for instance in 0..WIDEST {
        set[instance] = match row[instance] {
            Some(bits) => (bits != 0) == truth,
            None => false,
        };
    }
    set
}

/// The instances in which the operator would divide by zero: those whose value is a divisor and 0 in the element type.
#[tactic(auto, using(crate::proofs::Rows::where_made))]
pub fn where_zero(operator: BinOp, elem: Elem, row: &Row) -> Active
    ensures { flag_of result ≡ where_true (is_zero operator elem) (map_of row.now) }
{
    let mut set = [false; WIDEST];
    for instance in 0..WIDEST {
        set[instance] = match row[instance] {
            Some(bits) => operator.divides() && low_bits(elem, bits) == 0,
            None => false,
        };
    }
    set
}

/// The instances that have a value.
#[tactic(auto, using(crate::proofs::Rows::where_made))]
pub fn who_have(row: &Row) -> Active
    ensures { flag_of result ≡ have (map_of row.now) }
{
    let mut set = [false; WIDEST];
    for instance in 0..WIDEST {
        set[instance] = row[instance].is_some();
    }
    set
}

/// The instances whose value is the number that `bits` stands for in the element type.
#[tactic(auto, using(crate::proofs::Rows::where_made))]
pub fn where_same(elem: Elem, bits: u64, row: &Row) -> Active
    ensures { flag_of result ≡ holding elem (number elem bits) (map_of row.now) }
{
    let mut set = [false; WIDEST];
    for instance in 0..WIDEST {
        set[instance] = match row[instance] {
            Some(value) => compare(Compare::Equal, elem, value, bits),
            None => false,
        };
    }
    set
}

/// The bits in an instance, 0 where there are none.
pub fn or_zero(bits: Option<u64>) -> u64
    ensures { result ≡ or_zero bits }
{
    match bits {
        Some(bits) => bits,
        None => 0,
    }
}
