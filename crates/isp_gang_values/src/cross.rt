//! Calls across the instances of a gang, of values over a set.
ghost use Rattle.std.specs.Prelude.{◌≡◌, ◌*◌, ◌<◌, ◌≤◌, ℕ, None, true, false};
ghost use Rattle.isp_base.specs.Cross.{all_of, any_of, exclusive_scan, extract, insert, instance, neutral, or_zero, reduce_add, reduce_best, reduce_equal, rotate, shift, shuffle, shuffle_two, best, fold_below};
ghost use Rattle.isp_base.specs.Maps.{on};
ghost use Rattle.isp_base.specs.Sets.{flag_of};
ghost use Rattle.isp_base.specs.Types.{gang_width, widest};
ghost use Rattle.isp_base.specs.Values.{number, op_bits};
ghost use Rattle.isp_gang_values.specs.Seen.{map_of};

use crate::numbers::int;
use crate::row::{Row, operated, or_zero, repeated};
use crate::sets::{Active, WIDEST};
use isp_base::{BinOp, Elem, Gang, low_mask};

// The number of one of so many instances: modulo their number.
fn instance_of(count: usize, place: i64) -> usize
    requires some { 0 < count }
    requires few { count ≤ 2 * widest }
    ensures value { result ≡ instance count place }
    ensures low { result < count }
{
    place.rem_euclid(count as i64) as usize
}

// The value of an instance, 0 where there is none.
fn value_at(row: &Row, instance: usize) -> u64
    requires { instance < widest }
    ensures { result ≡ or_zero (map_of row.now instance) }
{
    or_zero(row[instance])
}

/// The value of the instance of a number.
pub fn extracted(gang: Gang, row: &Row, place: i32) -> u64
    ensures { result ≡ extract (gang_width gang) (map_of row.now) place }
{
    value_at(row, instance_of(gang.width(), i64::from(place)))
}

// The value of the instance so many places further, in a ring.
fn turned(gang: Gang, row: &Row, count: i32, instance: usize) -> u64
    requires { instance < widest }
    ensures { result ≡ rotate (gang_width gang) (map_of row.now) count instance }
{
    let place = instance as i64 + i64::from(count);
    value_at(row, instance_of(gang.width(), place))
}

/// Each member gets the value of the instance so many places further, in a ring.
#[tactic(auto, using(crate::proofs::Rows::on_made))]
pub fn rotated(gang: Gang, set: &Active, row: &Row, count: i32) -> Row
    ensures { map_of result ≡ on (flag_of set.now) (rotate (gang_width gang) (map_of row.now) count) }
{
    let mut moved = [None; WIDEST];
    for instance in 0..WIDEST {
        moved[instance] = if set[instance] {
            Some(turned(gang, row, count, instance))
        } else {
            None
        };
    }
    moved
}

// The value of the instance so many places further, 0 past the ends.
fn further(gang: Gang, row: &Row, count: i32, instance: usize) -> u64
    requires { instance < widest }
    ensures { result ≡ shift (gang_width gang) (map_of row.now) count instance }
{
    let from = instance as i64 + i64::from(count);
    if from >= 0 && from < gang.width() as i64 {
        value_at(row, from as usize)
    } else {
        0
    }
}

/// Each member gets the value of the instance so many places further, 0 past the ends.
#[tactic(auto, using(crate::proofs::Rows::on_made))]
pub fn shifted(gang: Gang, set: &Active, row: &Row, count: i32) -> Row
    ensures { map_of result ≡ on (flag_of set.now) (shift (gang_width gang) (map_of row.now) count) }
{
    let mut moved = [None; WIDEST];
    for instance in 0..WIDEST {
        moved[instance] = if set[instance] {
            Some(further(gang, row, count, instance))
        } else {
            None
        };
    }
    moved
}

// The value of the instance that an index names.
fn picked(gang: Gang, row: &Row, indices: &Row, instance: usize) -> u64
    requires { instance < widest }
    ensures { result ≡ shuffle (gang_width gang) (map_of row.now) (map_of indices.now) instance }
{
    let place = int(value_at(indices, instance));
    value_at(row, instance_of(gang.width(), i64::from(place)))
}

/// Each member gets the value of the instance that its index names.
#[tactic(auto, using(crate::proofs::Rows::on_made))]
pub fn shuffled(gang: Gang, set: &Active, row: &Row, indices: &Row) -> Row
    ensures { map_of result ≡ on (flag_of set.now) (shuffle (gang_width gang) (map_of row.now) (map_of indices.now)) }
{
    let mut moved = [None; WIDEST];
    for instance in 0..WIDEST {
        moved[instance] = if set[instance] {
            Some(picked(gang, row, indices, instance))
        } else {
            None
        };
    }
    moved
}

// The value that an index names of two rows side by side.
fn picked_of_two(gang: Gang, first: &Row, second: &Row, indices: &Row, instance: usize) -> u64
    requires { instance < widest }
    ensures { result ≡ shuffle_two (gang_width gang) (map_of first.now) (map_of second.now) (map_of indices.now) instance }
{
    let place = int(value_at(indices, instance));
    let from = instance_of(2 * gang.width(), i64::from(place));
    if from < gang.width() {
        value_at(first, from)
    } else {
        value_at(second, from - gang.width())
    }
}

/// Each member gets the value that its index names of two rows side by side.
#[tactic(auto, using(crate::proofs::Rows::on_made))]
pub fn shuffled_two(gang: Gang, set: &Active, first: &Row, second: &Row, indices: &Row) -> Row
    ensures { map_of result ≡ on (flag_of set.now) (shuffle_two (gang_width gang) (map_of first.now) (map_of second.now) (map_of indices.now)) }
{
    let mut moved = [None; WIDEST];
    for instance in 0..WIDEST {
        moved[instance] = if set[instance] {
            Some(picked_of_two(gang, first, second, indices, instance))
        } else {
            None
        };
    }
    moved
}

// The value of an instance once the one of a number has got another.
fn replaced(gang: Gang, row: &Row, place: i32, bits: u64, instance: usize) -> u64
    requires { instance < widest }
    ensures { result ≡ insert (gang_width gang) (map_of row.now) place bits instance }
{
    if instance == instance_of(gang.width(), i64::from(place)) {
        bits
    } else {
        value_at(row, instance)
    }
}

/// The instance of a number gets another value.
#[tactic(auto, using(crate::proofs::Rows::on_made))]
pub fn inserted(gang: Gang, set: &Active, row: &Row, place: i32, bits: u64) -> Row
    ensures { map_of result ≡ on (flag_of set.now) (insert (gang_width gang) (map_of row.now) place bits) }
{
    let mut moved = [None; WIDEST];
    for instance in 0..WIDEST {
        moved[instance] = if set[instance] {
            Some(replaced(gang, row, place, bits, instance))
        } else {
            None
        };
    }
    moved
}

/// Each member gets what the values of the lower ones give by an operator.
#[tactic(auto, using(crate::proofs::Rows::on_made))]
pub fn scanned(operator: BinOp, elem: Elem, set: &Active, row: &Row) -> Row
    ensures { map_of result ≡ on (flag_of set.now) (exclusive_scan operator elem (map_of row.now)) }
{
    let mut total = neutral(operator, elem);
    let mut scan = [None; WIDEST];
    for instance in 0..WIDEST {
        if set[instance] {
            scan[instance] = Some(total);
        }
        if let Some(bits) = row[instance] {
            total = operated(operator, elem, total, bits);
        }
    }
    scan
}

// The bits with which the operator of a scan leaves every value as it is.
fn neutral(operator: BinOp, elem: Elem) -> u64
    ensures { result ≡ neutral operator elem }
{
    match operator {
        BinOp::And => low_mask(elem),
        _ => 0,
    }
}
