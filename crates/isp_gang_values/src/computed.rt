//! What an expression gives over a set of instances.
ghost use Rattle.std.specs.Prelude.{◌≡◌};
ghost use Rattle.isp_base.specs.Access.{is_zero};
ghost use Rattle.isp_base.specs.Maps.{on, where_true};
ghost use Rattle.isp_base.specs.Sets.{flag_of};
ghost use Rattle.isp_base.specs.Types.{gang_width};
ghost use Rattle.isp_base.specs.Unary.{unary_bits};
ghost use Rattle.isp_base.specs.Values.{compare_bits, op_bits};
ghost use Rattle.isp_meaning.specs.Expressions.{needs, settled};
ghost use Rattle.isp_meaning.specs.Payloads.{Each, converted, is_false, joined, kept_by, mapped, nothing, offender, selected, sole, spread};
ghost use Rattle.isp_gang_values.specs.Seen.{is_bool, map_of, payload_of};

use crate::row::{self, Row, layer, nothing, repeated, where_is, where_zero};
use crate::sets::{Active, lowest, nobody};
use isp_base::{BinOp, Compare, Elem, Gang, UnaryOp, apply_unary, compare, convert, low_bits};
use isp_typed::Logic;

/// What an expression gives over a set of instances.
#[derive(Clone, Copy)]
pub enum Computed {
    /// One value for the gang.
    One(u64),
    /// A value in each instance of the set.
    Each(Row),
}

impl Computed {
    /// A value in no instance.
    pub fn nothing() -> Computed
        ensures { payload_of result ≡ nothing }
    {
        Computed::Each(nothing())
    }

    /// The one value of a uniform type.
    pub fn sole(&self) -> u64
        ensures { result ≡ sole (payload_of self.now) }
    {
        match self {
            Computed::One(bits) => *bits,
            Computed::Each(_) => 0,
        }
    }

    /// The value in each member of a set.
    pub fn spread(&self, set: &Active) -> Row
        ensures { map_of result ≡ spread (flag_of set.now) (payload_of self.now) }
    {
        match self {
            Computed::One(bits) => repeated(set, *bits),
            Computed::Each(row) => *row,
        }
    }

    /// As a value of another element type.
    pub fn converted(&self, from: Elem, to: Elem) -> Computed
        ensures { payload_of result ≡ mapped (converted from to) (payload_of self.now) }
    {
        match self {
            Computed::One(bits) => Computed::One(convert(from, to, *bits)),
            Computed::Each(row) => Computed::Each(row::converted(from, to, row)),
        }
    }

    /// An operator on it.
    pub fn unary(&self, operator: UnaryOp, elem: Elem) -> Computed
        ensures { payload_of result ≡ mapped (unary_bits operator elem) (payload_of self.now) }
    {
        match self {
            Computed::One(bits) => Computed::One(apply_unary(operator, elem, *bits)),
            Computed::Each(row) => Computed::Each(row::unary(operator, elem, row)),
        }
    }

    /// The members whose value is true, or is false; one value speaks for all.
    pub fn members(&self, truth: bool, set: &Active) -> Active
        ensures { flag_of result ≡ kept_by (is_bool truth) (flag_of set.now) (payload_of self.now) }
    {
        match self {
            Computed::One(bits) => {
                if (*bits != 0) == truth {
                    *set
                } else {
                    nobody()
                }
            }
            Computed::Each(row) => where_is(truth, row),
        }
    }
}

/// The lowest member whose value is false; one value speaks for all.
pub fn lowest_false(gang: Gang, set: &Active, value: &Computed) -> Option<usize>
    ensures { result ≡ offender (gang_width gang) is_false (flag_of set.now) (payload_of value.now) }
{
    match value {
        Computed::One(bits) => { if *bits == 0 { lowest(gang, set) } else { None } }
        Computed::Each(row) => lowest(gang, &where_is(false, row)),
    }
}

/// The lowest member that would divide by zero; one value speaks for all.
pub fn dividing_by_zero(
    gang: Gang,
    operator: BinOp,
    elem: Elem,
    set: &Active,
    divisor: &Computed,
) -> Option<usize>
    ensures { result ≡ offender (gang_width gang) (is_zero operator elem) (flag_of set.now) (payload_of divisor.now) }
{
    match divisor {
        Computed::One(bits) => {
            if operator.divides() && low_bits(elem, *bits) == 0 {
                lowest(gang, set)
            } else {
                None
            }
        }
        Computed::Each(row) => lowest(gang, &where_zero(operator, elem, row)),
    }
}

/// An operator on two values, one where both are one.
pub fn binary(
    operator: BinOp,
    elem: Elem,
    set: &Active,
    left: &Computed,
    right: &Computed,
) -> Computed
    ensures { payload_of result ≡ joined (op_bits operator elem) (flag_of set.now) (payload_of left.now) (payload_of right.now) }
{
    if let (Computed::One(x), Computed::One(y)) = (left, right) {
        return Computed::One(row::operated(operator, elem, *x, *y));
    }
    let left = left.spread(set);
    let right = right.spread(set);
    Computed::Each(row::binary(operator, elem, &left, &right))
}

/// A comparison of two values, one where both are one.
pub fn compared(
    comparison: Compare,
    elem: Elem,
    set: &Active,
    left: &Computed,
    right: &Computed,
) -> Computed
    ensures { payload_of result ≡ joined (compare_bits comparison elem) (flag_of set.now) (payload_of left.now) (payload_of right.now) }
{
    if let (Computed::One(x), Computed::One(y)) = (left, right) {
        return Computed::One(u64::from(compare(comparison, elem, *x, *y)));
    }
    let left = left.spread(set);
    let right = right.spread(set);
    Computed::Each(row::compared(comparison, elem, &left, &right))
}

// Whether a left value leaves the right operand to be taken.
fn needed(logic: Logic, bits: u64) -> bool
    ensures { result ≡ needs logic bits }
{
    match logic {
        Logic::And => bits != 0,
        Logic::Or => bits == 0,
    }
}

// The instances whose left value leaves the right operand to be taken.
fn where_needed(logic: Logic, row: &Row) -> Active
    ensures { flag_of result ≡ where_true (needs logic) (map_of row.now) }
{
    match logic {
        Logic::And => where_is(true, row),
        Logic::Or => where_is(false, row),
    }
}

/// The members whose left value leaves the right operand of `&&` or `||` to be taken.
pub fn needing(logic: Logic, set: &Active, left: &Computed) -> Active
    ensures { flag_of result ≡ kept_by (needs logic) (flag_of set.now) (payload_of left.now) }
{
    match left {
        Computed::One(bits) => { if needed(logic, *bits) { *set } else { nobody() } }
        Computed::Each(row) => where_needed(logic, row),
    }
}

/// The right value where it was needed, else the left one.
pub fn settled(logic: Logic, set: &Active, left: &Computed, right: &Computed) -> Computed
    ensures { payload_of result ≡ settled logic (flag_of set.now) (payload_of left.now) (payload_of right.now) }
{
    match left {
        Computed::One(bits) => { if needed(logic, *bits) { *right } else { *left } }
        Computed::Each(row) => {
            let over = right.spread(&where_needed(logic, row));
            Computed::Each(layer(&over, row))
        }
    }
}

/// The values of a choice: the first where the test is true, the second where it is false.
pub fn selected(set: &Active, test: &Computed, then: &Computed, otherwise: &Computed) -> Computed
    ensures { payload_of result ≡ selected (flag_of set.now) (payload_of test.now) (payload_of then.now) (payload_of otherwise.now) }
{
    match test {
        Computed::One(bits) => { if *bits != 0 { *then } else { *otherwise } }
        Computed::Each(row) => {
            let first = then.spread(&where_is(true, row));
            let second = otherwise.spread(&where_is(false, row));
            Computed::Each(layer(&first, &second))
        }
    }
}

/// The number of each member.
pub fn numbers(set: &Active) -> Computed
    ensures { payload_of result ≡ Each (on (flag_of set.now) (λ p. p)) }
{
    Computed::Each(row::numbers(set))
}
