//! What the library's functions give, from the values of their arguments.
ghost use Rattle.std.specs.Prelude.{◌≡◌, map};
ghost use Rattle.isp_base.specs.Sets.{flag_of};
ghost use Rattle.isp_base.specs.Types.{gang_width};
ghost use Rattle.isp_base.specs.Values.{op_bits};
ghost use Rattle.isp_meaning.specs.Library.{argument, chosen_by, chosen_one, library_value};
ghost use Rattle.isp_meaning.specs.Payloads.{joined};
ghost use Rattle.isp_gang_values.specs.Seen.{map_of, payload_of};

use crate::computed::{Computed, binary};
use crate::cross::{extracted, inserted, rotated, scanned, shifted, shuffled, shuffled_two};
use crate::numbers::int;
use crate::reductions::{all_equal, all_true, any_true, extreme, sum};
use crate::row::{Row, repeated};
use crate::sets::{Active, WIDEST};
use isp_base::{BinOp, Elem, Gang, UnaryOp};
use isp_typed::Library;

/// A call in an element type over a set; an argument that is not there is 0.
pub fn called(
    gang: Gang,
    function: Library,
    elem: Elem,
    set: &Active,
    values: &[Computed],
) -> Computed
    ensures { let ms = map payload_of values.now in payload_of result ≡ library_value (gang_width gang) elem (flag_of set.now) function (argument ms 0) (argument ms 1) (argument ms 2) }
{
    let x = argument(values, 0);
    let y = argument(values, 1);
    let z = argument(values, 2);
    answered(gang, function, elem, set, &x, &y, &z)
}

// The value of an argument.
fn argument(values: &[Computed], place: usize) -> Computed
    ensures { payload_of result ≡ argument (map payload_of values.now) place }
{
    if place < values.len() {
        values[place]
    } else {
        Computed::One(0)
    }
}

/// A call of three values, of which each function takes as many as it has.
pub fn answered(
    gang: Gang,
    function: Library,
    elem: Elem,
    set: &Active,
    x: &Computed,
    y: &Computed,
    z: &Computed,
) -> Computed
    ensures { payload_of result ≡ library_value (gang_width gang) elem (flag_of set.now) function (payload_of x.now) (payload_of y.now) (payload_of z.now) }
{
    let row = x.spread(set);
    let count = int(y.sole());
    match function {
        Library::ReduceAdd => Computed::One(sum(gang, elem, &row)),
        Library::ReduceMin => Computed::One(extreme(gang, BinOp::Min, elem, &row)),
        Library::ReduceMax => Computed::One(extreme(gang, BinOp::Max, elem, &row)),
        Library::ReduceEqual => Computed::One(u64::from(all_equal(gang, &row))),
        Library::Any => Computed::One(u64::from(any_true(gang, &row))),
        Library::All => Computed::One(u64::from(all_true(gang, &row))),
        Library::None => Computed::One(u64::from(!any_true(gang, &row))),
        Library::ScanAdd => Computed::Each(scanned(BinOp::Add, elem, set, &row)),
        Library::ScanAnd => Computed::Each(scanned(BinOp::And, elem, set, &row)),
        Library::ScanOr => Computed::Each(scanned(BinOp::Or, elem, set, &row)),
        Library::Broadcast => Computed::Each(repeated(set, extracted(gang, &row, count))),
        Library::Rotate => Computed::Each(rotated(gang, set, &row, count)),
        Library::Shift => Computed::Each(shifted(gang, set, &row, count)),
        Library::Shuffle => Computed::Each(shuffled(gang, set, &row, &y.spread(set))),
        Library::ShuffleTwo => {
            Computed::Each(shuffled_two(gang, set, &row, &y.spread(set), &z.spread(set)))
        }
        Library::Extract => Computed::One(extracted(gang, &row, count)),
        Library::Insert => Computed::Each(inserted(gang, set, &row, count, z.sole())),
        Library::Min => binary(BinOp::Min, elem, set, x, y),
        Library::Max => binary(BinOp::Max, elem, set, x, y),
        Library::Clamp => clamped(elem, set, x, y, z),
        Library::Abs => x.unary(UnaryOp::Absolute, elem),
        Library::Select => chosen(set, x, y, z),
    }
}

// A value that is raised to the least, then lowered to the greatest.
fn clamped(
    elem: Elem,
    set: &Active,
    x: &Computed,
    least: &Computed,
    greatest: &Computed,
) -> Computed
    ensures { payload_of result ≡ joined (op_bits BinOp.Min elem) (flag_of set.now) (joined (op_bits BinOp.Max elem) (flag_of set.now) (payload_of x.now) (payload_of least.now)) (payload_of greatest.now) }
{
    let raised = binary(BinOp::Max, elem, set, x, least);
    binary(BinOp::Min, elem, set, &raised, greatest)
}

// One of two values by a test, in each instance.
fn chosen(set: &Active, test: &Computed, first: &Computed, second: &Computed) -> Computed
    ensures { payload_of result ≡ chosen_by (flag_of set.now) (payload_of test.now) (payload_of first.now) (payload_of second.now) }
{
    match test {
        Computed::One(bits) => { if *bits != 0 { *first } else { *second } }
        Computed::Each(row) => {
            Computed::Each(chosen_row(row, &first.spread(set), &second.spread(set)))
        }
    }
}

// Likewise of three rows.
#[tactic(auto, using(crate::proofs::Rows::chosen_made))]
fn chosen_row(tests: &Row, first: &Row, second: &Row) -> Row
    ensures { map_of result ≡ (λ p. chosen_one (map_of tests.now p) (map_of first.now p) (map_of second.now p)) }
{
    let mut row = [None; WIDEST];
    for instance in 0..WIDEST {
        row[instance] = match tests[instance] {
            Some(bits) => if bits != 0 {
                first[instance]
            } else {
                second[instance]
            },
            None => None,
        };
    }
    row
}
