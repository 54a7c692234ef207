//! What the values over a set come to, taken together.
ghost use Rattle.std.specs.Prelude.{◌≡◌, None};
ghost use Rattle.isp_base.specs.Cross.{all_of, any_of, best, fold_below, reduce_add, reduce_best, reduce_equal};
ghost use Rattle.isp_base.specs.Types.{gang_width};
ghost use Rattle.isp_meaning.specs.Payloads.{is_true};
ghost use Rattle.isp_gang_values.specs.Seen.{map_of};

use crate::row::{Row, operated, or_zero};
use isp_base::{BinOp, Elem, Gang, number, widened, wrap};

/// The sum of the whole numbers, wrapped in the type of a sum.
pub fn sum(gang: Gang, elem: Elem, row: &Row) -> u64
    ensures { result ≡ reduce_add elem (gang_width gang) (map_of row.now) }
{
    let mut total = 0;
    for instance in 0..gang.width() {
        if let Some(bits) = row[instance] {
            total += number(elem, bits);
        }
    }
    wrap(widened(elem), total)
}

/// The least or greatest value, by Min or Max, 0 where there is none.
pub fn extreme(gang: Gang, operator: BinOp, elem: Elem, row: &Row) -> u64
    ensures { result ≡ reduce_best operator elem (gang_width gang) (map_of row.now) }
{
    let mut found = None;
    for instance in 0..gang.width() {
        if let Some(bits) = row[instance] {
            found = match found {
                None => Some(bits),
                Some(old) => Some(operated(operator, elem, old, bits)),
            };
        }
    }
    or_zero(found)
}

/// Whether a value is true.
pub fn any_true(gang: Gang, row: &Row) -> bool
    ensures { result ≡ any_of is_true (gang_width gang) (map_of row.now) }
{
    let mut any = false;
    for instance in 0..gang.width() {
        if let Some(bits) = row[instance] {
            any = any || bits != 0;
        }
    }
    any
}

/// Whether all values are true.
pub fn all_true(gang: Gang, row: &Row) -> bool
    ensures { result ≡ all_of is_true (gang_width gang) (map_of row.now) }
{
    let mut all = true;
    for instance in 0..gang.width() {
        if let Some(bits) = row[instance] {
            all = all && bits != 0;
        }
    }
    all
}

// The value of the lowest instance that has one.
fn first(gang: Gang, row: &Row) -> Option<u64>
    ensures { result ≡ fold_below (best (λ a b. a)) None (map_of row.now) (gang_width gang) }
{
    let mut found = None;
    for instance in 0..gang.width() {
        if let Some(bits) = row[instance] {
            found = match found {
                None => Some(bits),
                Some(old) => Some(old),
            };
        }
    }
    found
}

/// Whether there are no two values.
pub fn all_equal(gang: Gang, row: &Row) -> bool
    ensures { result ≡ reduce_equal (gang_width gang) (map_of row.now) }
{
    let first = or_zero(first(gang, row));
    let mut all = true;
    for instance in 0..gang.width() {
        if let Some(bits) = row[instance] {
            all = all && bits == first;
        }
    }
    all
}
