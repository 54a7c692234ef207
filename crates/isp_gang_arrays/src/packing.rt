//! The elements of packed calls: consecutive ones for the members of a set, from a first one on.
ghost use Rattle.std.specs.Prelude.{◌≡◌, ◌<◌, unsigned_abs};
ghost use Rattle.isp_base.specs.Cross.{packed_index, packed_outside};
ghost use Rattle.isp_base.specs.Maps.{on};
ghost use Rattle.isp_base.specs.Sets.{flag_of, lowest};
ghost use Rattle.isp_base.specs.Types.{gang_width, widest};
ghost use Rattle.isp_base.specs.Values.{number};
ghost use Rattle.isp_gang_values.specs.Seen.{map_of};
ghost use Rattle.isp_gang_arrays.specs.Packing.{place_at, places_at};
ghost use Rattle.isp_gang_arrays.specs.Stores.{stores_of};

use isp_base::{Elem, Gang};
use isp_gang_values::growing::at;
use isp_gang_values::numbers::whole;
use isp_gang_values::row::Row;
use isp_gang_values::sets::{Active, WIDEST, lowest, rank};

// The whole number of the element of a member.
fn index(elem: Elem, first: u64, set: &Active, instance: usize) -> i128
    requires { instance < widest }
    ensures { result ≡ packed_index (number elem first) (flag_of set.now) instance }
{
    whole(elem, first) + rank(set, instance) as i128
}

// Whether an instance is a member whose element is not in an array of so many.
fn is_outside(elem: Elem, first: u64, count: usize, set: &Active, instance: usize) -> bool
    requires { instance < widest }
    ensures { result ≡ packed_outside count (number elem first) (flag_of set.now) instance }
{
    let index = index(elem, first, set, instance);
    set[instance] && (index < 0 || index >= count as i128)
}

/// The lowest member whose element is not in an array of so many.
#[tactic(auto, using(crate::proofs::Packs::outside_made))]
pub fn outside(gang: Gang, elem: Elem, first: u64, count: usize, set: &Active) -> Option<usize>
    ensures { result ≡ lowest (gang_width gang) (packed_outside count (number elem first) (flag_of set.now)) }
{
    let mut out = [false; WIDEST];
    for instance in 0..WIDEST {
        out[instance] = is_outside(elem, first, count, set, instance);
    }
    lowest(gang, &out)
}

// The element of a store by a whole number.
fn element_of(stores: &[Vec<u64>], store: usize, index: i128) -> u64
    ensures { result ≡ stores_of stores.now store (unsigned_abs index) }
{
    if store >= stores.len() {
        return 0;
    }
    let values = stores[store].as_slice();
    let place = index.unsigned_abs();
    if place < values.len() as u128 {
        at(values, place as usize)
    } else {
        0
    }
}

/// The consecutive elements of a store for the members.
#[tactic(auto, using(isp_gang_values::proofs::Rows::on_made))]
pub fn held(stores: &[Vec<u64>], store: usize, elem: Elem, first: u64, set: &Active) -> Row
    ensures { map_of result ≡ on (flag_of set.now) (λ p. stores_of stores.now store
        (unsigned_abs (packed_index (number elem first) (flag_of set.now) p))) }
{
    let mut row = [None; WIDEST];
    for instance in 0..WIDEST {
        let index = index(elem, first, set, instance);
        row[instance] = if set[instance] {
            Some(element_of(stores, store, index))
        } else {
            None
        };
    }
    row
}

// The element of a whole number, if it is one of so many.
fn place(count: usize, index: i128) -> Option<u64>
    ensures { result ≡ place_at count index }
{
    if index < 0 || index >= count as i128 {
        None
    } else {
        Some(index as u64)
    }
}

/// The elements of the members that are in an array of so many.
#[tactic(auto, using(crate::proofs::Packs::places_made))]
pub fn places(elem: Elem, first: u64, count: usize, set: &Active) -> Row
    ensures { map_of result ≡ places_at count (number elem first) (flag_of set.now) }
{
    let mut row = [None; WIDEST];
    for instance in 0..WIDEST {
        let index = index(elem, first, set, instance);
        row[instance] = if set[instance] {
            place(count, index)
        } else {
            None
        };
    }
    row
}
