//! What indices mean, and what is found at them.
ghost use Rattle.std.specs.Prelude.{◌≡◌};
ghost use Rattle.isp_base.specs.Access as Access;
ghost use Rattle.isp_base.specs.Maps.{each1, map1, where_true};
ghost use Rattle.isp_base.specs.Sets.{flag_of};
ghost use Rattle.isp_meaning.specs.Payloads.{mapped};
ghost use Rattle.isp_gang_values.specs.Seen.{map_of, payload_of};
ghost use Rattle.isp_gang_arrays.specs.Stores.{own_of, stores_of};

use crate::stores::{element_at, own_at};
use isp_base::{Elem, UnaryOp, apply_unary, number};
use isp_gang_values::computed::Computed;
use isp_gang_values::row::{Lanes, Row};
use isp_gang_values::sets::{Active, WIDEST};

/// Whether an index is outside an array of so many elements.
pub fn is_outside(elem: Elem, count: usize, bits: u64) -> bool
    ensures { result ≡ Access.is_outside elem count bits }
{
    let index = number(elem, bits);
    index < 0 || index >= count as i128
}

/// The element that an index inside its array means.
#[tactic(auto, using(crate::proofs::Elements::absolute_bits))]
pub fn element(elem: Elem, bits: u64) -> usize
    ensures { result ≡ Access.element elem bits }
{
    apply_unary(UnaryOp::Absolute, elem, bits) as usize
}

/// The instances whose index is outside an array of so many elements.
#[tactic(auto, using(isp_gang_values::proofs::Rows::where_made))]
pub fn where_outside(elem: Elem, count: usize, row: &Row) -> Active
    ensures { flag_of result ≡ where_true (Access.is_outside elem count) (map_of row.now) }
{
    let mut set = [false; WIDEST];
    for instance in 0..WIDEST {
        set[instance] = match row[instance] {
            Some(bits) => is_outside(elem, count, bits),
            None => false,
        };
    }
    set
}

/// The elements that the indices mean.
pub fn places(elem: Elem, index: &Computed) -> Computed
    ensures { payload_of result ≡ mapped (Access.element elem) (payload_of index.now) }
{
    match index {
        Computed::One(bits) => Computed::One(element(elem, *bits) as u64),
        Computed::Each(row) => Computed::Each(place_row(elem, row)),
    }
}

// Likewise of a row.
#[tactic(auto, using(isp_gang_values::proofs::Rows::map1_made))]
fn place_row(elem: Elem, indices: &Row) -> Row
    ensures { map_of result ≡ map1 (Access.element elem) (map_of indices.now) }
{
    let mut row = [None; WIDEST];
    for instance in 0..WIDEST {
        row[instance] = match indices[instance] {
            Some(bits) => Some(element(elem, bits) as u64),
            None => None,
        };
    }
    row
}

/// The elements of a store at the indices.
#[tactic(auto, using(isp_gang_values::proofs::Rows::map1_made))]
pub fn picked(stores: &[Vec<u64>], store: usize, elem: Elem, indices: &Row) -> Row
    ensures { map_of result ≡ map1 (λ x. stores_of stores.now store (Access.element elem x)) (map_of indices.now) }
{
    let mut row = [None; WIDEST];
    for instance in 0..WIDEST {
        row[instance] = match indices[instance] {
            Some(bits) => Some(element_at(stores, store, element(elem, bits))),
            None => None,
        };
    }
    row
}

/// Each instance's own element at its index.
#[tactic(auto, using(crate::proofs::Puts::own_made))]
pub fn picked_own(arrays: &[Vec<Lanes>], array: usize, elem: Elem, indices: &Row) -> Row
    ensures { map_of result ≡ (λ p. each1 (λ x. own_of arrays.now array (Access.element elem x) p) (map_of indices.now p)) }
{
    let mut row = [None; WIDEST];
    for instance in 0..WIDEST {
        row[instance] = match indices[instance] {
            Some(bits) => {
                let lanes = own_at(arrays, array, element(elem, bits));
                Some(lanes[instance])
            }
            None => None,
        };
    }
    row
}
