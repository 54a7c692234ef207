//! Stores, and arrays of which each instance has its own: they read 0 where nothing was written.
ghost use Rattle.std.specs.Prelude.{◌≡◌, ◌<◌, OnOk};
ghost use Rattle.isp_base.specs.Access.{put_at, scatter};
ghost use Rattle.isp_base.specs.Maps.{lane_of, put};
ghost use Rattle.isp_base.specs.Sets.{flag_of};
ghost use Rattle.isp_base.specs.Types.{gang_width, widest};
ghost use Rattle.isp_meaning.specs.Places.{own_stored};
ghost use Rattle.isp_gang_values.specs.Growing.{lanes_of};
ghost use Rattle.isp_gang_values.specs.Seen.{map_of};
ghost use Rattle.isp_gang_arrays.specs.Stores.{own_of, put_own_at, stores_of, with_zeros};

use isp_base::Gang;
use isp_gang_values::growing::{at, lanes_at, put, put_lanes};
use isp_gang_values::row::{Lanes, Row};
use isp_gang_values::sets::{Active, WIDEST};
use std::alloc::{AllocError, Global};

/// The element of a store, 0 where there is none.
pub fn element_at(stores: &[Vec<u64>], store: usize, place: usize) -> u64
    ensures { result ≡ stores_of stores.now store place }
{
    if store < stores.len() {
        at(stores[store].as_slice(), place)
    } else {
        0
    }
}

/// Writes the element of a store.
pub fn put_element(
    alloc: Global,
    stores: &mut Vec<Vec<u64>>,
    store: usize,
    place: usize,
    bits: u64,
) -> Result<(), AllocError>
    ensures { OnOk result (stores_of stores.new.items ≡ put (stores_of stores.old.items) store (put (stores_of stores.old.items store) place bits)) }
{
    for _next in stores.len()..store {
        stores.push(Vec::new(alloc))?;
    }
    if store < stores.len() {
        put(&mut stores[store], place, bits)?;
    } else {
        let mut values = Vec::new(alloc);
        put(&mut values, place, bits)?;
        stores.push(values)?;
    }
    Ok(())
}

// Writes the element of a store where there are a place and a value.
fn put_one(
    alloc: Global,
    stores: &mut Vec<Vec<u64>>,
    store: usize,
    place: Option<u64>,
    bits: Option<u64>,
) -> Result<(), AllocError>
    ensures { OnOk result (stores_of stores.new.items ≡ put (stores_of stores.old.items) store
        (put_at place bits (stores_of stores.old.items store))) }
{
    match (place, bits) {
        (Some(place), Some(bits)) => put_element(alloc, stores, store, place as usize, bits),
        _ => Ok(()),
    }
}

/// The instances of a gang store values at their places, the highest last.
#[tactic(auto, using(crate::proofs::Puts::scatter_begins))]
pub fn put_each(
    alloc: Global,
    stores: &mut Vec<Vec<u64>>,
    store: usize,
    gang: Gang,
    places: &Row,
    values: &Row,
) -> Result<(), AllocError>
    ensures { OnOk result (stores_of stores.new.items ≡ put (stores_of stores.old.items) store
        (scatter (gang_width gang) (map_of places.now) (map_of values.now) (stores_of stores.old.items store))) }
{
    for instance in 0..gang.width() {
        put_one(alloc, stores, store, places[instance], values[instance])?;
    }
    Ok(())
}

/// All elements of a store become 0.
pub fn clear(stores: &mut [Vec<u64>], store: usize)
    ensures { stores_of stores.new ≡ put (stores_of stores.old) store (λ e. 0) }
{
    if store < stores.len() {
        stores[store].clear();
    }
}

/// The element of each instance's own array, zeros where there is none.
pub fn own_at(arrays: &[Vec<Lanes>], array: usize, place: usize) -> Lanes
    ensures { lane_of result ≡ own_of arrays.now array place }
{
    if array < arrays.len() {
        lanes_at(arrays[array].as_slice(), place)
    } else {
        [0; WIDEST]
    }
}

/// Writes the element of each instance's own array.
pub fn put_own(
    alloc: Global,
    arrays: &mut Vec<Vec<Lanes>>,
    array: usize,
    place: usize,
    lanes: &Lanes,
) -> Result<(), AllocError>
    ensures { OnOk result (own_of arrays.new.items ≡ put (own_of arrays.old.items) array
        (put (own_of arrays.old.items array) place (lane_of lanes.now))) }
{
    for _next in arrays.len()..array {
        arrays.push(Vec::new(alloc))?;
    }
    if array < arrays.len() {
        put_lanes(&mut arrays[array], place, lanes)?;
    } else {
        let mut rows = Vec::new(alloc);
        put_lanes(&mut rows, place, lanes)?;
        arrays.push(rows)?;
    }
    Ok(())
}

// Writes one instance's own element where there are a place and a value.
fn put_lane(
    alloc: Global,
    arrays: &mut Vec<Vec<Lanes>>,
    array: usize,
    instance: usize,
    place: Option<u64>,
    bits: Option<u64>,
) -> Result<(), AllocError>
    requires { instance < widest }
    ensures { OnOk result (own_of arrays.new.items ≡ put (own_of arrays.old.items) array
        (put_own_at instance place bits (own_of arrays.old.items array))) }
{
    match (place, bits) {
        (Some(place), Some(bits)) => {
            let place = place as usize;
            let mut lanes = own_at(arrays.as_slice(), array, place);
            lanes[instance] = bits;
            put_own(alloc, arrays, array, place, &lanes)?;
            Ok(())
        }
        _ => Ok(()),
    }
}

/// Each instance stores a value at its place in its own array.
pub fn put_own_each(
    alloc: Global,
    arrays: &mut Vec<Vec<Lanes>>,
    array: usize,
    places: &Row,
    values: &Row,
) -> Result<(), AllocError>
    ensures { OnOk result (own_of arrays.new.items ≡ put (own_of arrays.old.items) array
        (own_stored (map_of places.now) (map_of values.now) (own_of arrays.old.items array))) }
{
    for instance in 0..WIDEST {
        put_lane(
            alloc,
            arrays,
            array,
            instance,
            places[instance],
            values[instance],
        )?;
    }
    Ok(())
}

// Zero in the lanes of a set.
#[tactic(auto, using(crate::proofs::Puts::zeros_made))]
fn cleared(lanes: &Lanes, set: &Active) -> Lanes
    ensures { lane_of result ≡ with_zeros (flag_of set.now) (lane_of lanes.now) }
{
    let mut cleared = [0; WIDEST];
    for instance in 0..WIDEST {
        cleared[instance] = if set[instance] { 0 } else { lanes[instance] };
    }
    cleared
}

// Zero in the lanes of a set, in each element.
fn clear_lanes(rows: &mut Vec<Lanes>, set: &Active)
    ensures { lanes_of rows.new.items ≡ (λ e. with_zeros (flag_of set.now) (lanes_of rows.old.items e)) }
{
    for place in 0..rows.len() {
        rows[place] = cleared(&rows[place], set);
    }
}

/// All elements of the members' own array become 0.
pub fn clear_own(arrays: &mut [Vec<Lanes>], array: usize, set: &Active)
    ensures { own_of arrays.new ≡ put (own_of arrays.old) array (λ e. with_zeros (flag_of set.now) (own_of arrays.old array e)) }
{
    if array < arrays.len() {
        clear_lanes(&mut arrays[array], set);
    }
}
