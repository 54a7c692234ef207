//! Vectors that read 0 where nothing was written, and grow where something is.
ghost use Rattle.std.specs.Prelude.{◌≡◌, ◌<◌, ◌≤◌, ℕ, length, slice_index_or, OnErr, OnOk};
ghost use Rattle.isp_base.specs.Maps.{lane_of, put};
ghost use Rattle.isp_gang_values.specs.Growing.{lanes_of, values_of};

use crate::row::Lanes;
use crate::sets::WIDEST;
use std::alloc::{AllocError, Global};

/// The number at a place, 0 past the end.
pub fn at(values: &[u64], place: usize) -> u64
    ensures { result ≡ values_of values.now place }
{
    if place < values.len() {
        values[place]
    } else {
        0
    }
}

/// Writes the number at a place; a vector whose memory is refused reads as before.
pub fn put(values: &mut Vec<u64>, place: usize, bits: u64) -> Result<(), AllocError>
    ensures ok { OnOk result (values_of values.new.items ≡ put (values_of values.old.items) place bits) }
    ensures same { OnErr result (values_of values.new.items ≡ values_of values.old.items) }
{
    for _next in values.len()..place {
        values.push(0)?;
    }
    if place < values.len() {
        values[place] = bits;
    } else {
        values.push(bits)?;
    }
    Ok(())
}

/// The lanes at a place, zeros past the end.
pub fn lanes_at(values: &[Lanes], place: usize) -> Lanes
    ensures { lane_of result ≡ lanes_of values.now place }
{
    if place < values.len() {
        values[place]
    } else {
        [0; WIDEST]
    }
}

/// Writes the lanes at a place; a vector whose memory is refused reads as before.
pub fn put_lanes(values: &mut Vec<Lanes>, place: usize, lanes: &Lanes) -> Result<(), AllocError>
    ensures ok { OnOk result (lanes_of values.new.items ≡ put (lanes_of values.old.items) place (lane_of lanes.now)) }
    ensures same { OnErr result (lanes_of values.new.items ≡ lanes_of values.old.items) }
{
    for _next in values.len()..place {
        values.push([0; WIDEST])?;
    }
    if place < values.len() {
        values[place] = *lanes;
    } else {
        values.push(*lanes)?;
    }
    Ok(())
}
