//! The text of a vector.
ghost use Rattle.std.specs.Prelude.{◌≡◌, ◌<◌, IfOk};
ghost use Rattle.isp_base.specs.Maps.{lane_of, on};
ghost use Rattle.isp_base.specs.Prints.{list_text};
ghost use Rattle.isp_base.specs.Sets.{flag_of};

use isp_lanes::{LaneMask, Lanes};
use isp_prints::{push_comma, push_item};
use std::alloc::{AllocError, Global};

// The value of a lane, if it is one of the mask.
fn value_on<const N: usize>(lanes: &Lanes<N>, mask: &LaneMask<N>, lane: usize) -> Option<u64>
    requires { lane < N }
    ensures { result ≡ on (flag_of mask.now) (lane_of lanes.now.bits) lane }
{
    if mask.get(lane) {
        Some(lanes.get(lane))
    } else {
        None
    }
}

/// The values of the lanes of a mask, in brackets, with `_` for each other lane.
pub fn list_text<const N: usize>(
    alloc: Global,
    lanes: &Lanes<N>,
    mask: &LaneMask<N>,
) -> Result<Vec<u8>, AllocError>
    ensures { IfOk result (λ text. text.items ≡ list_text lanes.now.elem N (on (flag_of mask.now) (lane_of lanes.now.bits))) }
{
    let mut text = Vec::from_slice(alloc, b"[")?;
    for lane in 0..N {
        push_comma(&mut text, lane)?;
        push_item(&mut text, lanes.elem(), value_on(lanes, mask, lane))?;
    }
    text.extend_from_slice(b"]")?;
    Ok(text)
}
