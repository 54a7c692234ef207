//! The arrays that a function opens.
ghost use Rattle.std.specs.Prelude.{◌≡◌, ◌≤◌, ◌++◌, [], List, length, map, IfOk, OnOk, OnErr};
ghost use Rattle.isp_base.specs.Rows.{Row};
ghost use Rattle.isp_frames.specs.Begun.{new_stores, if_store, zero_store, local_arrays, local_array, seen_array};

use crate::array::FrameArray;
use isp_code::{Local, Sharing};
use isp_store::{Arrays, LaneArray};
use std::alloc::{AllocError, Global};

// A local array: the next store, or an array of its own for each lane.
fn open_one<const N: usize>(
    alloc: Global,
    stores: &mut Arrays,
    local: Local,
) -> Result<FrameArray<N>, AllocError>
    requires { N ≤ 64 }
    ensures array { IfOk result (λ a. seen_array a ≡ local_array (length stores.old.rows) local) }
    ensures stores { OnOk result (stores.new ≡ record stores.old { rows = stores.old.rows ++ if_store local.sharing (zero_store local) [] }) }
    ensures err { OnErr result (stores.new ≡ stores.old) }
{
    let store = stores.count();
    match local.sharing {
        Sharing::Shared => {
            stores.open_local(local.elem, local.size as usize)?;
            Ok(FrameArray::new(store, None))
        }
        Sharing::PerInstance => {
            let own = LaneArray::new(alloc, local.elem, local.size as usize)?;
            Ok(FrameArray::new(store, Some(own)))
        }
    }
}

// Opens the arrays one by one, up to the first that is refused.
fn open_each<const N: usize>(
    alloc: Global,
    stores: &mut Arrays,
    arrays: &mut Vec<FrameArray<N>>,
    locals: &[Local],
) -> Result<(), AllocError>
    requires { N ≤ 64 }
    ensures stores { OnOk result (stores.new ≡ record stores.old { rows = stores.old.rows ++ new_stores locals.now }) }
    ensures arrays { OnOk result (map seen_array arrays.new.items ≡ map seen_array arrays.old.items ++ local_arrays (length stores.old.rows) locals.now) }
    ensures err { OnErr result ((some : List Row) × (stores.new ≡ record stores.old { rows = stores.old.rows ++ some })) }
{
    for local in locals {
        arrays.push(open_one(alloc, stores, *local)?)?;
    }
    Ok(())
}

/// Opens the local arrays of a function, all zero, and adds them after those that it is passed.
/// Where memory is refused no store is open that was not.
pub fn open_locals<const N: usize>(
    alloc: Global,
    stores: &mut Arrays,
    arrays: &mut Vec<FrameArray<N>>,
    locals: &[Local],
) -> Result<(), AllocError>
    requires { N ≤ 64 }
    ensures stores { OnOk result (stores.new ≡ record stores.old { rows = stores.old.rows ++ new_stores locals.now }) }
    ensures arrays { OnOk result (map seen_array arrays.new.items ≡ map seen_array arrays.old.items ++ local_arrays (length stores.old.rows) locals.now) }
    ensures err { OnErr result (stores.new ≡ stores.old) }
{
    let before = stores.locals();
    match open_each(alloc, stores, arrays, locals) {
        Ok(()) => Ok(()),
        Err(error) => {
            stores.close_locals(before);
            Err(error)
        }
    }
}
