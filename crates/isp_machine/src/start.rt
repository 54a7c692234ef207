//! The first state of a run.
ghost use Rattle.std.specs.Prelude.{◌≡◌, ℕ, ◌<◌, ◌≤◌, ◌++◌, drop, length, slice_get, Some, IfOk, IfSome, IfNone};
ghost use Rattle.isp_base.specs.Arguments.{rows};
ghost use Rattle.isp_code.specs.Entries.{IsEntry};
ghost use Rattle.isp_code.specs.Listing.{Routine};
ghost use Rattle.isp_machine.specs.Starts.{NoEntryFor, Ready};

use crate::calls::begin;
use crate::run::Run;
use isp_base::{Argument, Array, Bound};
use isp_frames::frame::FrameBox;
use isp_frames::zeros::ZerosBox;
use isp_lanes::LaneMask;
use isp_store::Arrays;
use isp_verify::Verified;
use std::alloc::{AllocError, Global};

// As many arrays without elements as there are arrays among the arguments.
fn places(alloc: Global, arguments: &[Argument]) -> Result<Vec<Array>, AllocError>
    ensures { IfOk result (λ v. length v.items ≡ length (rows arguments.now)) }
{
    let mut arrays = Vec::new(alloc);
    for argument in arguments {
        if let Argument::Array(array) = argument {
            arrays.push(Array::empty(alloc, array.elem()))?;
        }
    }
    Ok(arrays)
}

/// The arrays among the arguments take their places.
pub(crate) fn hand_over(stores: &mut Arrays, bound: Bound)
    requires params { stores.old.params ≡ length (rows bound.arguments.items) }
    requires room { stores.old.params ≤ length stores.old.rows }
    ensures params { stores.new.params ≡ stores.old.params }
    ensures rows { stores.new.rows ≡ rows bound.arguments.items ++ drop stores.old.params stores.old.rows }
{
    let mut next = 0;
    for argument in bound.arguments {
        if let Argument::Array(array) = argument {
            let _count = stores.count();
            stores.set_param(next, array);
            next += 1;
        }
    }
}

/// The exported function of this name, where it takes the arguments.
pub(crate) fn entry_for(code: &Verified, entry: &str, bound: &Bound) -> Option<usize>
    ensures some { IfSome result (λ f. (h : Routine) × IsEntry code.now entry.now bound.now.arguments.items f h) }
    ensures none { IfNone result (NoEntryFor code.now entry.now bound.now.arguments.items) }
{
    let _code = code.code();
    match code.signature(entry) {
        Some(signature) if bound.has_signature(signature) => code.entry(entry),
        _ => None,
    }
}

/// The first state of a run, but for the elements of its arrays.
pub(crate) fn begun<const N: usize>(
    alloc: Global,
    code: &Verified,
    number: usize,
    arguments: &[Argument],
) -> Result<Run<N>, AllocError>
    requires few { N ≤ 64 }
    requires there { number < length code.now.routines }
    ensures { IfOk result (λ r. (g : Routine) → slice_get code.now.routines number ≡ Some g → Ready N g number arguments.now r) }
{
    let mut stores = Arrays::new(alloc, places(alloc, arguments)?);
    let zeros = ZerosBox::new(alloc)?;
    let mut frame = FrameBox::empty(alloc)?;
    frame.at.pass_run(alloc, arguments, stores.count())?;
    begin(
        alloc,
        code,
        &mut stores,
        &mut frame.at,
        number,
        &LaneMask::full(),
        &zeros.at,
    )?;
    Ok(Run {
        frame,
        waiting: Vec::new(alloc),
        stores,
        out: Vec::new(alloc),
        rooms: Vec::new(alloc),
        zeros,
    })
}
