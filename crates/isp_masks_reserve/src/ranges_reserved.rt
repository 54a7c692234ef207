//! What the code of `foreach` asks for besides its body: what all runs use, the bounds, and the places.
ghost use Rattle.std.specs.Prelude.{◌≡◌, ◌+◌, length, IfOk, OnOk};
ghost use Rattle.isp_typed.specs.Views.{expr_of, range_of, ranges_of};
ghost use Rattle.isp_lower_code.specs.Room.{HasNumbers};
ghost use Rattle.isp_registers.specs.Reserved.{Gives};
ghost use Rattle.isp_masks_code.specs.Asks.{bound_asks, bounds_asks, measures_asks, place_asks, places_asks};

use isp_base::{Elem, Rate};
use isp_registers::{Reserve, Slot};
use isp_typed::{TypedExpr, TypedRange};
use std::alloc::AllocError;

/// What all runs use, and the slot of the first bound.
pub(crate) fn measures(r: &mut Reserve, slot: Slot) -> Result<Slot, AllocError>
    requires { HasNumbers (measures_asks slot.number) }
    ensures number { IfOk result (λ n. n.number ≡ slot.number + 1 + 1) }
    ensures gives { OnOk result (Gives r.old r.new (measures_asks slot.number)) }
{
    r.spare(Rate::Uniform, Elem::I32, slot)?;
    r.spare(Rate::Varying, Elem::I32, slot)?;
    r.spare(Rate::Uniform, Elem::I64, slot)?;
    let second = r.next(slot);
    r.spare(Rate::Uniform, Elem::I32, second)?;
    r.spare(Rate::Varying, Elem::I32, second)?;
    r.spare(Rate::Uniform, Elem::I64, second)?;
    let behind = r.next(second);
    Ok(behind)
}

/// A bound, which is kept as int64.
fn bound(r: &mut Reserve, x: &TypedExpr, slot: Slot) -> Result<(), AllocError>
    requires { HasNumbers (bound_asks (expr_of x.now) slot.number) }
    ensures { OnOk result (Gives r.old r.new (bound_asks (expr_of x.now) slot.number)) }
{
    r.spare(Rate::Uniform, Elem::I64, slot)?;
    r.spare(x.ty().rate, Elem::I64, slot)?;
    r.expr(x, slot)?;
    Ok(())
}

/// The bounds of ranges, from left to right, two slots for each; and the slot after them.
pub(crate) fn bounds(r: &mut Reserve, all: &[TypedRange], slot: Slot) -> Result<Slot, AllocError>
    requires { HasNumbers (bounds_asks (ranges_of all.now) slot.number) }
    ensures number { IfOk result (λ n. n.number ≡ slot.number + length (ranges_of all.now) + length (ranges_of all.now)) }
    ensures gives { OnOk result (Gives r.old r.new (bounds_asks (ranges_of all.now) slot.number)) }
{
    let mut at = slot;
    for x in all {
        bound(r, &x.start, at)?;
        let second = r.next(at);
        bound(r, &x.end, second)?;
        at = r.next(second);
    }
    Ok(at)
}

/// A place and the last one of a full run, its index, and what its test gives; and the second of their slots.
fn place(r: &mut Reserve, x: &TypedRange, slot: Slot) -> Result<Slot, AllocError>
    requires { HasNumbers (place_asks (range_of x.now) slot.number) }
    ensures number { IfOk result (λ n. n.number ≡ slot.number + 1) }
    ensures gives { OnOk result (Gives r.old r.new (place_asks (range_of x.now) slot.number)) }
{
    r.spare(Rate::Uniform, Elem::I64, slot)?;
    let second = r.next(slot);
    r.spare(Rate::Uniform, Elem::I32, second)?;
    r.spare(Rate::Varying, Elem::I32, second)?;
    r.spare(Rate::Uniform, Elem::Bool, second)?;
    r.spare(Rate::Uniform, Elem::I64, second)?;
    r.place()?;
    Ok(second)
}

/// The places of ranges, two slots for each; and the slot after them.
pub(crate) fn places(r: &mut Reserve, all: &[TypedRange], slot: Slot) -> Result<Slot, AllocError>
    requires { HasNumbers (places_asks (ranges_of all.now) slot.number) }
    ensures number { IfOk result (λ n. n.number ≡ slot.number + length (ranges_of all.now) + length (ranges_of all.now)) }
    ensures gives { OnOk result (Gives r.old r.new (places_asks (ranges_of all.now) slot.number)) }
{
    let mut at = slot;
    for x in all {
        let second = place(r, x, at)?;
        at = r.next(second);
    }
    Ok(at)
}
