//! What the code of `foreach_unique` has besides its body.
ghost use Rattle.std.specs.Prelude.{◌≡◌, ◌<◌, ◌+◌, [], OnOk};
ghost use Rattle.isp_base.specs.declared.operators.Compare.TheVariants.{Equal};
ghost use Rattle.isp_base.specs.declared.types.Rate.TheVariants.{Varying};
ghost use Rattle.isp_code.specs.declared.instr.Reduction.TheVariants as reduction;
ghost use Rattle.isp_typed.specs.Typed.{elem_of};
ghost use Rattle.isp_typed.specs.Views.{expr_of};
ghost use Rattle.isp_lower_code.specs.Instructions.{compare};
ghost use Rattle.isp_lower.specs.Emitted.{Appends, Present, layout};
ghost use Rattle.isp_lower_code.specs.Library.{reduce};
ghost use Rattle.isp_lower.specs.Written.{Writes as Adds};
ghost use Rattle.isp_masks_code.specs.Asks.{unique_asks};
ghost use Rattle.isp_masks_code.specs.Rounds.{value_code, values_of};
ghost use Rattle.isp_masks.specs.Written.{kept_at};

use crate::looping::copy_mask;
use crate::masks::Spot;
use crate::ranges::{converted, spread};
use crate::rounds::lowest_mask;
use isp_base::{Compare, Elem, Rate, Ty};
use isp_code::{Instr, Reduction, ScalarInstr, VectorInstr};
use isp_lower::{Body, Scope, copy, mask, operand, scalar, the_others, vector, where_so};
use isp_masks_reserve::Unique;
use isp_registers::{MaskNumber, RegisterNumber, Slot};
use isp_typed::TypedExpr;
use std::alloc::AllocError;

/// A scalar gets the least of what the lanes have.
fn least(to: RegisterNumber, from: RegisterNumber, k: MaskNumber) -> Instr
    ensures { result ≡ reduce reduction.Min to.number from.number k.number }
{
    Instr::Scalar {
        result: scalar(to),
        instr: ScalarInstr::Reduce {
            op: Reduction::Min,
            vector: vector(from),
            mask: mask(k),
        },
    }
}

/// Each lane gets whether it has the same in two vectors.
fn same_lanes(
    to: RegisterNumber,
    left: RegisterNumber,
    right: RegisterNumber,
    k: MaskNumber,
) -> Instr
    ensures { result ≡ compare Varying Equal to.number left.number right.number k.number }
{
    Instr::Vector {
        result: vector(to),
        instr: VectorInstr::Compare {
            op: Compare::Equal,
            left: vector(left),
            right: vector(right),
            mask: mask(k),
        },
    }
}

/// The values are kept where the body writes nothing, and the turn of each lane is still to come.
pub(crate) fn keep_values(
    b: &mut Body,
    on: &Scope,
    it: Unique<'_>,
    spot: Spot,
) -> Result<(), AllocError>
    requires { Present on.now (unique_asks it.index it.elem (expr_of it.value.now) spot.slot.number) }
    ensures { OnOk result (Adds b.old b.new (kept_at on.now (expr_of it.entry.value.now) spot.masks.on.number spot.slot.number)) }
{
    let from = operand(b, on, Rate::Varying, it.value, spot.site())?;
    let to = on.spare(Rate::Varying, it.value.ty().elem, spot.slot);
    b.push(copy(Rate::Varying, to, from, spot.masks.on))?;
    b.push(copy_mask(spot.slot.mask(), spot.masks.on))?;
    Ok(())
}

/// The value of a slot's lowest lane is that of the turn, and the lanes that have it leave the slot's mask for the mask after.
pub(crate) fn take_value(
    b: &mut Body,
    on: &Scope,
    it: Unique<'_>,
    slot: Slot,
) -> Result<(), AllocError>
    requires slots { slot.number + 1 + 3 < 4294967296 }
    requires own { Present on.now (unique_asks it.index it.elem (expr_of it.value.now) slot.number) }
    ensures { OnOk result (Appends b.old b.new (λ pc p. value_code (values_of (layout on.now) (elem_of (expr_of it.entry.value.now)) it.entry.index slot.number) slot.number) []) }
{
    let elem = it.value.ty().elem;
    let ty = Ty {
        rate: Rate::Uniform,
        elem: it.elem,
    };
    let next = slot.next();
    let (left, own) = (slot.mask(), next.mask());
    let all = on.spare(Rate::Varying, elem, slot);
    let one = on.spare(Rate::Uniform, elem, next);
    let each = on.spare(Rate::Varying, elem, next);
    let same = on.spare(Rate::Varying, Elem::Bool, slot.plus(2));
    b.push(lowest_mask(own, left))?;
    b.push(least(one, all, own))?;
    b.push(converted(on.variable(it.index, ty), one))?;
    b.push(spread(each, one, left))?;
    b.push(same_lanes(same, all, each, left))?;
    b.push(where_so(own, same, left))?;
    b.push(the_others(left, left, own))?;
    Ok(())
}
