//! What the code of statements has whose body runs over sets of its own, besides the body.
ghost use Rattle.std.specs.Prelude.{◌≡◌, ◌<◌, ◌+◌, [], OnOk};
ghost use Rattle.isp_lower.specs.Emitted.{Appends};
ghost use Rattle.isp_masks_code.specs.Rounds.{fill_mask, lane_number, lowest_mask, take_code};

use isp_code::{Instr, MaskInstr, ScalarInstr};
use isp_lower::{Body, mask, scalar, the_others};
use isp_registers::{MaskNumber, RegisterNumber, Slot};
use std::alloc::AllocError;

/// A mask gets all lanes.
pub(crate) fn fill_mask(to: MaskNumber) -> Instr
    ensures { result ≡ fill_mask to.number }
{
    Instr::Mask {
        result: mask(to),
        instr: MaskInstr::Full,
    }
}

/// A mask gets the lowest lane of another, alone.
pub(crate) fn lowest_mask(to: MaskNumber, from: MaskNumber) -> Instr
    ensures { result ≡ lowest_mask to.number from.number }
{
    Instr::Mask {
        result: mask(to),
        instr: MaskInstr::Lowest(mask(from)),
    }
}

/// A scalar gets the number of a mask's lowest lane.
fn lane_number(to: RegisterNumber, k: MaskNumber) -> Instr
    ensures { result ≡ lane_number to.number k.number }
{
    Instr::Scalar {
        result: scalar(to),
        instr: ScalarInstr::First(mask(k)),
    }
}

/// The lowest lane of a slot's mask leaves it for the mask after, and a scalar gets its number.
pub(crate) fn take_lane(b: &mut Body, to: RegisterNumber, slot: Slot) -> Result<(), AllocError>
    requires { slot.number + 1 < 4294967296 }
    ensures { OnOk result (Appends b.old b.new (λ pc p. take_code to.number slot.number) []) }
{
    let left = slot.mask();
    let one = slot.next().mask();
    b.push(lowest_mask(one, left))?;
    b.push(the_others(left, left, one))?;
    b.push(lane_number(to, one))?;
    Ok(())
}
