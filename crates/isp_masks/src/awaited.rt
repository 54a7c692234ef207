//! Jumps to the end of a block, which are written once the end is known.
ghost use Rattle.std.specs.Prelude.{◌≡◌, length, OnOk};
ghost use Rattle.isp_lower_code.specs.Instructions.{jump_off};
ghost use Rattle.isp_masks.specs.Awaited.{AreBelow, LeavesRoom, set_all};

use isp_code::{Instr, JumpTest};
use isp_lower::{Body, mask};
use isp_registers::MaskNumber;
use std::alloc::AllocError;

/// Keeps room for a jump where a mask has no lane, if some may have left it.
pub(crate) fn leave_room(
    b: &mut Body,
    jumps: &mut Vec<usize>,
    left: bool,
    k: MaskNumber,
) -> Result<(), AllocError>
    ensures { OnOk result (LeavesRoom b.old b.new jumps.old.items jumps.new.items k.number left) }
{
    if left {
        jumps.push(b.code.len())?;
        b.push(Instr::JumpIf {
            test: JumpTest::Off,
            register: mask(k),
            target: 0,
        })?;
    }
    Ok(())
}

/// Writes the jumps, which lead to the next instruction.
pub(crate) fn land_all(b: &mut Body, jumps: &[usize], k: MaskNumber)
    requires { AreBelow (length b.old.code.items) jumps.now }
    ensures code { b.new.code.items ≡ set_all b.old.code.items jumps.now (jump_off k.number (length b.old.code.items)) }
    ensures places { b.new.places ≡ b.old.places }
    ensures texts { b.new.texts ≡ b.old.texts }
{
    for at in jumps {
        b.land(*at, JumpTest::Off, mask(k));
    }
}
