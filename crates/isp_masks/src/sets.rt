//! Instructions on sets of lanes, and statements that lanes leave by.
ghost use Rattle.std.specs.Prelude.{◌≡◌, ◌+◌, ◌∷◌, [], length, IfOk, OnOk};
ghost use Rattle.isp_code.specs.declared.instr.Instr.TheVariants as instr;
ghost use Rattle.isp_lower_code.specs.Instructions.{the_others, where_so};
ghost use Rattle.isp_lower_code.specs.Pieces.{guard};
ghost use Rattle.isp_lower.specs.Emitted.{Appends};
ghost use Rattle.isp_masks_code.specs.Loops.{copy_mask, jump_all};
ghost use Rattle.isp_masks_code.specs.Sets.{clear_mask, jump_code, jumped_code, leave_code, unite};
ghost use Rattle.isp_masks_code.specs.Statements.{left_code};

use crate::looping::copy_mask;
use crate::masks::Masks;
use isp_code::{Instr, JumpTest, MaskInstr, MaskOp};
use isp_lower::{Body, mask, the_others, where_so};
use isp_registers::{MaskNumber, RegisterNumber};
use isp_tree::Jump;
use std::alloc::AllocError;

/// A mask gets the lanes of two.
pub(crate) fn unite(to: MaskNumber, one: MaskNumber, other: MaskNumber) -> Instr
    ensures { result ≡ unite to.number one.number other.number }
{
    Instr::Mask {
        result: mask(to),
        instr: MaskInstr::Binary {
            op: MaskOp::Or,
            left: mask(one),
            right: mask(other),
        },
    }
}

/// A mask gets no lane.
pub(crate) fn clear_mask(to: MaskNumber) -> Instr
    ensures { result ≡ clear_mask to.number }
{
    Instr::Mask {
        result: mask(to),
        instr: MaskInstr::Off,
    }
}

/// The lanes of a mask for which a test in a register is true go to another mask, and it keeps the others.
pub(crate) fn part(
    b: &mut Body,
    to: MaskNumber,
    tested: RegisterNumber,
    k: MaskNumber,
) -> Result<(), AllocError>
    ensures { OnOk result (Appends b.old b.new (λ pc p. where_so to.number tested.number k.number ∷ the_others k.number k.number to.number ∷ []) []) }
{
    b.push(where_so(to, tested, k))?;
    b.push(the_others(k, k, to))?;
    Ok(())
}

/// A mask keeps the lanes of another, the others go to a third. Room for a jump stands after, of which the number is given.
fn set_apart(
    b: &mut Body,
    to: MaskNumber,
    others: MaskNumber,
    k: MaskNumber,
) -> Result<usize, AllocError>
    ensures room { IfOk result (λ at. at ≡ length b.old.code.items + 2) }
    ensures adds { OnOk result (Appends b.old b.new (λ pc p. the_others others.number k.number to.number ∷ copy_mask k.number to.number ∷ instr.Jump 0 ∷ []) []) }
{
    let at = b.code.len() + 2;
    b.push(the_others(others, k, to))?;
    b.push(copy_mask(k, to))?;
    b.push(Instr::Jump { target: 0 })?;
    Ok(at)
}

/// The same, jumped past where the other mask has all lanes.
pub(crate) fn set_apart_unless_all(
    b: &mut Body,
    to: MaskNumber,
    others: MaskNumber,
    k: MaskNumber,
) -> Result<usize, AllocError>
    ensures room { IfOk result (λ at. at ≡ length b.old.code.items + 3) }
    ensures adds { OnOk result (Appends b.old b.new (λ pc p. guard (jump_all to.number) pc (λ pc1. the_others others.number k.number to.number ∷ copy_mask k.number to.number ∷ instr.Jump 0 ∷ [])) []) }
{
    let at = b.code.len();
    b.push(Instr::JumpIf {
        test: JumpTest::All,
        register: mask(to),
        target: 0,
    })?;
    let room = set_apart(b, to, others, k)?;
    b.land(at, JumpTest::All, mask(to));
    Ok(room)
}

/// The lanes of a mask for which a test in a register is true go to another mask, the others to a third.
pub(crate) fn part_aside(
    b: &mut Body,
    to: MaskNumber,
    others: MaskNumber,
    tested: RegisterNumber,
    k: MaskNumber,
) -> Result<(), AllocError>
    ensures { OnOk result (Appends b.old b.new (λ pc p. where_so to.number tested.number k.number ∷ the_others others.number k.number to.number ∷ []) []) }
{
    b.push(where_so(to, tested, k))?;
    b.push(the_others(others, k, to))?;
    Ok(())
}

/// What is left to do for the lanes of a mask, which jump and are in no other mask.
fn jumped(
    b: &mut Body,
    jump: Jump,
    from: MaskNumber,
    continued: MaskNumber,
) -> Result<(), AllocError>
    ensures { OnOk result (Appends b.old b.new (λ pc p. jumped_code jump from.number continued.number) []) }
{
    match jump {
        Jump::Break => Ok(()),
        Jump::Continue => {
            b.push(unite(continued, continued, from))?;
            Ok(())
        }
    }
}

/// The lanes for which a test in a register is true jump. Another mask gets them.
pub(crate) fn leave_by(
    b: &mut Body,
    jump: Jump,
    tested: RegisterNumber,
    masks: Masks,
    to: MaskNumber,
) -> Result<(), AllocError>
    ensures { OnOk result (Appends b.old b.new (λ pc p. left_code jump tested.number masks.on.number masks.continued.number to.number) []) }
{
    part(b, to, tested, masks.on)?;
    jumped(b, jump, to, masks.continued)?;
    Ok(())
}

/// The lanes of a mask leave, into another.
pub(crate) fn leave(b: &mut Body, to: MaskNumber, k: MaskNumber) -> Result<(), AllocError>
    ensures { OnOk result (Appends b.old b.new (λ pc p. leave_code to.number k.number) []) }
{
    b.push(unite(to, to, k))?;
    b.push(clear_mask(k))?;
    Ok(())
}

/// `break` and `continue`, by the lanes of a mask; those that continue go to another.
pub(crate) fn jump(b: &mut Body, jump: Jump, masks: Masks) -> Result<(), AllocError>
    ensures { OnOk result (Appends b.old b.new (λ pc p. jump_code jump masks.on.number masks.continued.number) []) }
{
    match jump {
        Jump::Break => {
            b.push(clear_mask(masks.on))?;
            Ok(())
        }
        Jump::Continue => leave(b, masks.continued, masks.on),
    }
}
