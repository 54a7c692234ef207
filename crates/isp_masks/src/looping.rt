//! What the code of each loop has besides its parts. The loop's first mask has the lanes that run it, the next those that
//! continued in a turn, the third those that returned.
ghost use Rattle.std.specs.Prelude.{◌≡◌, ◌<◌, ◌+◌, ◌∷◌, [], length, option_map, slice_set, OnOk};
ghost use Rattle.isp_code.specs.declared.instr.Instr.TheVariants as instr;
ghost use Rattle.isp_code.specs.declared.instr.JumpTest.TheVariants as jump;
ghost use Rattle.isp_typed.specs.Views.{expr_of};
ghost use Rattle.isp_lower_code.specs.Pieces.{guard};
ghost use Rattle.isp_lower.specs.Emitted.{Appends};
ghost use Rattle.isp_lower_code.specs.Layout.{mask_register};
ghost use Rattle.isp_masks_code.specs.Loops.{again_code, copy_mask, enter_code, if_needed, is_wide, is_wide_by, jump_all, loop_end_code, rejoin_code, sift_begin, sift_jump};
ghost use Rattle.isp_masks_code.specs.Sets.{clear_mask, unite};

use crate::masks::Masks;
use crate::sets::{clear_mask, unite};
use isp_base::Rate;
use isp_code::{Instr, JumpTest, MaskInstr};
use isp_lower::{Body, Line, Site, mask, scalar, the_others, where_so};
use isp_masks_code::Exits;
use isp_registers::{MaskNumber, RegisterNumber, Slot};
use isp_tree::Form;
use isp_typed::{TypedExpr, TypedSimple};
use std::alloc::AllocError;

/// A loop: whether it is a c-form by a varying test, who may leave its body, and its first mask.
#[derive(Clone, Copy)]
pub(crate) struct Loop {
    pub wide: bool,
    pub exits: Exits,
    pub slot: Slot,
}

/// The rate of a test, and the register of its value.
#[derive(Clone, Copy)]
pub(crate) struct Test {
    pub rate: Rate,
    pub register: RegisterNumber,
}

/// What a loop does after a turn: its step and its test, where it has them.
#[derive(Clone, Copy)]
pub(crate) struct Turning<'a> {
    pub step: Option<&'a TypedSimple>,
    pub test: Option<&'a TypedExpr>,
}

/// Whether a statement is a c-form by a varying test.
pub(crate) fn is_wide(form: Form, rate: Rate) -> bool
    ensures { result ≡ is_wide form rate }
{
    matches!((form, rate), (Form::Coherent, Rate::Varying))
}

/// Whether a loop is one, by its test.
pub(crate) fn is_wide_by(form: Form, test: Option<&TypedExpr>) -> bool
    ensures { result ≡ is_wide_by form (option_map (λ x. expr_of x.now) test.entry) }
{
    match test {
        None => false,
        Some(test) => is_wide(form, test.ty().rate),
    }
}

/// Where the test and the step of a loop work: for the lanes that run it, in the slots after its masks.
pub(crate) fn inside(slot: Slot) -> Site
    requires { slot.number + 3 < 4294967296 }
    ensures { result ≡ record { mask = record { number = slot.number }; slot = record { number = slot.number + 3 } } }
{
    Site {
        mask: slot.mask(),
        slot: slot.plus(3),
    }
}

/// The number of the next instruction.
pub(crate) fn next(b: &Body) -> usize
    ensures { result ≡ length b.now.code.items }
{
    b.code.len()
}

/// A mask gets the lanes of another.
pub(crate) fn copy_mask(to: MaskNumber, from: MaskNumber) -> Instr
    ensures { result ≡ copy_mask to.number from.number }
{
    Instr::Mask {
        result: mask(to),
        instr: MaskInstr::Copy(mask(from)),
    }
}

/// A mask gets no lane, where that is needed.
pub(crate) fn clear_where(b: &mut Body, needed: bool, to: MaskNumber) -> Result<(), AllocError>
    ensures { OnOk result (Appends b.old b.new (λ pc p. if_needed needed (clear_mask to.number ∷ [])) []) }
{
    if needed {
        b.push(clear_mask(to))?;
    }
    Ok(())
}

/// A mask gets the lanes of another besides its own, where that is needed.
pub(crate) fn join_where(
    b: &mut Body,
    needed: bool,
    to: MaskNumber,
    from: MaskNumber,
) -> Result<(), AllocError>
    ensures { OnOk result (Appends b.old b.new (λ pc p. if_needed needed (unite to.number to.number from.number ∷ [])) []) }
{
    if needed {
        b.push(unite(to, to, from))?;
    }
    Ok(())
}

/// The same, jumped past where a mask has all lanes.
pub(crate) fn join_widely(
    b: &mut Body,
    full: MaskNumber,
    needed: bool,
    to: MaskNumber,
    from: MaskNumber,
) -> Result<(), AllocError>
    ensures { OnOk result (Appends b.old b.new (λ pc p. guard (jump_all full.number) pc (λ pc1. if_needed needed (unite to.number to.number from.number ∷ []))) []) }
{
    let at = b.code.len();
    b.push(Instr::JumpIf {
        test: JumpTest::All,
        register: mask(full),
        target: 0,
    })?;
    join_where(b, needed, to, from)?;
    b.land(at, JumpTest::All, mask(full));
    Ok(())
}

/// Those that continued in a turn come back.
pub(crate) fn rejoin(b: &mut Body, it: Loop) -> Result<(), AllocError>
    requires { it.slot.number + 1 < 4294967296 }
    ensures { OnOk result (Appends b.old b.new (λ pc p. rejoin_code it.wide it.exits pc it.slot.number) []) }
{
    let live = it.slot.mask();
    let continued = it.slot.next().mask();
    if it.wide {
        join_widely(b, live, it.exits.continues, live, continued)
    } else {
        join_where(b, it.exits.continues, live, continued)
    }
}

/// A loop begins, for the lanes of a mask.
pub(crate) fn enter(b: &mut Body, exits: Exits, k: MaskNumber, slot: Slot) -> Result<(), AllocError>
    requires { slot.number + 2 < 4294967296 }
    ensures { OnOk result (Appends b.old b.new (λ pc p. enter_code exits k.number slot.number) []) }
{
    b.push(copy_mask(slot.mask(), k))?;
    clear_where(b, exits.returns, slot.plus(2).mask())?;
    Ok(())
}

/// A loop ends: those that returned leave the lanes that went on.
pub(crate) fn leave_loop(b: &mut Body, it: Loop, masks: Masks) -> Result<(), AllocError>
    requires { it.slot.number + 2 < 4294967296 }
    ensures { OnOk result (Appends b.old b.new (λ pc p. loop_end_code it.exits masks.on.number masks.returned.number it.slot.number) []) }
{
    if it.exits.returns {
        let returned = it.slot.plus(2).mask();
        b.push(the_others(masks.on, masks.on, returned))?;
        b.push(unite(masks.returned, masks.returned, returned))?;
    }
    Ok(())
}

/// Where a mask has somebody, on to another instruction.
pub(crate) fn where_some(k: MaskNumber, target: usize) -> Line
    ensures { result ≡ instr.JumpIf jump.On (mask_register k.number) target }
{
    let jump = Instr::JumpIf {
        test: JumpTest::On,
        register: mask(k),
        target: 0,
    };
    Line::naming(jump, target)
}

/// Back to the body, for those that pass a test.
pub(crate) fn again(b: &mut Body, test: Test, slot: Slot, top: usize) -> Result<(), AllocError>
    ensures { OnOk result (Appends b.old b.new (λ pc p. again_code test.rate test.register.number slot.number top) []) }
{
    match test.rate {
        Rate::Uniform => {
            let jump = Instr::JumpIf {
                test: JumpTest::True,
                register: scalar(test.register),
                target: 0,
            };
            b.add(Line::naming(jump, top))?;
        }
        Rate::Varying => {
            b.push(where_so(slot.mask(), test.register, slot.mask()))?;
            b.add(where_some(slot.mask(), top))?;
        }
    }
    Ok(())
}

/// A varying test leaves those that pass it.
pub(crate) fn sift(b: &mut Body, test: Test, slot: Slot) -> Result<(), AllocError>
    ensures { OnOk result (Appends b.old b.new (λ pc p. sift_begin test.rate test.register.number slot.number) []) }
{
    match test.rate {
        Rate::Uniform => Ok(()),
        Rate::Varying => {
            b.push(where_so(slot.mask(), test.register, slot.mask()))?;
            Ok(())
        }
    }
}

/// The jump past what follows a test, where nobody passes, leads to the next instruction.
pub(crate) fn land_sift(b: &mut Body, at: usize, test: Test, slot: Slot)
    requires { at < length b.old.code.items }
    ensures code { b.new.code.items ≡ slice_set b.old.code.items at (sift_jump test.rate test.register.number slot.number (length b.old.code.items)) }
    ensures places { b.new.places ≡ b.old.places }
    ensures texts { b.new.texts ≡ b.old.texts }
{
    match test.rate {
        Rate::Uniform => b.land(at, JumpTest::False, scalar(test.register)),
        Rate::Varying => b.land(at, JumpTest::Off, mask(slot.mask())),
    }
}
