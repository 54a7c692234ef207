//! The registers and masks that the code of statements asks for, before it is written.
ghost use Rattle.std.specs.Prelude.{◌≡◌, ◌+◌, option_map, OnOk, IfOk};
ghost use Rattle.isp_typed.specs.Typed.{t_exprs};
ghost use Rattle.isp_typed.specs.Views.{block_of, expr_of, exprs_of, first_of, simple_of, stmt_of, ranges_of};
ghost use Rattle.isp_lower_code.specs.Asks.{Both, expr_asks, values_asks};
ghost use Rattle.isp_lower_code.specs.Room.{HasNumbers};
ghost use Rattle.isp_registers.specs.Reserved.{Gives};
ghost use Rattle.isp_masks_code.specs.Asks.{answer_asks, assert_asks, block_asks, first_asks, if_asks, if_else_asks, loop_asks, mask_asks, part_asks, part_slot, step_asks, stmt_asks, test_part_asks, turn_asks, turns_asks, ranges_asks, unique_asks};
ghost use Rattle.isp_masks_code.specs.Prints.{own_rates};
ghost use Rattle.isp_masks_code.specs.Ranges.{runs_slot};

use crate::parts::{Condition, Unique};
use crate::ranges_reserved::{bounds, measures, places};
use isp_base::{Elem, Rate, Ty};
use isp_registers::{Reserve, Slot};
use isp_tree::Form;
use isp_typed::{TypedBlock, TypedExpr, TypedFirst, TypedRange, TypedSimple, TypedStmt};
use std::alloc::AllocError;

/// What the code of a statement asks for, in the slots from one on.
#[cycle(stmt)]
fn stmt(r: &mut Reserve, x: &TypedStmt, answer: Option<Ty>, slot: Slot) -> Result<(), AllocError>
    requires { HasNumbers (stmt_asks answer (stmt_of x.now) slot.number) }
    ensures { OnOk result (Gives r.old r.new (stmt_asks answer (stmt_of x.now) slot.number)) }
{
    match x {
        TypedStmt::Block(inner) => block(r, inner, answer, slot),
        TypedStmt::Declare { items, .. } => r.items(items, slot),
        TypedStmt::Simple { simple, .. } => r.simple(simple, slot),
        TypedStmt::If {
            form,
            test,
            then,
            ..
        } => one_side(r, Condition { form: *form, test }, then, answer, slot),
        TypedStmt::IfElse {
            test,
            then,
            otherwise,
            ..
        } => two_sides(r, test, then, otherwise, answer, slot),
        TypedStmt::Return { value, .. } => match value {
            Some(x) => returned(r, x, answer, slot),
            None => Ok(()),
        },
        TypedStmt::While { test, body, .. } => while_loop(r, test, body, answer, slot),
        TypedStmt::Do { body, test, .. } => do_loop(r, body, test, answer, slot),
        TypedStmt::For {
            first,
            test,
            step,
            body,
            ..
        } => {
            first_part(r, first, slot)?;
            turns(r, test, step, body, answer, slot)
        }
        TypedStmt::ForeachActive { index, body, .. } => active_loop(r, *index, body, answer, slot),
        TypedStmt::ForeachUnique {
            index,
            elem,
            value,
            body,
            ..
        } => {
            let it = Unique {
                index: *index,
                elem: *elem,
                value,
            };
            unique_loop(r, it, body, answer, slot)
        }
        TypedStmt::Unmasked { body, .. } => unmasked(r, body, answer, slot),
        TypedStmt::Foreach { ranges, body, .. } => range_loop(r, ranges, body, answer, slot),
        TypedStmt::Print { values, .. } => printed(r, values, slot),
        TypedStmt::Assert { test, .. } => asserted(r, test, slot),
        TypedStmt::Jump { .. } => Ok(()),
    }
}

/// What the code of a block asks for.
#[cycle(stmt)]
pub fn block(
    r: &mut Reserve,
    body: &TypedBlock,
    answer: Option<Ty>,
    slot: Slot,
) -> Result<(), AllocError>
    requires { HasNumbers (block_asks answer (block_of body.now) slot.number) }
    ensures { OnOk result (Gives r.old r.new (block_asks answer (block_of body.now) slot.number)) }
{
    for x in &body.statements {
        stmt(r, x, answer, slot)?;
    }
    Ok(())
}

/// A value that is returned, at the rate of what the function gives back.
fn returned(
    r: &mut Reserve,
    x: &TypedExpr,
    answer: Option<Ty>,
    slot: Slot,
) -> Result<(), AllocError>
    requires { HasNumbers (answer_asks answer (expr_of x.now) slot.number) }
    ensures { OnOk result (Gives r.old r.new (answer_asks answer (expr_of x.now) slot.number)) }
{
    match answer {
        None => r.expr(x, slot),
        Some(ty) => r.operand(ty.rate, x, slot),
    }
}

/// The test of an `assert`, and a mask for those for which it is false.
fn asserted(r: &mut Reserve, test: &TypedExpr, slot: Slot) -> Result<(), AllocError>
    requires { HasNumbers (assert_asks (expr_of test.now) slot.number) }
    ensures { OnOk result (Gives r.old r.new (assert_asks (expr_of test.now) slot.number)) }
{
    r.expr(test, slot)?;
    r.test(test.ty().rate, slot);
    Ok(())
}

/// The values of a `print`, each in a slot of its own.
fn printed(r: &mut Reserve, all: &[TypedExpr], slot: Slot) -> Result<(), AllocError>
    requires { HasNumbers (values_asks (own_rates (exprs_of all.now)) (t_exprs (exprs_of all.now)) slot.number) }
    ensures { OnOk result (Gives r.old r.new (values_asks (own_rates (exprs_of all.now)) (t_exprs (exprs_of all.now)) slot.number)) }
{
    let mut at = slot;
    for x in all {
        let next = r.next(at);
        r.operand(x.ty().rate, x, at)?;
        at = next;
    }
    Ok(())
}

/// A mask, and the slot after it.
fn behind(r: &mut Reserve, slot: Slot) -> Slot
    requires { HasNumbers (mask_asks slot.number) }
    ensures number { result.number ≡ slot.number + 1 }
    ensures gives { Gives r.old r.new (mask_asks slot.number) }
{
    let next = r.next(slot);
    r.mask(slot);
    next
}

/// Two masks, and the slot after them.
fn behind_two(r: &mut Reserve, slot: Slot) -> Slot
    requires { HasNumbers (Both (mask_asks slot.number) (mask_asks (slot.number + 1))) }
    ensures number { result.number ≡ slot.number + 1 + 1 }
    ensures gives { Gives r.old r.new (Both (mask_asks slot.number) (mask_asks (slot.number + 1))) }
{
    let next = behind(r, slot);
    let last = behind(r, next);
    last
}

/// The slot of the parts after a test.
fn part(r: &mut Reserve, form: Form, rate: Rate, slot: Slot) -> Slot
    requires { HasNumbers (part_asks form rate slot.number) }
    ensures number { result.number ≡ part_slot form rate slot.number }
    ensures gives { Gives r.old r.new (part_asks form rate slot.number) }
{
    match (rate, form) {
        (Rate::Uniform, _) => slot,
        (Rate::Varying, Form::Plain) => behind(r, slot),
        (Rate::Varying, Form::Coherent) => behind_two(r, slot),
    }
}

#[cycle(stmt)]
fn one_side(
    r: &mut Reserve,
    by: Condition<'_>,
    then: &TypedStmt,
    answer: Option<Ty>,
    slot: Slot,
) -> Result<(), AllocError>
    requires { HasNumbers (if_asks by.form (expr_of by.test.now) slot.number (λ i. stmt_asks answer (stmt_of then.now) i)) }
    ensures { OnOk result (Gives r.old r.new (if_asks by.entry.form (expr_of by.entry.test.now) slot.number (λ i. stmt_asks answer (stmt_of then.now) i))) }
{
    let rate = by.test.ty().rate;
    r.expr(by.test, slot)?;
    let next = part(r, by.form, rate, slot);
    stmt(r, then, answer, next)?;
    Ok(())
}

/// Two parts keep two masks in each form.
#[cycle(stmt)]
fn two_sides(
    r: &mut Reserve,
    test: &TypedExpr,
    then: &TypedStmt,
    otherwise: &TypedStmt,
    answer: Option<Ty>,
    slot: Slot,
) -> Result<(), AllocError>
    requires { HasNumbers (if_else_asks (expr_of test.now) slot.number (λ i. Both (stmt_asks answer (stmt_of then.now) i) (stmt_asks answer (stmt_of otherwise.now) i))) }
    ensures { OnOk result (Gives r.old r.new (if_else_asks (expr_of test.now) slot.number (λ i. Both (stmt_asks answer (stmt_of then.now) i) (stmt_asks answer (stmt_of otherwise.now) i)))) }
{
    let rate = test.ty().rate;
    r.expr(test, slot)?;
    let next = part(r, Form::Coherent, rate, slot);
    stmt(r, then, answer, next)?;
    stmt(r, otherwise, answer, next)?;
    Ok(())
}

/// The masks of a loop, and the slot of its parts.
fn own(r: &mut Reserve, slot: Slot) -> Slot
    requires { HasNumbers (loop_asks slot.number) }
    ensures number { result.number ≡ slot.number + 3 }
    ensures gives { Gives r.old r.new (loop_asks slot.number) }
{
    r.mask(slot);
    r.mask(slot.plus(1));
    r.mask(slot.plus(2));
    slot.plus(3)
}

#[cycle(stmt)]
fn while_loop(
    r: &mut Reserve,
    test: &TypedExpr,
    body: &TypedStmt,
    answer: Option<Ty>,
    slot: Slot,
) -> Result<(), AllocError>
    requires { HasNumbers (Both (loop_asks slot.number) (Both (expr_asks (expr_of test.now) (slot.number + 3)) (stmt_asks answer (stmt_of body.now) (slot.number + 3)))) }
    ensures { OnOk result (Gives r.old r.new (Both (loop_asks slot.number) (Both (expr_asks (expr_of test.now) (slot.number + 3)) (stmt_asks answer (stmt_of body.now) (slot.number + 3))))) }
{
    let parts = own(r, slot);
    r.expr(test, parts)?;
    stmt(r, body, answer, parts)?;
    Ok(())
}

#[cycle(stmt)]
fn do_loop(
    r: &mut Reserve,
    body: &TypedStmt,
    test: &TypedExpr,
    answer: Option<Ty>,
    slot: Slot,
) -> Result<(), AllocError>
    requires { HasNumbers (Both (loop_asks slot.number) (Both (stmt_asks answer (stmt_of body.now) (slot.number + 3)) (expr_asks (expr_of test.now) (slot.number + 3)))) }
    ensures { OnOk result (Gives r.old r.new (Both (loop_asks slot.number) (Both (stmt_asks answer (stmt_of body.now) (slot.number + 3)) (expr_asks (expr_of test.now) (slot.number + 3))))) }
{
    let parts = own(r, slot);
    stmt(r, body, answer, parts)?;
    r.expr(test, parts)?;
    Ok(())
}

/// `unmasked`.
#[cycle(stmt)]
fn unmasked(
    r: &mut Reserve,
    body: &TypedBlock,
    answer: Option<Ty>,
    slot: Slot,
) -> Result<(), AllocError>
    requires { HasNumbers (Both (loop_asks slot.number) (block_asks answer (block_of body.now) (slot.number + 3))) }
    ensures { OnOk result (Gives r.old r.new (Both (loop_asks slot.number) (block_asks answer (block_of body.now) (slot.number + 3)))) }
{
    let parts = own(r, slot);
    block(r, body, answer, parts)?;
    Ok(())
}

/// `foreach_active`, whose index has a register from the beginning: those whose turn is still to come, and the masks of a turn.
#[cycle(stmt)]
fn active_loop(
    r: &mut Reserve,
    index: usize,
    body: &TypedStmt,
    answer: Option<Ty>,
    slot: Slot,
) -> Result<(), AllocError>
    requires { HasNumbers (Both (turn_asks index slot.number) (stmt_asks answer (stmt_of body.now) (slot.number + 1 + 3))) }
    ensures { OnOk result (Gives r.old r.new (Both (turn_asks index slot.number) (stmt_asks answer (stmt_of body.now) (slot.number + 1 + 3)))) }
{
    let one = r.next(slot);
    r.mask(slot);
    let parts = own(r, one);
    stmt(r, body, answer, parts)?;
    Ok(())
}

/// What a `foreach_unique` asks for besides its body, and the slot of the body. Its index has a register from the beginning.
fn unique(r: &mut Reserve, it: Unique<'_>, slot: Slot) -> Result<Slot, AllocError>
    requires { HasNumbers (unique_asks it.index it.elem (expr_of it.value.now) slot.number) }
    ensures number { IfOk result (λ n. n.number ≡ slot.number + 1 + 3) }
    ensures gives { OnOk result (Gives r.old r.new (unique_asks it.entry.index it.entry.elem (expr_of it.entry.value.now) slot.number)) }
{
    let elem = it.value.ty().elem;
    r.operand(Rate::Varying, it.value, slot)?;
    r.spare(Rate::Varying, elem, slot)?;
    let one = r.next(slot);
    r.spare(Rate::Uniform, elem, one)?;
    r.spare(Rate::Varying, elem, one)?;
    let second = r.next(one);
    r.spare(Rate::Varying, Elem::Bool, second)?;
    r.mask(slot);
    let parts = own(r, one);
    Ok(parts)
}

/// `foreach_unique`.
#[cycle(stmt)]
fn unique_loop(
    r: &mut Reserve,
    it: Unique<'_>,
    body: &TypedStmt,
    answer: Option<Ty>,
    slot: Slot,
) -> Result<(), AllocError>
    requires { HasNumbers (Both (unique_asks it.index it.elem (expr_of it.value.now) slot.number) (stmt_asks answer (stmt_of body.now) (slot.number + 1 + 3))) }
    ensures { OnOk result (Gives r.old r.new (Both (unique_asks it.entry.index it.entry.elem (expr_of it.entry.value.now) slot.number) (stmt_asks answer (stmt_of body.now) (slot.number + 1 + 3)))) }
{
    let parts = unique(r, it, slot)?;
    stmt(r, body, answer, parts)?;
    Ok(())
}

/// What a `foreach` asks for besides its body, and the slot of the body.
fn ranges(r: &mut Reserve, all: &[TypedRange], slot: Slot) -> Result<Slot, AllocError>
    requires { HasNumbers (ranges_asks (ranges_of all.now) slot.number) }
    ensures number { IfOk result (λ n. n.number ≡ runs_slot slot.number (ranges_of all.now) + 3) }
    ensures gives { OnOk result (Gives r.old r.new (ranges_asks (ranges_of all.now) slot.number)) }
{
    let first = measures(r, slot)?;
    let behind = bounds(r, all, first)?;
    let masks = places(r, all, behind)?;
    let parts = own(r, masks);
    Ok(parts)
}

/// `foreach`, whose indices have registers from the beginning.
#[cycle(stmt)]
fn range_loop(
    r: &mut Reserve,
    all: &[TypedRange],
    body: &TypedStmt,
    answer: Option<Ty>,
    slot: Slot,
) -> Result<(), AllocError>
    requires { HasNumbers (Both (ranges_asks (ranges_of all.now) slot.number) (stmt_asks answer (stmt_of body.now) (runs_slot slot.number (ranges_of all.now) + 3))) }
    ensures { OnOk result (Gives r.old r.new (Both (ranges_asks (ranges_of all.now) slot.number) (stmt_asks answer (stmt_of body.now) (runs_slot slot.number (ranges_of all.now) + 3)))) }
{
    let parts = ranges(r, all, slot)?;
    stmt(r, body, answer, parts)?;
    Ok(())
}

/// A `for` after its first part.
#[cycle(stmt)]
fn turns(
    r: &mut Reserve,
    test: &Option<TypedExpr>,
    step: &Option<TypedSimple>,
    body: &TypedStmt,
    answer: Option<Ty>,
    slot: Slot,
) -> Result<(), AllocError>
    requires { HasNumbers (turns_asks (option_map expr_of test.now) (option_map simple_of step.now) slot.number (λ i. stmt_asks answer (stmt_of body.now) i)) }
    ensures { OnOk result (Gives r.old r.new (turns_asks (option_map expr_of test.now) (option_map simple_of step.now) slot.number (λ i. stmt_asks answer (stmt_of body.now) i))) }
{
    let parts = own(r, slot);
    test_part(r, test, parts)?;
    step_part(r, step, parts)?;
    stmt(r, body, answer, parts)?;
    Ok(())
}

/// The first part of a `for`.
fn first_part(r: &mut Reserve, first: &Option<TypedFirst>, slot: Slot) -> Result<(), AllocError>
    requires { HasNumbers (first_asks (option_map first_of first.now) slot.number) }
    ensures { OnOk result (Gives r.old r.new (first_asks (option_map first_of first.now) slot.number)) }
{
    match first {
        None => Ok(()),
        Some(TypedFirst::Declare { items, .. }) => r.items(items, slot),
        Some(TypedFirst::Simple(x)) => r.simple(x, slot),
    }
}

/// The test of a `for`.
fn test_part(r: &mut Reserve, test: &Option<TypedExpr>, slot: Slot) -> Result<(), AllocError>
    requires { HasNumbers (test_part_asks (option_map expr_of test.now) slot.number) }
    ensures { OnOk result (Gives r.old r.new (test_part_asks (option_map expr_of test.now) slot.number)) }
{
    match test {
        None => Ok(()),
        Some(x) => r.expr(x, slot),
    }
}

/// The step of a `for`.
fn step_part(r: &mut Reserve, step: &Option<TypedSimple>, slot: Slot) -> Result<(), AllocError>
    requires { HasNumbers (step_asks (option_map simple_of step.now) slot.number) }
    ensures { OnOk result (Gives r.old r.new (step_asks (option_map simple_of step.now) slot.number)) }
{
    match step {
        None => Ok(()),
        Some(x) => r.simple(x, slot),
    }
}
