//! The code of a `for`'s first part, and what stands after a turn of a loop: the step, the test and the jump back.
ghost use Rattle.std.specs.Prelude.{◌<◌, ◌+◌, option_map, Some, false, OnOk};
ghost use Rattle.isp_typed.specs.Views.{expr_of, first_of, simple_of};
ghost use Rattle.isp_lower_code.specs.Asks.{expr_asks};
ghost use Rattle.isp_lower.specs.Emitted.{Present};
ghost use Rattle.isp_lower.specs.Written.{Writes as Adds};
ghost use Rattle.isp_masks_code.specs.Asks.{first_asks, step_asks, test_part_asks};
ghost use Rattle.isp_masks_code.specs.Exits.{nobody_leaves};
ghost use Rattle.isp_masks.specs.Written.{back_at, first_at, next_at, step_at, step_in, stepped_at, test_in};

use crate::looping::{Loop, Test, Turning, again, inside};
use isp_code::{Instr, JumpTest};
use isp_lower::{Body, Line, Scope, Site, declared, expr, mask, simple};
use isp_registers::Slot;
use isp_typed::{TypedExpr, TypedFirst, TypedSimple};
use std::alloc::AllocError;

/// The first part of a `for`.
pub(crate) fn first_part(
    b: &mut Body,
    on: &Scope,
    first: &Option<TypedFirst>,
    site: Site,
) -> Result<(), AllocError>
    requires { Present on.now (first_asks (option_map first_of first.now) site.slot.number) }
    ensures { OnOk result (Adds b.old b.new (first_at on.now (option_map first_of first.now) site.mask.number site.slot.number)) }
{
    match first {
        None => Ok(()),
        Some(TypedFirst::Declare { items, .. }) => declared(b, on, items, site),
        Some(TypedFirst::Simple(x)) => simple(b, on, x, site),
    }
}

/// What stands after a turn that begins at instruction top, for the lanes that are live.
pub(crate) fn next_turn(
    b: &mut Body,
    on: &Scope,
    by: Turning<'_>,
    it: Loop,
    top: usize,
) -> Result<(), AllocError>
    requires slots { it.slot.number + 3 < 4294967296 }
    requires step { Present on.now (step_asks (step_in by) (it.slot.number + 3)) }
    requires test { Present on.now (test_part_asks (test_in by) (it.slot.number + 3)) }
    ensures { OnOk result (Adds b.old b.new (next_at on.now (nobody_leaves it.exits) (test_in by.entry) (step_in by.entry) it.slot.number top)) }
{
    if it.exits.is_none() {
        stepped(b, on, by, it.slot, top)
    } else {
        some_stepped(b, on, by, it.slot, top)
    }
}

/// The same where some may have left the loop: jumped over where nobody is live.
fn some_stepped(
    b: &mut Body,
    on: &Scope,
    by: Turning<'_>,
    slot: Slot,
    top: usize,
) -> Result<(), AllocError>
    requires slots { slot.number + 3 < 4294967296 }
    requires step { Present on.now (step_asks (step_in by) (slot.number + 3)) }
    requires test { Present on.now (test_part_asks (test_in by) (slot.number + 3)) }
    ensures { OnOk result (Adds b.old b.new (next_at on.now false (test_in by.entry) (step_in by.entry) slot.number top)) }
{
    let at = b.code.len();
    b.push(Instr::JumpIf {
        test: JumpTest::Off,
        register: mask(slot.mask()),
        target: 0,
    })?;
    stepped(b, on, by, slot, top)?;
    b.land(at, JumpTest::Off, mask(slot.mask()));
    Ok(())
}

fn stepped(
    b: &mut Body,
    on: &Scope,
    by: Turning<'_>,
    slot: Slot,
    top: usize,
) -> Result<(), AllocError>
    requires slots { slot.number + 3 < 4294967296 }
    requires step { Present on.now (step_asks (step_in by) (slot.number + 3)) }
    requires test { Present on.now (test_part_asks (test_in by) (slot.number + 3)) }
    ensures { OnOk result (Adds b.old b.new (stepped_at on.now (test_in by.entry) (step_in by.entry) slot.number top)) }
{
    step_part(b, on, by.step, slot)?;
    back(b, on, by.test, slot, top)?;
    Ok(())
}

/// The step.
fn step_part(
    b: &mut Body,
    on: &Scope,
    step: Option<&TypedSimple>,
    slot: Slot,
) -> Result<(), AllocError>
    requires slots { slot.number + 3 < 4294967296 }
    requires step { Present on.now (step_asks (option_map (λ x. simple_of x.now) step) (slot.number + 3)) }
    ensures { OnOk result (Adds b.old b.new (step_at on.now (option_map (λ x. simple_of x.now) step.entry) slot.number)) }
{
    match step {
        None => Ok(()),
        Some(x) => simple(b, on, x, inside(slot)),
    }
}

/// The test, where there is one, and the jump back.
fn back(
    b: &mut Body,
    on: &Scope,
    test: Option<&TypedExpr>,
    slot: Slot,
    top: usize,
) -> Result<(), AllocError>
    requires slots { slot.number + 3 < 4294967296 }
    requires test { Present on.now (test_part_asks (option_map (λ x. expr_of x.now) test) (slot.number + 3)) }
    ensures { OnOk result (Adds b.old b.new (back_at on.now (option_map (λ x. expr_of x.now) test.entry) slot.number top)) }
{
    match test {
        None => {
            b.add(Line::naming(Instr::Jump { target: 0 }, top))?;
            Ok(())
        }
        Some(test) => tested_again(b, on, test, slot, top),
    }
}

fn tested_again(
    b: &mut Body,
    on: &Scope,
    test: &TypedExpr,
    slot: Slot,
    top: usize,
) -> Result<(), AllocError>
    requires slots { slot.number + 3 < 4294967296 }
    requires test { Present on.now (expr_asks (expr_of test.now) (slot.number + 3)) }
    ensures { OnOk result (Adds b.old b.new (back_at on.now (Some (expr_of test.now)) slot.number top)) }
{
    let tested = expr(b, on, test, inside(slot))?;
    let given = Test {
        rate: test.ty().rate,
        register: tested,
    };
    again(b, given, slot, top)?;
    Ok(())
}
