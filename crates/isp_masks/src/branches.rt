//! The code of `if`: by a uniform test a jump takes one part, by a varying one each part runs for its own lanes. In a c-form the
//! first part runs for the mask of the whole, and where all lanes pass the test nothing is joined after it.
ghost use Rattle.std.specs.Prelude.{◌<◌, ◌+◌, true, false, OnOk};
ghost use Rattle.isp_base.specs.declared.types.Rate.TheVariants.{Uniform, Varying};
ghost use Rattle.isp_tree.specs.declared.stmt.Form.TheVariants.{Plain, Coherent};
ghost use Rattle.isp_masks_code.specs.declared.exits.Leaving.TheVariants.{Never, Maybe};
ghost use Rattle.isp_typed.specs.Typed.{type_of};
ghost use Rattle.isp_typed.specs.Views.{expr_of, stmt_of};
ghost use Rattle.isp_lower_code.specs.Asks.{expr_asks};
ghost use Rattle.isp_lower.specs.Emitted.{Present};
ghost use Rattle.isp_masks_code.specs.Asks.{part_asks, part_slot, parts_asks, parts_slot, stmt_asks};
ghost use Rattle.isp_masks_code.specs.Exits.{leaving_of, only_jump};
ghost use Rattle.isp_masks.specs.Written.{Writes, both_parts_at, first_widely_at, guarded_at, if_at, if_else_at, others_at, part_at, parts_at};

use crate::looping::{join_where, join_widely};
use crate::masks::{Masks, Spot};
use crate::part::Part;
use crate::sets::{leave_by, part, part_aside, set_apart_unless_all, unite};
use crate::statement::stmt;
use isp_base::Rate;
use isp_code::{Instr, JumpTest};
use isp_lower::{Body, Scope, Site, expr, mask, scalar, where_so};
use isp_masks_code::Leaving;
use isp_masks_reserve::Condition;
use isp_registers::{MaskNumber, RegisterNumber};
use isp_tree::Form;
use isp_typed::TypedExpr;
use std::alloc::AllocError;

/// The form of an `if`, and the rate and the register of its test.
#[derive(Clone, Copy)]
pub(crate) struct Given {
    pub form: Form,
    pub rate: Rate,
    pub register: RegisterNumber,
}

/// An `if` without `else`: its test, and the part.
#[cycle(stmt)]
pub(crate) fn if_alone(
    b: &mut Body,
    on: &Scope,
    by: Condition<'_>,
    then: Part<'_>,
    spot: Spot,
) -> Result<(), AllocError>
    requires test { Present on.now (expr_asks (expr_of by.test.now) spot.slot.number) }
    requires part { Present on.now (part_asks by.form (type_of (expr_of by.test.now)).rate spot.slot.number) }
    requires then { Present on.now (stmt_asks on.now.answer (stmt_of then.stmt.now) (part_slot by.form (type_of (expr_of by.test.now)).rate spot.slot.number)) }
    ensures { OnOk result (Writes b.old b.new (if_at on.now by.entry.form (expr_of by.entry.test.now) (stmt_of then.entry.stmt.now) spot)) }
{
    let tested = expr(b, on, by.test, spot.site())?;
    let given = Given {
        form: by.form,
        rate: by.test.ty().rate,
        register: tested,
    };
    part_by(b, on, given, then, spot)?;
    Ok(())
}

/// The part of an `if` after its test: jumped over by a uniform one, under a mask by a varying one.
#[cycle(stmt)]
fn part_by(
    b: &mut Body,
    on: &Scope,
    by: Given,
    then: Part<'_>,
    spot: Spot,
) -> Result<(), AllocError>
    requires part { Present on.now (part_asks by.form by.rate spot.slot.number) }
    requires then { Present on.now (stmt_asks on.now.answer (stmt_of then.stmt.now) (part_slot by.form by.rate spot.slot.number)) }
    ensures { OnOk result (Writes b.old b.new (part_at on.now (leaving_of (stmt_of then.entry.stmt.now)) by.form by.rate by.register.number (stmt_of then.entry.stmt.now) spot)) }
{
    match (by.rate, by.form) {
        (Rate::Uniform, _) => part_by_jump(b, on, by.register, then, spot),
        (Rate::Varying, Form::Plain) => part_by_mask(b, on, by.register, then, spot),
        (Rate::Varying, Form::Coherent) => part_widely(b, on, by.register, then, spot),
    }
}

/// The part is jumped over.
#[cycle(stmt)]
fn part_by_jump(
    b: &mut Body,
    on: &Scope,
    tested: RegisterNumber,
    then: Part<'_>,
    spot: Spot,
) -> Result<(), AllocError>
    requires there { Present on.now (stmt_asks on.now.answer (stmt_of then.stmt.now) spot.slot.number) }
    ensures { OnOk result (Writes b.old b.new (part_at on.now Maybe Plain Uniform tested.number (stmt_of then.entry.stmt.now) spot)) }
{
    let at = b.code.len();
    b.push(Instr::JumpIf {
        test: JumpTest::False,
        register: scalar(tested),
        target: 0,
    })?;
    stmt(b, on, then, spot)?;
    b.land(at, JumpTest::False, scalar(tested));
    Ok(())
}

/// The part runs for the lanes for which the test is true.
#[cycle(stmt)]
fn part_by_mask(
    b: &mut Body,
    on: &Scope,
    tested: RegisterNumber,
    then: Part<'_>,
    spot: Spot,
) -> Result<(), AllocError>
    requires slots { spot.slot.number + 1 < 4294967296 }
    requires then { Present on.now (stmt_asks on.now.answer (stmt_of then.stmt.now) (spot.slot.number + 1)) }
    ensures { OnOk result (Writes b.old b.new (part_at on.now (leaving_of (stmt_of then.entry.stmt.now)) Plain Varying tested.number (stmt_of then.entry.stmt.now) spot)) }
{
    match then.leaving() {
        Leaving::Never => part_kept(b, on, tested, then, spot),
        Leaving::Always(jump) => leave_by(b, jump, tested, spot.masks, spot.slot.mask()),
        Leaving::Maybe => part_joined(b, on, tested, then, spot),
    }
}

/// Nobody leaves the part, so nobody has to come back.
#[cycle(stmt)]
fn part_kept(
    b: &mut Body,
    on: &Scope,
    tested: RegisterNumber,
    then: Part<'_>,
    spot: Spot,
) -> Result<(), AllocError>
    requires slots { spot.slot.number + 1 < 4294967296 }
    requires then { Present on.now (stmt_asks on.now.answer (stmt_of then.stmt.now) (spot.slot.number + 1)) }
    ensures { OnOk result (Writes b.old b.new (part_at on.now Never Plain Varying tested.number (stmt_of then.entry.stmt.now) spot)) }
{
    let passed = spot.slot.mask();
    b.push(where_so(passed, tested, spot.masks.on))?;
    let site = Site {
        mask: passed,
        slot: spot.slot.next(),
    };
    under_mask(b, on, then, spot, site)?;
    Ok(())
}

/// Those that go on from the part come back.
#[cycle(stmt)]
fn part_joined(
    b: &mut Body,
    on: &Scope,
    tested: RegisterNumber,
    then: Part<'_>,
    spot: Spot,
) -> Result<(), AllocError>
    requires slots { spot.slot.number + 1 < 4294967296 }
    requires then { Present on.now (stmt_asks on.now.answer (stmt_of then.stmt.now) (spot.slot.number + 1)) }
    ensures { OnOk result (Writes b.old b.new (part_at on.now Maybe Plain Varying tested.number (stmt_of then.entry.stmt.now) spot)) }
{
    part(b, spot.slot.mask(), tested, spot.masks.on)?;
    let site = Site {
        mask: spot.slot.mask(),
        slot: spot.slot.next(),
    };
    under_mask(b, on, then, spot, site)?;
    b.push(unite(spot.masks.on, spot.slot.mask(), spot.masks.on))?;
    Ok(())
}

/// In a c-form the part runs for the mask of the whole; where all lanes pass the test, nobody has to come back.
#[cycle(stmt)]
fn part_widely(
    b: &mut Body,
    on: &Scope,
    tested: RegisterNumber,
    then: Part<'_>,
    spot: Spot,
) -> Result<(), AllocError>
    requires slots { spot.slot.number + 1 + 1 < 4294967296 }
    requires then { Present on.now (stmt_asks on.now.answer (stmt_of then.stmt.now) (spot.slot.number + 1 + 1)) }
    ensures { OnOk result (Writes b.old b.new (part_at on.now Maybe Coherent Varying tested.number (stmt_of then.entry.stmt.now) spot)) }
{
    first_widely(b, on, tested, then, spot)?;
    let passed = spot.slot.mask();
    let others = spot.slot.next().mask();
    join_widely(b, passed, true, spot.masks.on, others)?;
    Ok(())
}

/// The test of a c-form, and its first part, for the mask of the whole. Where all lanes pass the test a jump leads to the part.
/// Else the mask keeps those that pass it, another gets the others, and the part is jumped over where nobody passes.
#[cycle(stmt)]
fn first_widely(
    b: &mut Body,
    on: &Scope,
    tested: RegisterNumber,
    then: Part<'_>,
    spot: Spot,
) -> Result<(), AllocError>
    requires slots { spot.slot.number + 1 + 1 < 4294967296 }
    requires then { Present on.now (stmt_asks on.now.answer (stmt_of then.stmt.now) (spot.slot.number + 1 + 1)) }
    ensures { OnOk result (Writes b.old b.new (first_widely_at on.now tested.number (stmt_of then.entry.stmt.now) spot)) }
{
    let k = spot.masks.on;
    let passed = spot.slot.mask();
    let beside = spot.slot.next();
    let others = beside.mask();
    let slot = beside.next();
    b.push(where_so(passed, tested, k))?;
    let at = set_apart_unless_all(b, passed, others, k)?;
    let masks = spot.masks;
    stmt(b, on, then, Spot { masks, slot })?;
    b.land(at, JumpTest::Off, mask(k));
    Ok(())
}

/// A part for the lanes of a mask, jumped over where it has none.
#[cycle(stmt)]
fn under_mask(
    b: &mut Body,
    on: &Scope,
    x: Part<'_>,
    spot: Spot,
    site: Site,
) -> Result<(), AllocError>
    requires there { Present on.now (stmt_asks on.now.answer (stmt_of x.stmt.now) site.slot.number) }
    ensures { OnOk result (Writes b.old b.new (guarded_at on.now (stmt_of x.entry.stmt.now) spot site.mask.number site.slot.number)) }
{
    let masks = Masks {
        on: site.mask,
        continued: spot.masks.continued,
        returned: spot.masks.returned,
    };
    let slot = site.slot;
    let at = b.code.len();
    b.push(Instr::JumpIf {
        test: JumpTest::Off,
        register: mask(site.mask),
        target: 0,
    })?;
    stmt(b, on, x, Spot { masks, slot })?;
    b.land(at, JumpTest::Off, mask(site.mask));
    Ok(())
}

/// An `if` with `else`: its test, and both parts.
#[cycle(stmt)]
pub(crate) fn if_else(
    b: &mut Body,
    on: &Scope,
    by: Condition<'_>,
    then: Part<'_>,
    otherwise: Part<'_>,
    spot: Spot,
) -> Result<(), AllocError>
    requires test { Present on.now (expr_asks (expr_of by.test.now) spot.slot.number) }
    requires part { Present on.now (parts_asks (type_of (expr_of by.test.now)).rate spot.slot.number) }
    requires then { Present on.now (stmt_asks on.now.answer (stmt_of then.stmt.now) (parts_slot (type_of (expr_of by.test.now)).rate spot.slot.number)) }
    requires otherwise { Present on.now (stmt_asks on.now.answer (stmt_of otherwise.stmt.now) (parts_slot (type_of (expr_of by.test.now)).rate spot.slot.number)) }
    ensures { OnOk result (Writes b.old b.new (if_else_at on.now by.entry.form (expr_of by.entry.test.now) (stmt_of then.entry.stmt.now) (stmt_of otherwise.entry.stmt.now) spot)) }
{
    let tested = expr(b, on, by.test, spot.site())?;
    let given = Given {
        form: by.form,
        rate: by.test.ty().rate,
        register: tested,
    };
    parts_by(b, on, given, then, otherwise, spot)?;
    Ok(())
}

/// Both parts after a test.
#[cycle(stmt)]
fn parts_by(
    b: &mut Body,
    on: &Scope,
    by: Given,
    then: Part<'_>,
    otherwise: Part<'_>,
    spot: Spot,
) -> Result<(), AllocError>
    requires part { Present on.now (parts_asks by.rate spot.slot.number) }
    requires then { Present on.now (stmt_asks on.now.answer (stmt_of then.stmt.now) (parts_slot by.rate spot.slot.number)) }
    requires otherwise { Present on.now (stmt_asks on.now.answer (stmt_of otherwise.stmt.now) (parts_slot by.rate spot.slot.number)) }
    ensures { OnOk result (Writes b.old b.new (both_parts_at on.now by.form by.rate by.register.number (stmt_of then.entry.stmt.now) (stmt_of otherwise.entry.stmt.now) spot)) }
{
    match (by.rate, by.form) {
        (Rate::Uniform, _) => one_of(b, on, by.register, then, otherwise, spot),
        (Rate::Varying, Form::Plain) => parted(b, on, by.register, then, otherwise, spot),
        (Rate::Varying, Form::Coherent) => parted_widely(b, on, by.register, then, otherwise, spot),
    }
}

/// Both parts, of which a jump by the test takes one.
#[cycle(stmt)]
fn one_of(
    b: &mut Body,
    on: &Scope,
    tested: RegisterNumber,
    then: Part<'_>,
    otherwise: Part<'_>,
    spot: Spot,
) -> Result<(), AllocError>
    requires then { Present on.now (stmt_asks on.now.answer (stmt_of then.stmt.now) spot.slot.number) }
    requires otherwise { Present on.now (stmt_asks on.now.answer (stmt_of otherwise.stmt.now) spot.slot.number) }
    ensures { OnOk result (Writes b.old b.new (parts_at on.now false Plain Uniform tested.number (stmt_of then.entry.stmt.now) (stmt_of otherwise.entry.stmt.now) spot)) }
{
    let at = b.code.len();
    b.push(Instr::JumpIf {
        test: JumpTest::False,
        register: scalar(tested),
        target: 0,
    })?;
    stmt(b, on, then, spot)?;
    let over = b.code.len();
    b.push(Instr::Jump { target: 0 })?;
    b.land(at, JumpTest::False, scalar(tested));
    stmt(b, on, otherwise, spot)?;
    b.land_always(over);
    Ok(())
}

/// Both parts under two masks: those for which the test is true, and the others.
#[cycle(stmt)]
fn parted(
    b: &mut Body,
    on: &Scope,
    tested: RegisterNumber,
    then: Part<'_>,
    otherwise: Part<'_>,
    spot: Spot,
) -> Result<(), AllocError>
    requires slots { spot.slot.number + 1 + 1 < 4294967296 }
    requires then { Present on.now (stmt_asks on.now.answer (stmt_of then.stmt.now) (spot.slot.number + 1 + 1)) }
    requires otherwise { Present on.now (stmt_asks on.now.answer (stmt_of otherwise.stmt.now) (spot.slot.number + 1 + 1)) }
    ensures { OnOk result (Writes b.old b.new (both_parts_at on.now Plain Varying tested.number (stmt_of then.entry.stmt.now) (stmt_of otherwise.entry.stmt.now) spot)) }
{
    if then.both_go_on(otherwise) {
        both_kept(b, on, tested, then, otherwise, spot)
    } else {
        both_joined(b, on, tested, then, otherwise, spot)
    }
}

/// Nobody leaves the parts, so nobody has to come back.
#[cycle(stmt)]
fn both_kept(
    b: &mut Body,
    on: &Scope,
    tested: RegisterNumber,
    then: Part<'_>,
    otherwise: Part<'_>,
    spot: Spot,
) -> Result<(), AllocError>
    requires slots { spot.slot.number + 1 + 1 < 4294967296 }
    requires then { Present on.now (stmt_asks on.now.answer (stmt_of then.stmt.now) (spot.slot.number + 1 + 1)) }
    requires otherwise { Present on.now (stmt_asks on.now.answer (stmt_of otherwise.stmt.now) (spot.slot.number + 1 + 1)) }
    ensures { OnOk result (Writes b.old b.new (parts_at on.now true Plain Varying tested.number (stmt_of then.entry.stmt.now) (stmt_of otherwise.entry.stmt.now) spot)) }
{
    let passed = spot.slot.mask();
    let beside = spot.slot.next().mask();
    let slot = spot.slot.next().next();
    part_aside(b, passed, beside, tested, spot.masks.on)?;
    let first = Site { mask: passed, slot };
    let other = Site { mask: beside, slot };
    under_mask(b, on, then, spot, first)?;
    under_mask(b, on, otherwise, spot, other)?;
    Ok(())
}

/// Those that go on from the first part come back after the second.
#[cycle(stmt)]
fn both_joined(
    b: &mut Body,
    on: &Scope,
    tested: RegisterNumber,
    then: Part<'_>,
    otherwise: Part<'_>,
    spot: Spot,
) -> Result<(), AllocError>
    requires slots { spot.slot.number + 1 + 1 < 4294967296 }
    requires then { Present on.now (stmt_asks on.now.answer (stmt_of then.stmt.now) (spot.slot.number + 1 + 1)) }
    requires otherwise { Present on.now (stmt_asks on.now.answer (stmt_of otherwise.stmt.now) (spot.slot.number + 1 + 1)) }
    ensures { OnOk result (Writes b.old b.new (parts_at on.now false Plain Varying tested.number (stmt_of then.entry.stmt.now) (stmt_of otherwise.entry.stmt.now) spot)) }
{
    part(b, spot.slot.mask(), tested, spot.masks.on)?;
    let slot = spot.slot.next().next();
    let first = Site {
        mask: spot.slot.mask(),
        slot,
    };
    let second = Site {
        mask: spot.masks.on,
        slot,
    };
    under_mask(b, on, then, spot, first)?;
    under_mask(b, on, otherwise, spot, second)?;
    b.push(unite(spot.masks.on, spot.slot.mask(), spot.masks.on))?;
    Ok(())
}

/// Both parts of a c-form: the first runs for the mask of the whole.
#[cycle(stmt)]
fn parted_widely(
    b: &mut Body,
    on: &Scope,
    tested: RegisterNumber,
    then: Part<'_>,
    otherwise: Part<'_>,
    spot: Spot,
) -> Result<(), AllocError>
    requires slots { spot.slot.number + 1 + 1 < 4294967296 }
    requires then { Present on.now (stmt_asks on.now.answer (stmt_of then.stmt.now) (spot.slot.number + 1 + 1)) }
    requires otherwise { Present on.now (stmt_asks on.now.answer (stmt_of otherwise.stmt.now) (spot.slot.number + 1 + 1)) }
    ensures { OnOk result (Writes b.old b.new (parts_at on.now false Coherent Varying tested.number (stmt_of then.entry.stmt.now) (stmt_of otherwise.entry.stmt.now) spot)) }
{
    first_widely(b, on, tested, then, spot)?;
    let passed = spot.slot.mask();
    let second = Site {
        mask: spot.slot.next().mask(),
        slot: spot.slot.next().next(),
    };
    others(b, on, otherwise, spot, passed, second)?;
    Ok(())
}

/// The second part of a c-form, for the lanes of a mask, and those that went on from it come back: jumped past where all lanes passed the test.
#[cycle(stmt)]
fn others(
    b: &mut Body,
    on: &Scope,
    x: Part<'_>,
    spot: Spot,
    passed: MaskNumber,
    site: Site,
) -> Result<(), AllocError>
    requires there { Present on.now (stmt_asks on.now.answer (stmt_of x.stmt.now) site.slot.number) }
    ensures { OnOk result (Writes b.old b.new (others_at on.now (stmt_of x.entry.stmt.now) spot passed.number site.mask.number site.slot.number)) }
{
    let at = b.code.len();
    b.push(Instr::JumpIf {
        test: JumpTest::All,
        register: mask(passed),
        target: 0,
    })?;
    under_mask(b, on, x, spot, site)?;
    join_where(b, true, spot.masks.on, site.mask)?;
    b.land(at, JumpTest::All, mask(passed));
    Ok(())
}
