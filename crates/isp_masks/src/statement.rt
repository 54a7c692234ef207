//! The code of statements. A mask has the lanes that run a statement, and afterwards those that went on; those that
//! continued and those that returned are added to two others.
ghost use Rattle.std.specs.Prelude.{◌≡◌, ◌<◌, ◌+◌, length, OnOk};
ghost use Rattle.isp_base.specs.declared.types.Elem.TheVariants.{I64};
ghost use Rattle.isp_base.specs.declared.types.Rate.TheVariants.{Uniform};
ghost use Rattle.isp_typed.specs.Views.{block_of, expr_of, ranges_of, stmt_of};
ghost use Rattle.isp_lower_code.specs.Asks.{Register as Ask, expr_asks};
ghost use Rattle.isp_lower.specs.Emitted.{Present};
ghost use Rattle.isp_lower_code.specs.Rows.{Variable};
ghost use Rattle.isp_masks_code.specs.Asks.{block_asks, ranges_asks, step_asks, stmt_asks, test_part_asks, unique_asks};
ghost use Rattle.isp_masks_code.specs.Ranges.{runs_slot};
ghost use Rattle.isp_masks.specs.reader.Seen.{block_seen};
ghost use Rattle.isp_masks.specs.Written.{Writes, active_at, block_at, do_at, entered_at, foreach_at, full_at, last_asks, last_range_at, outer_turn_at, passed_at, ranges_at, rest_at, step_in, stmt_at, sweep_asks, sweeps_asks, test_in, turn_at, turning_at, turns_at, unique_at, unmasked_at};

use crate::asserting::asserts;
use crate::awaited::{land_all, leave_room};
use crate::branches::{if_alone, if_else};
use crate::looping::{
    Loop, Test, Turning, clear_where, copy_mask, enter, inside, is_wide, is_wide_by, land_sift,
    leave_loop, next, rejoin, sift, where_some,
};
use crate::masks::{Masks, Spot};
use crate::part::{Part, split};
use crate::printing::prints;
use crate::ranges::{
    OuterIndex, Sweep, begin, begin_runs, bounds, fill_again, go_on, goes_on, index, indices,
    measures, next_full, outer_value, range_mask, run_place, step_index, test_place, tested, wide,
};
use crate::returned::returns;
use crate::rounds::{fill_mask, take_lane};
use crate::seen::Seen;
use crate::sets::jump;
use crate::steps::{first_part, next_turn};
use crate::unique::{keep_values, take_value};
use isp_base::{Elem, Rate, Ty};
use isp_code::{Instr, JumpTest};
use isp_lower::{Body, Scope, Site, declared, expr, mask, scalar, simple};
use isp_masks_reserve::{Condition, Unique};
use isp_tree::Form;
use isp_typed::{TypedBlock, TypedExpr, TypedRange, TypedStmt};
use std::alloc::AllocError;

/// The code of a statement.
#[cycle(stmt)]
pub(crate) fn stmt(b: &mut Body, on: &Scope, x: Part<'_>, spot: Spot) -> Result<(), AllocError>
    requires there { Present on.now (stmt_asks on.now.answer (stmt_of x.stmt.now) spot.slot.number) }
    ensures { OnOk result (Writes b.old b.new (stmt_at on.now (stmt_of x.entry.stmt.now) spot)) }
{
    match x.stmt {
        TypedStmt::Block(body) => block(b, on, body, x.inside(), spot),
        TypedStmt::Declare { items, .. } => {
            declared(b, on, items, spot.site())?;
            Ok(())
        }
        TypedStmt::Simple { simple: own, .. } => {
            simple(b, on, own, spot.site())?;
            Ok(())
        }
        TypedStmt::If {
            form,
            test,
            then,
            ..
        } => if_alone(b, on, Condition { form: *form, test }, x.only(then), spot),
        TypedStmt::IfElse {
            form,
            test,
            then,
            otherwise,
            ..
        } => {
            let by = Condition { form: *form, test };
            let (then, otherwise) = x.two(then, otherwise);
            if_else(b, on, by, then, otherwise, spot)
        }
        TypedStmt::Jump { jump: j, .. } => {
            jump(b, *j, spot.masks)?;
            Ok(())
        }
        TypedStmt::Return {
            keyword,
            value,
            span,
        } => returns(b, on, *keyword, value, *span, spot),
        TypedStmt::While {
            form,
            test,
            body,
            ..
        } => {
            let by = Turning {
                step: None,
                test: Some(test),
            };
            turns(b, on, *form, by, x.only(body), spot)
        }
        TypedStmt::Do {
            form,
            body,
            test,
            ..
        } => do_loop(b, on, *form, x.only(body), test, spot),
        TypedStmt::For {
            form,
            first,
            test,
            step,
            body,
            ..
        } => {
            first_part(b, on, first, spot.site())?;
            let by = Turning {
                step: step.as_ref(),
                test: test.as_ref(),
            };
            turns(b, on, *form, by, x.only(body), spot)
        }
        TypedStmt::ForeachActive { index, body, .. } => {
            active_loop(b, on, *index, x.only(body), spot)
        }
        TypedStmt::ForeachUnique {
            index,
            elem,
            value,
            body,
            ..
        } => {
            let it = Unique {
                index: *index,
                elem: *elem,
                value,
            };
            unique_loop(b, on, it, x.only(body), spot)
        }
        TypedStmt::Unmasked { body, .. } => unmasked(b, on, body, x.inside(), spot),
        TypedStmt::Foreach { ranges, body, .. } => foreach(b, on, ranges, x.only(body), spot),
        TypedStmt::Assert {
            test,
            call_span,
            ..
        } => {
            asserts(b, on, test, *call_span, spot.site())?;
            Ok(())
        }
        TypedStmt::Print { text, values, .. } => {
            prints(b, on, text.as_slice(), values, spot.site())?;
            Ok(())
        }
    }
}

/// The code of a block: one statement after the other. Where some may have left, a jump past the rest is taken if nobody
/// is left.
#[cycle(stmt)]
pub(crate) fn block(
    b: &mut Body,
    on: &Scope,
    body: &TypedBlock,
    seen: &[Seen],
    spot: Spot,
) -> Result<(), AllocError>
    requires seen { seen.now ≡ block_seen (block_of body.now) }
    requires there { Present on.now (block_asks on.now.answer (block_of body.now) spot.slot.number) }
    ensures { OnOk result (Writes b.old b.new (block_at on.now (block_of body.now) spot)) }
{
    let mut jumps = Vec::new(*b.code.allocator());
    let mut left = false;
    let mut rest = seen;
    for x in &body.statements {
        leave_room(b, &mut jumps, left, spot.masks.on)?;
        let (part, behind) = split(x, rest);
        stmt(b, on, part, spot)?;
        left = !part.all_go_on();
        rest = behind;
    }
    land_all(b, jumps.as_slice(), spot.masks.on);
    Ok(())
}

/// A turn: those that continue in it come back after the body.
#[cycle(stmt)]
fn turn(b: &mut Body, on: &Scope, body: Part<'_>, it: Loop) -> Result<(), AllocError>
    requires slots { it.slot.number + 3 < 4294967296 }
    requires body { Present on.now (stmt_asks on.now.answer (stmt_of body.stmt.now) (it.slot.number + 3)) }
    ensures { OnOk result (Writes b.old b.new (turn_at on.now (stmt_of body.entry.stmt.now) it)) }
{
    let masks = Masks {
        on: it.slot.mask(),
        continued: it.slot.next().mask(),
        returned: it.slot.plus(2).mask(),
    };
    clear_where(b, it.exits.continues, masks.continued)?;
    let slot = it.slot.plus(3);
    stmt(b, on, body, Spot { masks, slot })?;
    rejoin(b, it)?;
    Ok(())
}

/// Turns from one on, with what stands after each.
#[cycle(stmt)]
fn turning(
    b: &mut Body,
    on: &Scope,
    by: Turning<'_>,
    body: Part<'_>,
    it: Loop,
) -> Result<(), AllocError>
    requires slots { it.slot.number + 3 < 4294967296 }
    requires step { Present on.now (step_asks (step_in by) (it.slot.number + 3)) }
    requires test { Present on.now (test_part_asks (test_in by) (it.slot.number + 3)) }
    requires body { Present on.now (stmt_asks on.now.answer (stmt_of body.stmt.now) (it.slot.number + 3)) }
    ensures { OnOk result (Writes b.old b.new (turning_at on.now (test_in by.entry) (step_in by.entry) (stmt_of body.entry.stmt.now) it)) }
{
    let top = next(b);
    turn(b, on, body, it)?;
    next_turn(b, on, by, it, top)?;
    Ok(())
}

/// `do`.
#[cycle(stmt)]
fn do_loop(
    b: &mut Body,
    on: &Scope,
    form: Form,
    body: Part<'_>,
    test: &TypedExpr,
    spot: Spot,
) -> Result<(), AllocError>
    requires slots { spot.slot.number + 3 < 4294967296 }
    requires test { Present on.now (expr_asks (expr_of test.now) (spot.slot.number + 3)) }
    requires body { Present on.now (stmt_asks on.now.answer (stmt_of body.stmt.now) (spot.slot.number + 3)) }
    ensures { OnOk result (Writes b.old b.new (do_at on.now form (stmt_of body.entry.stmt.now) (expr_of test.now) spot)) }
{
    let exits = body.exits();
    enter(b, exits, spot.masks.on, spot.slot)?;
    let it = Loop {
        wide: is_wide(form, test.ty().rate),
        exits,
        slot: spot.slot,
    };
    let by = Turning {
        step: None,
        test: Some(test),
    };
    turning(b, on, by, body, it)?;
    leave_loop(b, it, spot.masks)?;
    Ok(())
}

/// `unmasked`: the block, for all lanes.
#[cycle(stmt)]
fn unmasked(
    b: &mut Body,
    on: &Scope,
    body: &TypedBlock,
    seen: &[Seen],
    spot: Spot,
) -> Result<(), AllocError>
    requires seen { seen.now ≡ block_seen (block_of body.now) }
    requires slots { spot.slot.number + 3 < 4294967296 }
    requires body { Present on.now (block_asks on.now.answer (block_of body.now) (spot.slot.number + 3)) }
    ensures { OnOk result (Writes b.old b.new (unmasked_at on.now (block_of body.now) spot)) }
{
    b.push(fill_mask(spot.slot.mask()))?;
    let inner = on.outside();
    block(b, &inner, body, seen, Spot::own(spot.slot))?;
    Ok(())
}

/// `foreach_active`: a turn for each lane of the mask, the lowest first.
#[cycle(stmt)]
fn active_loop(
    b: &mut Body,
    on: &Scope,
    index: usize,
    body: Part<'_>,
    spot: Spot,
) -> Result<(), AllocError>
    requires slots { spot.slot.number + 1 + 3 < 4294967296 }
    requires index { Present on.now (Ask Uniform (Variable index) I64) }
    requires body { Present on.now (stmt_asks on.now.answer (stmt_of body.stmt.now) (spot.slot.number + 1 + 3)) }
    ensures { OnOk result (Writes b.old b.new (active_at on.now index (stmt_of body.entry.stmt.now) spot)) }
{
    b.push(copy_mask(spot.slot.mask(), spot.masks.on))?;
    let top = next(b);
    let ty = Ty {
        rate: Rate::Uniform,
        elem: Elem::I64,
    };
    take_lane(b, on.variable(index, ty), spot.slot)?;
    stmt(b, on, body, Spot::own(spot.slot.next()))?;
    b.add(where_some(spot.slot.mask(), top))?;
    Ok(())
}

/// `foreach_unique`: a turn for each value, that of the lowest lane first.
#[cycle(stmt)]
fn unique_loop(
    b: &mut Body,
    on: &Scope,
    it: Unique<'_>,
    body: Part<'_>,
    spot: Spot,
) -> Result<(), AllocError>
    requires slots { spot.slot.number + 1 + 3 < 4294967296 }
    requires own { Present on.now (unique_asks it.index it.elem (expr_of it.value.now) spot.slot.number) }
    requires body { Present on.now (stmt_asks on.now.answer (stmt_of body.stmt.now) (spot.slot.number + 1 + 3)) }
    ensures { OnOk result (Writes b.old b.new (unique_at on.now it.entry.index (expr_of it.entry.value.now) (stmt_of body.entry.stmt.now) spot)) }
{
    keep_values(b, on, it, spot)?;
    let top = next(b);
    take_value(b, on, it, spot.slot)?;
    stmt(b, on, body, Spot::own(spot.slot.next()))?;
    b.add(where_some(spot.slot.mask(), top))?;
    Ok(())
}

/// A `while`, and a `for` after its first part.
#[cycle(stmt)]
fn turns(
    b: &mut Body,
    on: &Scope,
    form: Form,
    by: Turning<'_>,
    body: Part<'_>,
    spot: Spot,
) -> Result<(), AllocError>
    requires slots { spot.slot.number + 3 < 4294967296 }
    requires step { Present on.now (step_asks (step_in by) (spot.slot.number + 3)) }
    requires test { Present on.now (test_part_asks (test_in by) (spot.slot.number + 3)) }
    requires body { Present on.now (stmt_asks on.now.answer (stmt_of body.stmt.now) (spot.slot.number + 3)) }
    ensures { OnOk result (Writes b.old b.new (turns_at on.now form (test_in by.entry) (step_in by.entry) (stmt_of body.entry.stmt.now) spot)) }
{
    let exits = body.exits();
    enter(b, exits, spot.masks.on, spot.slot)?;
    let it = Loop {
        wide: is_wide_by(form, by.test),
        exits,
        slot: spot.slot,
    };
    match by.test {
        None => turning(b, on, by, body, it)?,
        Some(test) => entered(b, on, test, by, body, it)?,
    }
    leave_loop(b, it, spot.masks)?;
    Ok(())
}

/// A test, and turns for those that pass it.
#[cycle(stmt)]
fn entered(
    b: &mut Body,
    on: &Scope,
    test: &TypedExpr,
    by: Turning<'_>,
    body: Part<'_>,
    it: Loop,
) -> Result<(), AllocError>
    requires slots { it.slot.number + 3 < 4294967296 }
    requires first { Present on.now (expr_asks (expr_of test.now) (it.slot.number + 3)) }
    requires step { Present on.now (step_asks (step_in by) (it.slot.number + 3)) }
    requires test { Present on.now (test_part_asks (test_in by) (it.slot.number + 3)) }
    requires body { Present on.now (stmt_asks on.now.answer (stmt_of body.stmt.now) (it.slot.number + 3)) }
    ensures { OnOk result (Writes b.old b.new (entered_at on.now (expr_of test.now) (test_in by.entry) (step_in by.entry) (stmt_of body.entry.stmt.now) it)) }
{
    let tested = expr(b, on, test, inside(it.slot))?;
    let given = Test {
        rate: test.ty().rate,
        register: tested,
    };
    passed(b, on, given, by, body, it)?;
    Ok(())
}

/// Turns for those that pass a test.
#[cycle(stmt)]
fn passed(
    b: &mut Body,
    on: &Scope,
    test: Test,
    by: Turning<'_>,
    body: Part<'_>,
    it: Loop,
) -> Result<(), AllocError>
    requires slots { it.slot.number + 3 < 4294967296 }
    requires step { Present on.now (step_asks (step_in by) (it.slot.number + 3)) }
    requires test { Present on.now (test_part_asks (test_in by) (it.slot.number + 3)) }
    requires body { Present on.now (stmt_asks on.now.answer (stmt_of body.stmt.now) (it.slot.number + 3)) }
    ensures { OnOk result (Writes b.old b.new (passed_at on.now test (test_in by.entry) (step_in by.entry) (stmt_of body.entry.stmt.now) it)) }
{
    sift(b, test, it.slot)?;
    let at = b.code.len();
    b.push(Instr::Jump { target: 0 })?;
    turning(b, on, by, body, it)?;
    land_sift(b, at, test, it.slot);
    Ok(())
}

/// `foreach`: what all runs use, the bounds, then the ranges.
#[cycle(stmt)]
fn foreach(
    b: &mut Body,
    on: &Scope,
    all: &[TypedRange],
    body: Part<'_>,
    spot: Spot,
) -> Result<(), AllocError>
    requires ranges { Present on.now (ranges_asks (ranges_of all.now) spot.slot.number) }
    requires body { Present on.now (stmt_asks on.now.answer (stmt_of body.stmt.now) (runs_slot spot.slot.number (ranges_of all.now) + 3)) }
    ensures { OnOk result (Writes b.old b.new (foreach_at on.now (ranges_of all.now) (stmt_of body.entry.stmt.now) spot)) }
{
    let it = Sweep::first(spot.slot, all);
    let site = Site {
        mask: spot.masks.on,
        slot: it.bounds,
    };
    measures(b, on, spot.slot, it.masks.mask())?;
    bounds(b, on, all, site)?;
    let none = Vec::new(*b.code.allocator());
    ranges(b, on, all, body, none, it)?;
    Ok(())
}

/// The ranges from one on, and without a range the body, as often as it stands with one.
#[cycle(stmt)]
fn ranges(
    b: &mut Body,
    on: &Scope,
    all: &[TypedRange],
    body: Part<'_>,
    set: Vec<OuterIndex>,
    it: Sweep,
) -> Result<(), AllocError>
    requires ranges { Present on.now (sweeps_asks (ranges_of all.now) it) }
    requires body { Present on.now (stmt_asks on.now.answer (stmt_of body.stmt.now) (it.masks.number + 3)) }
    ensures { OnOk result (Writes b.old b.new (ranges_at on.now (ranges_of all.now) (stmt_of body.entry.stmt.now) set.items it)) }
{
    match all {
        [] => {
            stmt(b, on, body, Spot::own(it.masks))?;
            stmt(b, on, body, Spot::own(it.masks))
        }
        [last] => last_range(b, on, last.index, body, set, it),
        _ => outer_range(b, on, all, body, set, it),
    }
}

/// The last range, in runs of as many numbers as there are lanes: those that have all lanes, then one that has fewer.
#[cycle(stmt)]
fn last_range(
    b: &mut Body,
    on: &Scope,
    variable: usize,
    body: Part<'_>,
    set: Vec<OuterIndex>,
    it: Sweep,
) -> Result<(), AllocError>
    requires range { Present on.now (sweep_asks it) }
    requires index { Present on.now (last_asks variable it) }
    requires body { Present on.now (stmt_asks on.now.answer (stmt_of body.stmt.now) (it.masks.number + 3)) }
    ensures { OnOk result (Writes b.old b.new (last_range_at on.now variable (stmt_of body.entry.stmt.now) set.items it)) }
{
    let place = run_place(on, variable, it);
    begin_runs(b, on, it, place)?;
    let at = b.code.len();
    b.push(Instr::Jump { target: 0 })?;
    full_runs(b, on, variable, body, &set, it)?;
    b.land(at, JumpTest::False, scalar(tested(on, it.place.next())));
    rest_run(b, on, variable, body, &set, it)?;
    Ok(())
}

/// Its runs that have all lanes, after the test of the first.
#[cycle(stmt)]
fn full_runs(
    b: &mut Body,
    on: &Scope,
    variable: usize,
    body: Part<'_>,
    set: &[OuterIndex],
    it: Sweep,
) -> Result<(), AllocError>
    requires range { Present on.now (sweep_asks it) }
    requires index { Present on.now (last_asks variable it) }
    requires body { Present on.now (stmt_asks on.now.answer (stmt_of body.stmt.now) (it.masks.number + 3)) }
    ensures { OnOk result (Writes b.old b.new (full_at on.now variable (stmt_of body.entry.stmt.now) set.now it)) }
{
    let all = it.masks.mask();
    let alone = goes_on(on, variable, set);
    let place = run_place(on, variable, it);
    b.push(fill_mask(all))?;
    let first = next(b);
    indices(b, on, variable, set, it)?;
    let to = step_index(b, on, variable, alone, first, it)?;
    let inner = on.within(variable);
    stmt(b, &inner, body, Spot::own(it.masks))?;
    fill_again(b, body.all_go_on(), all)?;
    next_full(b, on, it, place, to)?;
    Ok(())
}

/// The run after them, of the lanes that are left.
#[cycle(stmt)]
fn rest_run(
    b: &mut Body,
    on: &Scope,
    variable: usize,
    body: Part<'_>,
    set: &[OuterIndex],
    it: Sweep,
) -> Result<(), AllocError>
    requires range { Present on.now (sweep_asks it) }
    requires index { Present on.now (last_asks variable it) }
    requires body { Present on.now (stmt_asks on.now.answer (stmt_of body.stmt.now) (it.masks.number + 3)) }
    ensures { OnOk result (Writes b.old b.new (rest_at on.now variable (stmt_of body.entry.stmt.now) set.now it)) }
{
    let lanes = it.masks.mask();
    let end = wide(on, it.bounds.next());
    b.push(range_mask(lanes, run_place(on, variable, it), end))?;
    let at = b.code.len();
    b.push(Instr::Jump { target: 0 })?;
    indices(b, on, variable, set, it)?;
    let inner = on.within(variable);
    stmt(b, &inner, body, Spot::own(it.masks))?;
    b.land(at, JumpTest::Off, mask(lanes));
    Ok(())
}

/// A range that has others inside: one number after the other.
#[cycle(stmt)]
fn outer_range(
    b: &mut Body,
    on: &Scope,
    all: &[TypedRange],
    body: Part<'_>,
    set: Vec<OuterIndex>,
    it: Sweep,
) -> Result<(), AllocError>
    requires many { 1 < length all.now }
    requires range { Present on.now (sweep_asks it) }
    requires ranges { Present on.now (sweeps_asks (ranges_of all.now) it) }
    requires body { Present on.now (stmt_asks on.now.answer (stmt_of body.stmt.now) (it.masks.number + 3)) }
    ensures { OnOk result (Writes b.old b.new (ranges_at on.now (ranges_of all.now) (stmt_of body.entry.stmt.now) set.items it)) }
{
    begin(b, on, it)?;
    let top = next(b);
    test_place(b, on, it)?;
    let at = b.code.len();
    b.push(Instr::Jump { target: 0 })?;
    outer_turn(b, on, all, body, set, it)?;
    go_on(b, on, it, it.measures.next(), top)?;
    b.land(at, JumpTest::False, scalar(tested(on, it.place.next())));
    Ok(())
}

/// A turn of it: its index, which the last range sets with its own, and the ranges inside.
#[cycle(stmt)]
fn outer_turn(
    b: &mut Body,
    on: &Scope,
    all: &[TypedRange],
    body: Part<'_>,
    set: Vec<OuterIndex>,
    it: Sweep,
) -> Result<(), AllocError>
    requires many { 1 < length all.now }
    requires range { Present on.now (sweep_asks it) }
    requires ranges { Present on.now (sweeps_asks (ranges_of all.now) it) }
    requires body { Present on.now (stmt_asks on.now.answer (stmt_of body.stmt.now) (it.masks.number + 3)) }
    ensures { OnOk result (Writes b.old b.new (outer_turn_at on.now (ranges_of all.now) (stmt_of body.entry.stmt.now) set.items it)) }
{
    let [range, inner @ ..] = all else {
        unreachable!();
    };
    let mut set = set;
    let value = outer_value(b, on, it)?;
    set.push(OuterIndex {
        index: index(on, range.index),
        value,
    })?;
    ranges(b, on, inner, body, set, it.inner())?;
    Ok(())
}
