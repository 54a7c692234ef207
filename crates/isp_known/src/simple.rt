//! Declarations, and what stands before a semicolon.
ghost use Rattle.std.specs.Prelude.{◌≡◌, ◌++◌, IfOk, option_map};
ghost use Rattle.isp_typed.specs.Views.{expr_of, exprs_of, first_of, item_of, items_of, range_of, ranges_of, simple_of};
ghost use Rattle.isp_known.specs.Notes.{expr_notes, first_notes, item_notes, notes_of_any, notes_of_each, range_notes, simple_notes};

use crate::expr::{call, expr, place};
use crate::note::{Note, declared};
use isp_typed::{TypedExpr, TypedFirst, TypedItem, TypedRange, TypedSimple};
use std::alloc::AllocError;

/// Notes expressions of a function.
pub(crate) fn values(
    found: &mut Vec<Note>,
    function: usize,
    all: &[TypedExpr],
) -> Result<(), AllocError>
    ensures { IfOk result (λ u. found.new.items ≡ found.old.items ++ notes_of_each (expr_notes function) (exprs_of all.now)) }
{
    for value in all {
        expr(found, function, value)?;
    }
    Ok(())
}

/// Notes an expression that may be left out.
pub(crate) fn given(
    found: &mut Vec<Note>,
    function: usize,
    part: &Option<TypedExpr>,
) -> Result<(), AllocError>
    ensures { IfOk result (λ u. found.new.items ≡ found.old.items ++ notes_of_any (expr_notes function) (option_map expr_of part.now)) }
{
    match part {
        Some(part) => expr(found, function, part),
        None => Ok(()),
    }
}

fn item(found: &mut Vec<Note>, function: usize, x: &TypedItem) -> Result<(), AllocError>
    ensures { IfOk result (λ u. found.new.items ≡ found.old.items ++ item_notes function (item_of x.now)) }
{
    match x {
        TypedItem::Plain { number, span, .. } => declared(found, function, *number, *span),
        TypedItem::Value {
            number,
            value,
            span,
            ..
        } => {
            declared(found, function, *number, *span)?;
            expr(found, function, value)
        }
        TypedItem::Array { array, span } => declared(found, function, array.number, *span),
    }
}

/// Notes the items of a declaration.
pub(crate) fn items(
    found: &mut Vec<Note>,
    function: usize,
    all: &[TypedItem],
) -> Result<(), AllocError>
    ensures { IfOk result (λ u. found.new.items ≡ found.old.items ++ notes_of_each (item_notes function) (items_of all.now)) }
{
    for one in all {
        item(found, function, one)?;
    }
    Ok(())
}

/// Notes what stands before a semicolon.
pub(crate) fn simple(
    found: &mut Vec<Note>,
    function: usize,
    s: &TypedSimple,
) -> Result<(), AllocError>
    ensures { IfOk result (λ u. found.new.items ≡ found.old.items ++ simple_notes function (simple_of s.now)) }
{
    match s {
        TypedSimple::Value(value) => expr(found, function, value),
        TypedSimple::Call(called) => call(found, function, called),
        TypedSimple::Assign { target, value, .. } | TypedSimple::Update { target, value, .. } => {
            place(found, function, target)?;
            expr(found, function, value)
        }
        TypedSimple::Step { target, .. } => place(found, function, target),
    }
}

/// Notes the first part of a `for`.
pub(crate) fn start(
    found: &mut Vec<Note>,
    function: usize,
    part: &Option<TypedFirst>,
) -> Result<(), AllocError>
    ensures { IfOk result (λ u. found.new.items ≡ found.old.items ++ notes_of_any (first_notes function) (option_map first_of part.now)) }
{
    match part {
        Some(TypedFirst::Declare { items: all, .. }) => items(found, function, all),
        Some(TypedFirst::Simple(s)) => simple(found, function, s),
        None => Ok(()),
    }
}

/// Notes the step of a `for`.
pub(crate) fn step(
    found: &mut Vec<Note>,
    function: usize,
    part: &Option<TypedSimple>,
) -> Result<(), AllocError>
    ensures { IfOk result (λ u. found.new.items ≡ found.old.items ++ notes_of_any (simple_notes function) (option_map simple_of part.now)) }
{
    match part {
        Some(part) => simple(found, function, part),
        None => Ok(()),
    }
}

fn range(found: &mut Vec<Note>, function: usize, r: &TypedRange) -> Result<(), AllocError>
    ensures { IfOk result (λ u. found.new.items ≡ found.old.items ++ range_notes function (range_of r.now)) }
{
    declared(found, function, r.index, r.span)?;
    expr(found, function, &r.start)?;
    expr(found, function, &r.end)
}

/// Notes the ranges of a `foreach`.
pub(crate) fn ranges(
    found: &mut Vec<Note>,
    function: usize,
    all: &[TypedRange],
) -> Result<(), AllocError>
    ensures { IfOk result (λ u. found.new.items ≡ found.old.items ++ notes_of_each (range_notes function) (ranges_of all.now)) }
{
    for r in all {
        range(found, function, r)?;
    }
    Ok(())
}
