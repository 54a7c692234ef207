//! Declarations, and what stands before a semicolon.
ghost use Rattle.std.specs.Prelude.{◌≡◌, ◌++◌, IfOk, option_map};
ghost use Rattle.isp_typed.specs.Views.{expr_of, exprs_of, first_of, functions_of, item_of, items_of, range_of, ranges_of, simple_of};
ghost use Rattle.isp_breaches.specs.reader.Lists.{expr_faults, first_faults, item_faults, of_any, of_each, range_faults, simple_faults};

use crate::expr::{call, demanded, expr, place};
use isp_base::Rate;
use isp_lex::Fault;
use isp_typed::{TypedExpr, TypedFirst, TypedFunction, TypedItem, TypedRange, TypedSimple};
use std::alloc::AllocError;

/// Finds the faults in expressions whose rate does not matter.
pub fn values(
    found: &mut Vec<Fault>,
    functions: &[TypedFunction],
    all: &[TypedExpr],
) -> Result<(), AllocError>
    ensures { IfOk result (λ u. found.new.items ≡ found.old.items ++ of_each (expr_faults (functions_of functions.now)) (exprs_of all.now)) }
{
    for value in all {
        expr(found, functions, value)?;
    }
    Ok(())
}

fn item(
    found: &mut Vec<Fault>,
    functions: &[TypedFunction],
    declared: &TypedItem,
) -> Result<(), AllocError>
    ensures { IfOk result (λ u. found.new.items ≡ found.old.items ++ item_faults (functions_of functions.now) (item_of declared.now)) }
{
    match declared {
        TypedItem::Plain { .. } | TypedItem::Array { .. } => Ok(()),
        TypedItem::Value { ty, value, .. } => demanded(found, functions, ty.rate, value),
    }
}

/// Finds the faults in the items of a declaration.
pub fn items(
    found: &mut Vec<Fault>,
    functions: &[TypedFunction],
    all: &[TypedItem],
) -> Result<(), AllocError>
    ensures { IfOk result (λ u. found.new.items ≡ found.old.items ++ of_each (item_faults (functions_of functions.now)) (items_of all.now)) }
{
    for declared in all {
        item(found, functions, declared)?;
    }
    Ok(())
}

/// Finds the faults in what stands before a semicolon.
pub fn simple(
    found: &mut Vec<Fault>,
    functions: &[TypedFunction],
    s: &TypedSimple,
) -> Result<(), AllocError>
    ensures { IfOk result (λ u. found.new.items ≡ found.old.items ++ simple_faults (functions_of functions.now) (simple_of s.now)) }
{
    match s {
        TypedSimple::Value(value) => expr(found, functions, value),
        TypedSimple::Call(called) => call(found, functions, called),
        TypedSimple::Assign { target, value, .. } | TypedSimple::Update { target, value, .. } => {
            place(found, functions, target)?;
            demanded(found, functions, target.ty().rate, value)
        }
        TypedSimple::Step { target, .. } => place(found, functions, target),
    }
}

fn first_part(
    found: &mut Vec<Fault>,
    functions: &[TypedFunction],
    part: &TypedFirst,
) -> Result<(), AllocError>
    ensures { IfOk result (λ u. found.new.items ≡ found.old.items ++ first_faults (functions_of functions.now) (first_of part.now)) }
{
    match part {
        TypedFirst::Declare { items: all, .. } => items(found, functions, all),
        TypedFirst::Simple(s) => simple(found, functions, s),
    }
}

/// Finds the faults in the first part of a `for`.
pub fn start(
    found: &mut Vec<Fault>,
    functions: &[TypedFunction],
    part: &Option<TypedFirst>,
) -> Result<(), AllocError>
    ensures { IfOk result (λ u. found.new.items ≡ found.old.items ++ of_any (first_faults (functions_of functions.now)) (option_map first_of part.now)) }
{
    match part {
        Some(part) => first_part(found, functions, part),
        None => Ok(()),
    }
}

/// Finds the faults in the test of a `for`.
pub fn test(
    found: &mut Vec<Fault>,
    functions: &[TypedFunction],
    part: &Option<TypedExpr>,
) -> Result<(), AllocError>
    ensures { IfOk result (λ u. found.new.items ≡ found.old.items ++ of_any (expr_faults (functions_of functions.now)) (option_map expr_of part.now)) }
{
    match part {
        Some(part) => expr(found, functions, part),
        None => Ok(()),
    }
}

/// Finds the faults in the step of a `for`.
pub fn step(
    found: &mut Vec<Fault>,
    functions: &[TypedFunction],
    part: &Option<TypedSimple>,
) -> Result<(), AllocError>
    ensures { IfOk result (λ u. found.new.items ≡ found.old.items ++ of_any (simple_faults (functions_of functions.now)) (option_map simple_of part.now)) }
{
    match part {
        Some(part) => simple(found, functions, part),
        None => Ok(()),
    }
}

fn range(
    found: &mut Vec<Fault>,
    functions: &[TypedFunction],
    r: &TypedRange,
) -> Result<(), AllocError>
    ensures { IfOk result (λ u. found.new.items ≡ found.old.items ++ range_faults (functions_of functions.now) (range_of r.now)) }
{
    demanded(found, functions, Rate::Uniform, &r.start)?;
    demanded(found, functions, Rate::Uniform, &r.end)
}

/// Finds the faults in the bounds of a `foreach`.
pub fn ranges(
    found: &mut Vec<Fault>,
    functions: &[TypedFunction],
    all: &[TypedRange],
) -> Result<(), AllocError>
    ensures { IfOk result (λ u. found.new.items ≡ found.old.items ++ of_each (range_faults (functions_of functions.now)) (ranges_of all.now)) }
{
    for r in all {
        range(found, functions, r)?;
    }
    Ok(())
}
