//! Expressions: each has a type, and names stand in them.
ghost use Rattle.std.specs.Prelude.{◌≡◌, ◌++◌, IfOk};
ghost use Rattle.isp_typed.specs.Views.{argument_of, base_of, call_of, expr_of, place_of};
ghost use Rattle.isp_known.specs.Notes.{argument_notes, base_notes, call_notes, expr_notes, place_notes};

use crate::note::{Note, called, loaded, used, value};
use isp_typed::{TypedArgument, TypedBase, TypedCall, TypedExpr, TypedPlace};
use std::alloc::AllocError;

/// Notes an expression of a function.
#[cycle(expr)]
pub(crate) fn expr(found: &mut Vec<Note>, function: usize, x: &TypedExpr) -> Result<(), AllocError>
    ensures { IfOk result (λ u. found.new.items ≡ found.old.items ++ expr_notes function (expr_of x.now)) }
{
    match x {
        TypedExpr::Place(inner) => place(found, function, inner),
        TypedExpr::Convert { operand, .. } => expr(found, function, operand),
        TypedExpr::Constant { .. } | TypedExpr::ProgramIndex { .. } => {
            value(found, x.span(), x.ty())
        }
        TypedExpr::Cast { operand, ty, span }
        | TypedExpr::Unary {
            operand,
            ty,
            span,
            ..
        } => {
            value(found, *span, *ty)?;
            expr(found, function, operand)
        }
        TypedExpr::Binary { left, right, .. }
        | TypedExpr::Compare { left, right, .. }
        | TypedExpr::Logic { left, right, .. } => {
            value(found, x.span(), x.ty())?;
            expr(found, function, left)?;
            expr(found, function, right)
        }
        TypedExpr::Choose {
            test,
            then,
            otherwise,
            ty,
            span,
        } => {
            value(found, *span, *ty)?;
            expr(found, function, test)?;
            expr(found, function, then)?;
            expr(found, function, otherwise)
        }
        TypedExpr::Call { call: inner, ty } => {
            value(found, inner.span, *ty)?;
            call(found, function, inner)
        }
        TypedExpr::Library {
            values,
            ty,
            span,
            ..
        } => {
            value(found, *span, *ty)?;
            for part in values {
                expr(found, function, part)?;
            }
            Ok(())
        }
        TypedExpr::PackedStore {
            base: array,
            value: stored,
            span,
        } => {
            value(found, *span, x.ty())?;
            base(found, function, array)?;
            expr(found, function, stored)
        }
        TypedExpr::PackedLoad {
            base: array,
            variable,
            span,
        } => {
            value(found, *span, x.ty())?;
            base(found, function, array)?;
            loaded(found, function, *variable, *span)
        }
    }
}

/// Notes a place of a function.
#[cycle(expr)]
pub(crate) fn place(
    found: &mut Vec<Note>,
    function: usize,
    x: &TypedPlace,
) -> Result<(), AllocError>
    ensures { IfOk result (λ u. found.new.items ≡ found.old.items ++ place_notes function (place_of x.now)) }
{
    match x {
        TypedPlace::Variable { number, ty, span } => {
            value(found, *span, *ty)?;
            used(found, function, *number, *span)
        }
        TypedPlace::Element {
            array,
            index,
            ty,
            span,
        } => {
            value(found, *span, *ty)?;
            used(found, function, array.number, *span)?;
            expr(found, function, index)
        }
    }
}

/// Notes the array of a packed call.
#[cycle(expr)]
fn base(found: &mut Vec<Note>, function: usize, x: &TypedBase) -> Result<(), AllocError>
    ensures { IfOk result (λ u. found.new.items ≡ found.old.items ++ base_notes function (base_of x.now)) }
{
    match x {
        TypedBase::Whole { array, span } => used(found, function, array.number, *span),
        TypedBase::From { array, index, span } => {
            used(found, function, array.number, *span)?;
            expr(found, function, index)
        }
    }
}

/// Notes an argument.
#[cycle(expr)]
fn argument(found: &mut Vec<Note>, function: usize, x: &TypedArgument) -> Result<(), AllocError>
    ensures { IfOk result (λ u. found.new.items ≡ found.old.items ++ argument_notes function (argument_of x.now)) }
{
    match x {
        TypedArgument::Value(inner) => expr(found, function, inner),
        TypedArgument::Array { array, span } => used(found, function, array.number, *span),
    }
}

/// Notes a call in a function.
#[cycle(expr)]
pub(crate) fn call(found: &mut Vec<Note>, function: usize, x: &TypedCall) -> Result<(), AllocError>
    ensures { IfOk result (λ u. found.new.items ≡ found.old.items ++ call_notes function (call_of x.now)) }
{
    called(found, x.function, x.span)?;
    for given in &x.arguments {
        argument(found, function, given)?;
    }
    Ok(())
}
