//! Expressions: each value of one rate where another is wanted.
ghost use Rattle.std.specs.Prelude.{◌≡◌, ◌++◌, IfOk};
ghost use Rattle.isp_typed.specs.Views.{argument_of, base_of, call_of, expr_of, functions_of, place_of};
ghost use Rattle.isp_breaches.specs.reader.Lists.{argument_faults, base_faults, call_faults, demand_faults, expr_faults, place_faults};

use crate::demand::{mismatch, parameter_rate, value_rate, variables};
use isp_base::Rate;
use isp_lex::Fault;
use isp_typed::{TypedArgument, TypedBase, TypedCall, TypedExpr, TypedFunction, TypedPlace};
use std::alloc::AllocError;

/// Finds the faults in an expression.
#[cycle(expr)]
pub fn expr(
    found: &mut Vec<Fault>,
    functions: &[TypedFunction],
    x: &TypedExpr,
) -> Result<(), AllocError>
    ensures { IfOk result (λ u. found.new.items ≡ found.old.items ++ expr_faults (functions_of functions.now) (expr_of x.now)) }
{
    match x {
        TypedExpr::Constant { .. } | TypedExpr::ProgramIndex { .. } => Ok(()),
        TypedExpr::Place(inner) => place(found, functions, inner),
        TypedExpr::Convert { operand, .. } | TypedExpr::Unary { operand, .. } => expr(
            found, functions, operand,
        ),
        TypedExpr::Cast { operand, ty, .. } => demanded(found, functions, ty.rate, operand),
        TypedExpr::Binary { left, right, .. }
        | TypedExpr::Compare { left, right, .. }
        | TypedExpr::Logic { left, right, .. } => {
            expr(found, functions, left)?;
            expr(found, functions, right)
        }
        TypedExpr::Choose {
            test,
            then,
            otherwise,
            ..
        } => {
            expr(found, functions, test)?;
            expr(found, functions, then)?;
            expr(found, functions, otherwise)
        }
        TypedExpr::Call { call: inner, .. } => call(found, functions, inner),
        TypedExpr::Library {
            function,
            values,
            ..
        } => {
            let parts = function.parts();
            for (place, value) in values.iter().enumerate() {
                demanded(found, functions, value_rate(parts, place), value)?;
            }
            Ok(())
        }
        TypedExpr::PackedStore {
            base: array,
            value,
            ..
        } => {
            base(found, functions, array)?;
            expr(found, functions, value)
        }
        TypedExpr::PackedLoad { base: array, .. } => base(found, functions, array),
    }
}

/// Finds the faults in an expression where a rate is wanted: its own, or where it has none that of its rate.
#[cycle(expr)]
pub fn demanded(
    found: &mut Vec<Fault>,
    functions: &[TypedFunction],
    wanted: Rate,
    x: &TypedExpr,
) -> Result<(), AllocError>
    ensures { IfOk result (λ u. found.new.items ≡ found.old.items ++ demand_faults (functions_of functions.now) wanted (expr_of x.now)) }
{
    let before = found.len();
    expr(found, functions, x)?;
    if found.len() == before {
        mismatch(found, wanted, x.ty().rate, x.span())?;
    }
    Ok(())
}

/// Finds the faults in a place.
#[cycle(expr)]
pub fn place(
    found: &mut Vec<Fault>,
    functions: &[TypedFunction],
    x: &TypedPlace,
) -> Result<(), AllocError>
    ensures { IfOk result (λ u. found.new.items ≡ found.old.items ++ place_faults (functions_of functions.now) (place_of x.now)) }
{
    match x {
        TypedPlace::Variable { .. } => Ok(()),
        TypedPlace::Element { index, .. } => expr(found, functions, index),
    }
}

/// Finds the faults in the array of a packed call.
#[cycle(expr)]
fn base(
    found: &mut Vec<Fault>,
    functions: &[TypedFunction],
    x: &TypedBase,
) -> Result<(), AllocError>
    ensures { IfOk result (λ u. found.new.items ≡ found.old.items ++ base_faults (functions_of functions.now) (base_of x.now)) }
{
    match x {
        TypedBase::Whole { array, span } => mismatch(found, Rate::Uniform, array.ty.rate, *span),
        TypedBase::From { array, index, span } => {
            mismatch(found, Rate::Uniform, array.ty.rate, *span)?;
            demanded(found, functions, Rate::Uniform, index)
        }
    }
}

/// Finds the faults in an argument whose parameter has a rate.
#[cycle(expr)]
fn argument(
    found: &mut Vec<Fault>,
    functions: &[TypedFunction],
    wanted: Rate,
    x: &TypedArgument,
) -> Result<(), AllocError>
    ensures { IfOk result (λ u. found.new.items ≡ found.old.items ++ argument_faults (functions_of functions.now) wanted (argument_of x.now)) }
{
    match x {
        TypedArgument::Value(value) => demanded(found, functions, wanted, value),
        TypedArgument::Array { array, span } => mismatch(found, wanted, array.ty.rate, *span),
    }
}

/// Finds the faults in a call.
#[cycle(expr)]
pub fn call(
    found: &mut Vec<Fault>,
    functions: &[TypedFunction],
    x: &TypedCall,
) -> Result<(), AllocError>
    ensures { IfOk result (λ u. found.new.items ≡ found.old.items ++ call_faults (functions_of functions.now) (call_of x.now)) }
{
    let parameters = variables(functions, x.function);
    for (place, given) in x.arguments.iter().enumerate() {
        argument(found, functions, parameter_rate(parameters, place), given)?;
    }
    Ok(())
}
