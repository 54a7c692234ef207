//! Rates in expressions.
ghost use Rattle.std.specs.Prelude.{◌≡◌};
ghost use Rattle.isp_typed.specs.Views.{argument_of, base_of, call_of, expr_of, functions_of, place_of};
ghost use Rattle.isp_rates.specs.reader.Faults.{argument_fault, base_fault, call_fault, expr_fault, place_fault};

use crate::demand::{demand, mismatch, parameter_rate, value_rate, variables};
use isp_base::Rate;
use isp_lex::Fault;
use isp_typed::{TypedArgument, TypedBase, TypedCall, TypedExpr, TypedFunction, TypedPlace, first};

/// The first fault in an expression.
#[cycle(expr)]
pub fn expr(functions: &[TypedFunction], x: &TypedExpr) -> Option<Fault>
    ensures { result ≡ expr_fault (functions_of functions.now) (expr_of x.now) }
{
    match x {
        TypedExpr::Constant { .. } | TypedExpr::ProgramIndex { .. } => None,
        TypedExpr::Place(inner) => place(functions, inner),
        TypedExpr::Convert { operand, .. } | TypedExpr::Unary { operand, .. } => expr(
            functions, operand,
        ),
        TypedExpr::Cast { operand, ty, .. } => demand(ty.rate, operand, expr(functions, operand)),
        TypedExpr::Binary { left, right, .. }
        | TypedExpr::Compare { left, right, .. }
        | TypedExpr::Logic { left, right, .. } => {
            let before = expr(functions, left);
            first(before, expr(functions, right))
        }
        TypedExpr::Choose {
            test,
            then,
            otherwise,
            ..
        } => {
            let before = expr(functions, test);
            let chosen = expr(functions, then);
            first(before, first(chosen, expr(functions, otherwise)))
        }
        TypedExpr::Call { call: inner, .. } => call(functions, inner),
        TypedExpr::Library {
            function,
            values,
            ..
        } => {
            let parts = function.parts();
            let mut seen = None;
            for (place, value) in values.iter().enumerate() {
                let inner = expr(functions, value);
                seen = first(seen, demand(value_rate(parts, place), value, inner));
            }
            seen
        }
        TypedExpr::PackedStore {
            base: array,
            value,
            ..
        } => {
            let before = base(functions, array);
            first(before, expr(functions, value))
        }
        TypedExpr::PackedLoad { base: array, .. } => base(functions, array),
    }
}

/// The first fault in a place.
#[cycle(expr)]
pub fn place(functions: &[TypedFunction], x: &TypedPlace) -> Option<Fault>
    ensures { result ≡ place_fault (functions_of functions.now) (place_of x.now) }
{
    match x {
        TypedPlace::Variable { .. } => None,
        TypedPlace::Element { index, .. } => expr(functions, index),
    }
}

/// The first fault in the array of a packed call.
#[cycle(expr)]
fn base(functions: &[TypedFunction], x: &TypedBase) -> Option<Fault>
    ensures { result ≡ base_fault (functions_of functions.now) (base_of x.now) }
{
    match x {
        TypedBase::Whole { array, span } => mismatch(Rate::Uniform, array.ty.rate, *span),
        TypedBase::From { array, index, span } => {
            let before = mismatch(Rate::Uniform, array.ty.rate, *span);
            let inner = expr(functions, index);
            first(before, demand(Rate::Uniform, index, inner))
        }
    }
}

/// The first fault in an argument whose parameter has a rate.
#[cycle(expr)]
fn argument(functions: &[TypedFunction], wanted: Rate, x: &TypedArgument) -> Option<Fault>
    ensures { result ≡ argument_fault (functions_of functions.now) wanted (argument_of x.now) }
{
    match x {
        TypedArgument::Value(value) => demand(wanted, value, expr(functions, value)),
        TypedArgument::Array { array, span } => mismatch(wanted, array.ty.rate, *span),
    }
}

/// The first fault in a call.
#[cycle(expr)]
pub fn call(functions: &[TypedFunction], x: &TypedCall) -> Option<Fault>
    ensures { result ≡ call_fault (functions_of functions.now) (call_of x.now) }
{
    let parameters = variables(functions, x.function);
    let mut seen = None;
    for (place, given) in x.arguments.iter().enumerate() {
        let wanted = parameter_rate(parameters, place);
        seen = first(seen, argument(functions, wanted, given));
    }
    seen
}
