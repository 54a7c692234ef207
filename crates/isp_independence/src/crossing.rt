//! Expressions that look across the gang.
ghost use Rattle.std.specs.Prelude.{◌≡◌};
ghost use Rattle.isp_typed.specs.Views.{argument_of, base_of, call_of, expr_of, place_of};
ghost use Rattle.isp_independence.specs.Crossing.{looks_across};
ghost use Rattle.isp_independence.specs.Dependences.{at};
ghost use Rattle.isp_independence.specs.reader.Answers.{argument_answer, base_answer, call_answer, expr_answer, place_answer};

use crate::dependence::{Dependence, Restriction, first, unless};
use isp_base::Span;
use isp_typed::{Library, TypedArgument, TypedBase, TypedCall, TypedExpr, TypedPlace};

/// Whether a function of the library gives an instance what others have.
fn looks_across(function: Library) -> bool
    ensures { result ≡ looks_across function }
{
    match function {
        Library::Min | Library::Max | Library::Clamp | Library::Abs | Library::Select => false,
        Library::ReduceAdd
        | Library::ReduceMin
        | Library::ReduceMax
        | Library::ReduceEqual
        | Library::Any
        | Library::All
        | Library::None
        | Library::ScanAdd
        | Library::ScanAnd
        | Library::ScanOr
        | Library::Broadcast
        | Library::Rotate
        | Library::Shift
        | Library::Shuffle
        | Library::ShuffleTwo
        | Library::Extract
        | Library::Insert => true,
    }
}

/// What stands there looks across the gang.
pub fn crossing(span: Span) -> Option<Dependence>
    ensures { result ≡ Some (at Restriction.Crossing span) }
{
    Some(Dependence {
        rule: Restriction::Crossing,
        span,
    })
}

/// The first breach in an expression.
#[cycle(expr)]
pub fn expr(x: &TypedExpr) -> Option<Dependence>
    ensures { result ≡ expr_answer (expr_of x.now) }
{
    match x {
        TypedExpr::Constant { .. } | TypedExpr::ProgramIndex { .. } => None,
        TypedExpr::Place(inner) => place(inner),
        TypedExpr::Convert { operand, .. }
        | TypedExpr::Cast { operand, .. }
        | TypedExpr::Unary { operand, .. } => expr(operand),
        TypedExpr::Binary { left, right, .. }
        | TypedExpr::Compare { left, right, .. }
        | TypedExpr::Logic { left, right, .. } => {
            let before = expr(left);
            first(before, expr(right))
        }
        TypedExpr::Choose {
            test,
            then,
            otherwise,
            ..
        } => {
            let before = expr(test);
            let chosen = expr(then);
            first(before, first(chosen, expr(otherwise)))
        }
        TypedExpr::Call { call: inner, .. } => call(inner),
        TypedExpr::Library {
            function,
            values,
            span,
            ..
        } => {
            let mut seen = None;
            for value in values {
                seen = first(seen, expr(value));
            }
            first(
                unless(!looks_across(*function), Restriction::Crossing, *span),
                seen,
            )
        }
        TypedExpr::PackedStore {
            base: array,
            value,
            span,
        } => {
            let inner = base(array);
            first(crossing(*span), first(inner, expr(value)))
        }
        TypedExpr::PackedLoad {
            base: array,
            span,
            ..
        } => first(crossing(*span), base(array)),
    }
}

/// The first breach in a place.
#[cycle(expr)]
pub fn place(x: &TypedPlace) -> Option<Dependence>
    ensures { result ≡ place_answer (place_of x.now) }
{
    match x {
        TypedPlace::Variable { .. } => None,
        TypedPlace::Element { index, .. } => expr(index),
    }
}

#[cycle(expr)]
fn base(x: &TypedBase) -> Option<Dependence>
    ensures { result ≡ base_answer (base_of x.now) }
{
    match x {
        TypedBase::Whole { .. } => None,
        TypedBase::From { index, .. } => expr(index),
    }
}

#[cycle(expr)]
fn argument(x: &TypedArgument) -> Option<Dependence>
    ensures { result ≡ argument_answer (argument_of x.now) }
{
    match x {
        TypedArgument::Value(value) => expr(value),
        TypedArgument::Array { .. } => None,
    }
}

/// The first breach in a call.
#[cycle(expr)]
pub fn call(x: &TypedCall) -> Option<Dependence>
    ensures { result ≡ call_answer (call_of x.now) }
{
    let mut seen = None;
    for given in &x.arguments {
        seen = first(seen, argument(given));
    }
    seen
}
