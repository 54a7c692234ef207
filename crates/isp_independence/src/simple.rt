//! Declarations, and what stands before a semicolon.
ghost use Rattle.std.specs.Prelude.{◌≡◌, option_map};
ghost use Rattle.isp_typed.specs.Views.{expr_of, exprs_of, first_of as first_part_of, item_of, items_of, place_of, range_of, ranges_of, simple_of};
ghost use Rattle.isp_independence.specs.reader.Answers.{assigned_answer, expr_answer, first_answer, item_answer, of_any, of_each, range_answer, simple_answer};

use crate::control::Control;
use crate::crossing::{call, expr, place};
use crate::dependence::{Dependence, Restriction, first, unless};
use crate::exits::is_varying;
use isp_base::{Rate, Span};
use isp_typed::{TypedExpr, TypedFirst, TypedItem, TypedPlace, TypedRange, TypedSimple};

/// The breach of an assignment to a place.
fn assigned(control: Control, target: &TypedPlace, span: Span) -> Option<Dependence>
    ensures { result ≡ assigned_answer control (place_of target.now) span }
{
    match target {
        TypedPlace::Variable { number, ty, .. } => match ty.rate {
            Rate::Varying => None,
            Rate::Uniform => {
                let outside = unless(!(*number < control.outside), Restriction::Outside, span);
                let turned = unless(!(*number < control.turned), Restriction::Turned, span);
                first(outside, turned)
            }
        },
        TypedPlace::Element { .. } => None,
    }
}

/// The first breach in what stands before a semicolon.
pub fn simple(control: Control, s: &TypedSimple) -> Option<Dependence>
    ensures { result ≡ simple_answer control (simple_of s.now) }
{
    match s {
        TypedSimple::Value(value) => expr(value),
        TypedSimple::Call(called) => call(called),
        TypedSimple::Assign {
            target,
            value,
            span,
        }
        | TypedSimple::Update {
            target,
            value,
            span,
            ..
        } => {
            let before = place(target);
            let after = expr(value);
            first(before, first(after, assigned(control, target, *span)))
        }
        TypedSimple::Step { target, span, .. } => {
            let before = place(target);
            first(before, assigned(control, target, *span))
        }
    }
}

fn item(declared: &TypedItem) -> Option<Dependence>
    ensures { result ≡ item_answer (item_of declared.now) }
{
    match declared {
        TypedItem::Plain { .. } => None,
        TypedItem::Value { value, .. } => expr(value),
        TypedItem::Array { array, span } => {
            unless(is_varying(array.ty.rate), Restriction::SharedArray, *span)
        }
    }
}

/// The first breach in the items of a declaration.
pub fn items(all: &[TypedItem]) -> Option<Dependence>
    ensures { result ≡ of_each item_answer (items_of all.now) }
{
    let mut seen = None;
    for declared in all {
        seen = first(seen, item(declared));
    }
    seen
}

fn first_part(control: Control, part: &TypedFirst) -> Option<Dependence>
    ensures { result ≡ first_answer control (first_part_of part.now) }
{
    match part {
        TypedFirst::Declare { items: all, .. } => items(all),
        TypedFirst::Simple(s) => simple(control, s),
    }
}

/// The first breach in the first part of a `for`.
pub fn beginning(control: Control, part: &Option<TypedFirst>) -> Option<Dependence>
    ensures { result ≡ of_any (first_answer control) (option_map first_part_of part.now) }
{
    match part {
        Some(part) => first_part(control, part),
        None => None,
    }
}

/// The first breach in the step of a `for`.
pub fn step(control: Control, part: &Option<TypedSimple>) -> Option<Dependence>
    ensures { result ≡ of_any (simple_answer control) (option_map simple_of part.now) }
{
    match part {
        Some(part) => simple(control, part),
        None => None,
    }
}

/// The first breach in an expression that may be left out.
pub fn given(part: &Option<TypedExpr>) -> Option<Dependence>
    ensures { result ≡ of_any expr_answer (option_map expr_of part.now) }
{
    match part {
        Some(part) => expr(part),
        None => None,
    }
}

/// The first breach in expressions.
pub fn values(all: &[TypedExpr]) -> Option<Dependence>
    ensures { result ≡ of_each expr_answer (exprs_of all.now) }
{
    let mut seen = None;
    for value in all {
        seen = first(seen, expr(value));
    }
    seen
}

fn range(r: &TypedRange) -> Option<Dependence>
    ensures { result ≡ range_answer (range_of r.now) }
{
    let before = expr(&r.start);
    first(before, expr(&r.end))
}

/// The first breach in the bounds of a `foreach`.
pub fn ranges(all: &[TypedRange]) -> Option<Dependence>
    ensures { result ≡ of_each range_answer (ranges_of all.now) }
{
    let mut seen = None;
    for r in all {
        seen = first(seen, range(r));
    }
    seen
}
