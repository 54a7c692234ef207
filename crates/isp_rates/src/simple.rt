//! Declarations, and what stands before a semicolon.
ghost use Rattle.std.specs.Prelude.{◌≡◌, option_map};
ghost use Rattle.isp_typed.specs.Views.{expr_of, exprs_of, first_of as first_part_of, functions_of, item_of, items_of, range_of, ranges_of, simple_of};
ghost use Rattle.isp_rates.specs.reader.Faults.{demand_fault, expr_fault, first_fault, item_fault, of_any, of_each, range_fault, simple_fault};

use crate::demand::demand;
use crate::expr::{call, expr, place};
use isp_base::Rate;
use isp_lex::Fault;
use isp_typed::{TypedExpr, TypedFirst, TypedFunction, TypedItem, TypedRange, TypedSimple, first};

/// The first fault in an expression where a rate is wanted.
pub fn demanded(functions: &[TypedFunction], wanted: Rate, x: &TypedExpr) -> Option<Fault>
    ensures { result ≡ demand_fault (functions_of functions.now) wanted (expr_of x.now) }
{
    demand(wanted, x, expr(functions, x))
}

/// The first fault in expressions whose rate does not matter.
pub fn values(functions: &[TypedFunction], all: &[TypedExpr]) -> Option<Fault>
    ensures { result ≡ of_each (expr_fault (functions_of functions.now)) (exprs_of all.now) }
{
    let mut seen = None;
    for value in all {
        seen = first(seen, expr(functions, value));
    }
    seen
}

fn item(functions: &[TypedFunction], declared: &TypedItem) -> Option<Fault>
    ensures { result ≡ item_fault (functions_of functions.now) (item_of declared.now) }
{
    match declared {
        TypedItem::Plain { .. } | TypedItem::Array { .. } => None,
        TypedItem::Value { ty, value, .. } => demanded(functions, ty.rate, value),
    }
}

/// The first fault in the items of a declaration.
pub fn items(functions: &[TypedFunction], all: &[TypedItem]) -> Option<Fault>
    ensures { result ≡ of_each (item_fault (functions_of functions.now)) (items_of all.now) }
{
    let mut seen = None;
    for declared in all {
        seen = first(seen, item(functions, declared));
    }
    seen
}

/// The first fault in what stands before a semicolon.
pub fn simple(functions: &[TypedFunction], s: &TypedSimple) -> Option<Fault>
    ensures { result ≡ simple_fault (functions_of functions.now) (simple_of s.now) }
{
    match s {
        TypedSimple::Value(value) => expr(functions, value),
        TypedSimple::Call(called) => call(functions, called),
        TypedSimple::Assign { target, value, .. } | TypedSimple::Update { target, value, .. } => {
            let before = place(functions, target);
            first(before, demanded(functions, target.ty().rate, value))
        }
        TypedSimple::Step { target, .. } => place(functions, target),
    }
}

fn first_part(functions: &[TypedFunction], part: &TypedFirst) -> Option<Fault>
    ensures { result ≡ first_fault (functions_of functions.now) (first_part_of part.now) }
{
    match part {
        TypedFirst::Declare { items: all, .. } => items(functions, all),
        TypedFirst::Simple(s) => simple(functions, s),
    }
}

/// The first fault in the first part of a `for`.
pub fn start(functions: &[TypedFunction], part: &Option<TypedFirst>) -> Option<Fault>
    ensures { result ≡ of_any (first_fault (functions_of functions.now)) (option_map first_part_of part.now) }
{
    match part {
        Some(part) => first_part(functions, part),
        None => None,
    }
}

/// The first fault in the test of a `for`.
pub fn test(functions: &[TypedFunction], part: &Option<TypedExpr>) -> Option<Fault>
    ensures { result ≡ of_any (expr_fault (functions_of functions.now)) (option_map expr_of part.now) }
{
    match part {
        Some(part) => expr(functions, part),
        None => None,
    }
}

/// The first fault in the step of a `for`.
pub fn step(functions: &[TypedFunction], part: &Option<TypedSimple>) -> Option<Fault>
    ensures { result ≡ of_any (simple_fault (functions_of functions.now)) (option_map simple_of part.now) }
{
    match part {
        Some(part) => simple(functions, part),
        None => None,
    }
}

fn range(functions: &[TypedFunction], r: &TypedRange) -> Option<Fault>
    ensures { result ≡ range_fault (functions_of functions.now) (range_of r.now) }
{
    let before = demanded(functions, Rate::Uniform, &r.start);
    first(before, demanded(functions, Rate::Uniform, &r.end))
}

/// The first fault in the bounds of a `foreach`.
pub fn ranges(functions: &[TypedFunction], all: &[TypedRange]) -> Option<Fault>
    ensures { result ≡ of_each (range_fault (functions_of functions.now)) (ranges_of all.now) }
{
    let mut seen = None;
    for r in all {
        seen = first(seen, range(functions, r));
    }
    seen
}
