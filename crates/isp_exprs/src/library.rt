//! Calls of the library's functions on values.
ghost use Rattle.std.specs.Prelude.{◌≡◌, IfOk, map};
ghost use Rattle.isp_typed.specs.Typed.{t_exprs, elem_of};
ghost use Rattle.isp_typed.specs.Views.{exprs_of};
ghost use Rattle.isp_exprs.specs.reader.Parts.{boxed_of, boxes_of};
ghost use Rattle.isp_exprs.specs.LibraryCalls.{as_parts, library_call, rate_all, worked_in};

use crate::values::{boxed, chosen, converted, rate_or};
use isp_base::{Elem, Rate, Span, common, operand};
use isp_typed::{Library, Part, TypedExpr};
use std::alloc::{AllocError, Global};

/// The element types of values.
fn elems(alloc: Global, values: &[Box<TypedExpr>]) -> Result<Vec<Elem>, AllocError>
    ensures { IfOk result (λ l. l.items ≡ map elem_of (boxes_of values.now)) }
{
    let mut all = Vec::new(alloc);
    for value in values {
        all.push(value.ty().elem)?;
    }
    Ok(all)
}

/// The element type in which a call works, by those of its values.
fn worked_in(function: Library, elems: &[Elem]) -> Elem
    ensures { result ≡ worked_in function elems.now }
{
    match (function, elems) {
        (Library::Any | Library::All | Library::None, _) => Elem::Bool,
        (Library::ShuffleTwo | Library::Min | Library::Max, [a, b, ..]) => common(*a, *b),
        (Library::Clamp, [a, b, c, ..]) => common(common(*a, *b), *c),
        (Library::Select, [_, a, b, ..]) => chosen(*a, *b),
        (_, [a, ..]) => operand(*a),
        (_, []) => Elem::I32,
    }
}

/// Varying where one of the values is.
fn rate_all(values: &[Box<TypedExpr>]) -> Rate
    ensures { result ≡ rate_all (boxes_of values.now) }
{
    let mut rate = Rate::Uniform;
    for value in values {
        rate = rate_or(rate, value.ty().rate);
    }
    rate
}

/// Each value as its place asks.
fn as_parts(
    alloc: Global,
    worked: Elem,
    parts: &[Part],
    values: Vec<Box<TypedExpr>>,
) -> Result<Vec<TypedExpr>, AllocError>
    ensures { IfOk result (λ l. t_exprs (exprs_of l.items) ≡ as_parts worked parts.now (boxes_of values.items)) }
{
    let mut all = Vec::new(alloc);
    for (part, value) in parts.iter().zip(values) {
        let value = converted(alloc, part.elem(worked), value)?;
        all.push(Box::into_inner(value))?;
    }
    Ok(all)
}

/// A call of the library.
pub fn library_call(
    alloc: Global,
    function: Library,
    values: Vec<Box<TypedExpr>>,
    span: Span,
) -> Result<Box<TypedExpr>, AllocError>
    ensures { IfOk result (λ t. boxed_of t ≡ library_call function span (boxes_of values.items)) }
{
    let elems = elems(alloc, &values)?;
    let elem = worked_in(function, &elems);
    let ty = function.ty(elem, rate_all(&values));
    let values = as_parts(alloc, elem, function.parts(), values)?;
    let call = TypedExpr::Library {
        function,
        elem,
        values,
        ty,
        span,
    };
    boxed(alloc, call)
}
