//! Whether declarations, and what stands before a semicolon, are the same but for their places.
ghost use Rattle.std.specs.Prelude.{◌≡◌, IsTrue, map, option_map};
ghost use Rattle.isp_typed.specs.Views.{expr_of, exprs_of, first_of, item_of, items_of, range_of, ranges_of, simple_of};
ghost use Rattle.isp_alike.specs.Bare.{bare_expr, bare_first, bare_item, bare_range, bare_simple};

use crate::expr::{same_call, same_expr, same_place};
use crate::spot::same_array;
use isp_typed::{TypedExpr, TypedFirst, TypedItem, TypedRange, TypedSimple};

/// Whether expressions are the same but for their places.
pub(crate) fn same_values(xs: &[TypedExpr], ys: &[TypedExpr]) -> bool
    ensures { IsTrue result → map bare_expr (exprs_of xs.now) ≡ map bare_expr (exprs_of ys.now) }
{
    let mut rest = ys;
    for x in xs {
        let [y, more @ ..] = rest else {
            return false;
        };
        if !same_expr(x, y) {
            return false;
        }
        rest = more;
    }
    rest.is_empty()
}

/// Whether two expressions that may be left out are the same but for their places.
pub(crate) fn same_given(x: &Option<TypedExpr>, y: &Option<TypedExpr>) -> bool
    ensures { IsTrue result → option_map bare_expr (option_map expr_of x.now) ≡ option_map bare_expr (option_map expr_of y.now) }
{
    match (x, y) {
        (Some(x), Some(y)) => same_expr(x, y),
        (None, None) => true,
        _ => false,
    }
}

fn same_item(x: &TypedItem, y: &TypedItem) -> bool
    ensures { IsTrue result → bare_item (item_of x.now) ≡ bare_item (item_of y.now) }
{
    match (x, y) {
        (
            TypedItem::Plain {
                number: k,
                ty: t,
                ..
            },
            TypedItem::Plain {
                number: j,
                ty: u,
                ..
            },
        ) => *k == *j && *t == *u,
        (
            TypedItem::Value {
                number: k,
                ty: t,
                value: v,
                ..
            },
            TypedItem::Value {
                number: j,
                ty: u,
                value: w,
                ..
            },
        ) => *k == *j && *t == *u && same_expr(v, w),
        (TypedItem::Array { array: a, .. }, TypedItem::Array { array: b, .. }) => {
            same_array(*a, *b)
        }
        _ => false,
    }
}

/// Whether the items of two declarations are the same but for their places.
pub(crate) fn same_items(xs: &[TypedItem], ys: &[TypedItem]) -> bool
    ensures { IsTrue result → map bare_item (items_of xs.now) ≡ map bare_item (items_of ys.now) }
{
    let mut rest = ys;
    for x in xs {
        let [y, more @ ..] = rest else {
            return false;
        };
        if !same_item(x, y) {
            return false;
        }
        rest = more;
    }
    rest.is_empty()
}

/// Whether what stands before two semicolons is the same but for its places.
pub(crate) fn same_simple(x: &TypedSimple, y: &TypedSimple) -> bool
    ensures { IsTrue result → bare_simple (simple_of x.now) ≡ bare_simple (simple_of y.now) }
{
    match (x, y) {
        (TypedSimple::Value(v), TypedSimple::Value(w)) => same_expr(v, w),
        (TypedSimple::Call(c), TypedSimple::Call(d)) => same_call(c, d),
        (
            TypedSimple::Assign {
                target: p,
                value: v,
                ..
            },
            TypedSimple::Assign {
                target: q,
                value: w,
                ..
            },
        ) => same_place(p, q) && same_expr(v, w),
        _ => same_change(x, y),
    }
}

/// The same of two assignments with an operator, or two steps by one.
fn same_change(x: &TypedSimple, y: &TypedSimple) -> bool
    ensures { IsTrue result → bare_simple (simple_of x.now) ≡ bare_simple (simple_of y.now) }
{
    match (x, y) {
        (
            TypedSimple::Update {
                operator: o,
                elem: d,
                target: p,
                value: v,
                ..
            },
            TypedSimple::Update {
                operator: n,
                elem: e,
                target: q,
                value: w,
                ..
            },
        ) => *o == *n && *d == *e && same_place(p, q) && same_expr(v, w),
        (
            TypedSimple::Step {
                operator: o,
                elem: d,
                target: p,
                ..
            },
            TypedSimple::Step {
                operator: n,
                elem: e,
                target: q,
                ..
            },
        ) => *o == *n && *d == *e && same_place(p, q),
        _ => false,
    }
}

fn same_first(x: &TypedFirst, y: &TypedFirst) -> bool
    ensures { IsTrue result → bare_first (first_of x.now) ≡ bare_first (first_of y.now) }
{
    match (x, y) {
        (TypedFirst::Declare { items: a, .. }, TypedFirst::Declare { items: b, .. }) => {
            same_items(a, b)
        }
        (TypedFirst::Simple(s), TypedFirst::Simple(t)) => same_simple(s, t),
        _ => false,
    }
}

/// Whether the first parts of two `for` are the same but for their places.
pub(crate) fn same_start(x: &Option<TypedFirst>, y: &Option<TypedFirst>) -> bool
    ensures { IsTrue result → option_map bare_first (option_map first_of x.now) ≡ option_map bare_first (option_map first_of y.now) }
{
    match (x, y) {
        (Some(x), Some(y)) => same_first(x, y),
        (None, None) => true,
        _ => false,
    }
}

/// Whether the steps of two `for` are the same but for their places.
pub(crate) fn same_step(x: &Option<TypedSimple>, y: &Option<TypedSimple>) -> bool
    ensures { IsTrue result → option_map bare_simple (option_map simple_of x.now) ≡ option_map bare_simple (option_map simple_of y.now) }
{
    match (x, y) {
        (Some(x), Some(y)) => same_simple(x, y),
        (None, None) => true,
        _ => false,
    }
}

fn same_range(x: &TypedRange, y: &TypedRange) -> bool
    ensures { IsTrue result → bare_range (range_of x.now) ≡ bare_range (range_of y.now) }
{
    x.index == y.index && same_expr(&x.start, &y.start) && same_expr(&x.end, &y.end)
}

/// Whether the ranges of two `foreach` are the same but for their places.
pub(crate) fn same_ranges(xs: &[TypedRange], ys: &[TypedRange]) -> bool
    ensures { IsTrue result → map bare_range (ranges_of xs.now) ≡ map bare_range (ranges_of ys.now) }
{
    let mut rest = ys;
    for x in xs {
        let [y, more @ ..] = rest else {
            return false;
        };
        if !same_range(x, y) {
            return false;
        }
        rest = more;
    }
    rest.is_empty()
}
