//! Whether two expressions are the same but for their places.
ghost use Rattle.std.specs.Prelude.{◌≡◌, IsTrue};
ghost use Rattle.isp_typed.specs.Typed.{t_exprs};
ghost use Rattle.isp_typed.specs.Views.{argument_of, base_of, call_of, expr_of, exprs_of, place_of};
ghost use Rattle.isp_alike.specs.Bare.{bare_argument, bare_base, bare_call, bare_expr, bare_exprs, bare_place};

use crate::spot::{same_array, same_library, same_logic, same_value};
use isp_typed::{TypedArgument, TypedBase, TypedCall, TypedExpr, TypedPlace};

/// Whether two expressions are the same but for their places.
#[cycle(expr)]
pub(crate) fn same_expr(x: &TypedExpr, y: &TypedExpr) -> bool
    ensures { IsTrue result → bare_expr (expr_of x.now) ≡ bare_expr (expr_of y.now) }
{
    match x {
        TypedExpr::Constant { .. }
        | TypedExpr::ProgramIndex { .. }
        | TypedExpr::Place(_)
        | TypedExpr::Call { .. } => same_plain(x, y),
        TypedExpr::Convert { .. } | TypedExpr::Cast { .. } => same_converted(x, y),
        TypedExpr::Unary { .. } | TypedExpr::Binary { .. } => same_computed(x, y),
        TypedExpr::Compare { .. } | TypedExpr::Logic { .. } => same_test(x, y),
        TypedExpr::Choose { .. } => same_choice(x, y),
        TypedExpr::Library { .. } => same_library_call(x, y),
        TypedExpr::PackedStore { .. } | TypedExpr::PackedLoad { .. } => same_packed(x, y),
    }
}

/// The same of two conversions, or two casts.
#[cycle(expr)]
fn same_converted(x: &TypedExpr, y: &TypedExpr) -> bool
    ensures { IsTrue result → bare_expr (expr_of x.now) ≡ bare_expr (expr_of y.now) }
{
    match (x, y) {
        (
            TypedExpr::Convert {
                elem: d,
                operand: a,
            },
            TypedExpr::Convert {
                elem: e,
                operand: b,
            },
        ) => *d == *e && same_expr(a, b),
        (
            TypedExpr::Cast {
                operand: a,
                ty: t,
                ..
            },
            TypedExpr::Cast {
                operand: b,
                ty: u,
                ..
            },
        ) => *t == *u && same_expr(a, b),
        _ => false,
    }
}

/// The same of two operators on one value, or two on two values.
#[cycle(expr)]
fn same_computed(x: &TypedExpr, y: &TypedExpr) -> bool
    ensures { IsTrue result → bare_expr (expr_of x.now) ≡ bare_expr (expr_of y.now) }
{
    match (x, y) {
        (
            TypedExpr::Unary {
                operator: o,
                operand: a,
                ty: t,
                ..
            },
            TypedExpr::Unary {
                operator: p,
                operand: b,
                ty: u,
                ..
            },
        ) => *o == *p && *t == *u && same_expr(a, b),
        (
            TypedExpr::Binary {
                operator: o,
                left: a,
                right: b,
                ty: t,
                ..
            },
            TypedExpr::Binary {
                operator: p,
                left: c,
                right: d,
                ty: u,
                ..
            },
        ) => *o == *p && *t == *u && same_expr(a, c) && same_expr(b, d),
        _ => false,
    }
}

/// The same of two comparisons, or two of `&&` and `||`.
#[cycle(expr)]
fn same_test(x: &TypedExpr, y: &TypedExpr) -> bool
    ensures { IsTrue result → bare_expr (expr_of x.now) ≡ bare_expr (expr_of y.now) }
{
    match (x, y) {
        (
            TypedExpr::Compare {
                comparison: o,
                left: a,
                right: b,
                rate: r,
                ..
            },
            TypedExpr::Compare {
                comparison: p,
                left: c,
                right: d,
                rate: s,
                ..
            },
        ) => *o == *p && *r == *s && same_expr(a, c) && same_expr(b, d),
        (
            TypedExpr::Logic {
                logic: o,
                left: a,
                right: b,
                rate: r,
                ..
            },
            TypedExpr::Logic {
                logic: p,
                left: c,
                right: d,
                rate: s,
                ..
            },
        ) => same_logic(*o, *p) && *r == *s && same_expr(a, c) && same_expr(b, d),
        _ => false,
    }
}

/// The same of two `?:`.
#[cycle(expr)]
fn same_choice(x: &TypedExpr, y: &TypedExpr) -> bool
    ensures { IsTrue result → bare_expr (expr_of x.now) ≡ bare_expr (expr_of y.now) }
{
    match (x, y) {
        (
            TypedExpr::Choose {
                test: a,
                then: b,
                otherwise: c,
                ty: t,
                ..
            },
            TypedExpr::Choose {
                test: d,
                then: e,
                otherwise: f,
                ty: u,
                ..
            },
        ) => *t == *u && same_expr(a, d) && same_expr(b, e) && same_expr(c, f),
        _ => false,
    }
}

/// Whether the values of two calls of the library are the same but for their places.
#[cycle(expr)]
fn same_exprs(xs: &[TypedExpr], ys: &[TypedExpr]) -> bool
    ensures { IsTrue result → bare_exprs (t_exprs (exprs_of xs.now)) ≡ bare_exprs (t_exprs (exprs_of ys.now)) }
{
    let mut rest = ys;
    for value in xs {
        let [other, more @ ..] = rest else {
            return false;
        };
        if !same_expr(value, other) {
            return false;
        }
        rest = more;
    }
    rest.is_empty()
}

/// The same of two calls of the library on values.
#[cycle(expr)]
fn same_library_call(x: &TypedExpr, y: &TypedExpr) -> bool
    ensures { IsTrue result → bare_expr (expr_of x.now) ≡ bare_expr (expr_of y.now) }
{
    match (x, y) {
        (
            TypedExpr::Library {
                function: f,
                elem: d,
                values: xs,
                ty: t,
                ..
            },
            TypedExpr::Library {
                function: g,
                elem: e,
                values: ys,
                ty: u,
                ..
            },
        ) => same_library(*f, *g) && *d == *e && *t == *u && same_exprs(xs, ys),
        _ => false,
    }
}

/// The same of two packed stores, or two packed loads.
#[cycle(expr)]
fn same_packed(x: &TypedExpr, y: &TypedExpr) -> bool
    ensures { IsTrue result → bare_expr (expr_of x.now) ≡ bare_expr (expr_of y.now) }
{
    match (x, y) {
        (
            TypedExpr::PackedStore {
                base: a,
                value: v,
                ..
            },
            TypedExpr::PackedStore {
                base: b,
                value: w,
                ..
            },
        ) => same_base(a, b) && same_expr(v, w),
        (
            TypedExpr::PackedLoad {
                base: a,
                variable: k,
                ..
            },
            TypedExpr::PackedLoad {
                base: b,
                variable: j,
                ..
            },
        ) => *k == *j && same_base(a, b),
        _ => false,
    }
}

/// The same of two constants, places or calls, or of `programIndex`.
#[cycle(expr)]
fn same_plain(x: &TypedExpr, y: &TypedExpr) -> bool
    ensures { IsTrue result → bare_expr (expr_of x.now) ≡ bare_expr (expr_of y.now) }
{
    match (x, y) {
        (TypedExpr::Constant { value: v, .. }, TypedExpr::Constant { value: w, .. }) => {
            same_value(*v, *w)
        }
        (TypedExpr::ProgramIndex { .. }, TypedExpr::ProgramIndex { .. }) => true,
        (TypedExpr::Place(p), TypedExpr::Place(q)) => same_place(p, q),
        (TypedExpr::Call { call: c, ty: t }, TypedExpr::Call { call: d, ty: u }) => {
            *t == *u && same_call(c, d)
        }
        _ => false,
    }
}

/// Whether two places are the same but for where they stand.
#[cycle(expr)]
pub(crate) fn same_place(x: &TypedPlace, y: &TypedPlace) -> bool
    ensures { IsTrue result → bare_place (place_of x.now) ≡ bare_place (place_of y.now) }
{
    match (x, y) {
        (
            TypedPlace::Variable {
                number: k,
                ty: t,
                ..
            },
            TypedPlace::Variable {
                number: j,
                ty: u,
                ..
            },
        ) => *k == *j && *t == *u,
        (
            TypedPlace::Element {
                array: a,
                index: i,
                ty: t,
                ..
            },
            TypedPlace::Element {
                array: b,
                index: j,
                ty: u,
                ..
            },
        ) => same_array(*a, *b) && *t == *u && same_expr(i, j),
        _ => false,
    }
}

#[cycle(expr)]
fn same_base(x: &TypedBase, y: &TypedBase) -> bool
    ensures { IsTrue result → bare_base (base_of x.now) ≡ bare_base (base_of y.now) }
{
    match (x, y) {
        (TypedBase::Whole { array: a, .. }, TypedBase::Whole { array: b, .. }) => {
            same_array(*a, *b)
        }
        (
            TypedBase::From {
                array: a,
                index: i,
                ..
            },
            TypedBase::From {
                array: b,
                index: j,
                ..
            },
        ) => same_array(*a, *b) && same_expr(i, j),
        _ => false,
    }
}

#[cycle(expr)]
fn same_argument(x: &TypedArgument, y: &TypedArgument) -> bool
    ensures { IsTrue result → bare_argument (argument_of x.now) ≡ bare_argument (argument_of y.now) }
{
    match (x, y) {
        (TypedArgument::Value(v), TypedArgument::Value(w)) => same_expr(v, w),
        (TypedArgument::Array { array: a, .. }, TypedArgument::Array { array: b, .. }) => {
            same_array(*a, *b)
        }
        _ => false,
    }
}

/// Whether two calls are the same but for their places.
#[cycle(expr)]
pub(crate) fn same_call(x: &TypedCall, y: &TypedCall) -> bool
    ensures { IsTrue result → bare_call (call_of x.now) ≡ bare_call (call_of y.now) }
{
    if x.function != y.function {
        return false;
    }
    let mut rest = y.arguments.as_slice();
    for given in &x.arguments {
        let [other, more @ ..] = rest else {
            return false;
        };
        if !same_argument(given, other) {
            return false;
        }
        rest = more;
    }
    rest.is_empty()
}
