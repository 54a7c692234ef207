//! Whether two statements are the same but for their places.
ghost use Rattle.std.specs.Prelude.{◌≡◌, IsTrue};
ghost use Rattle.isp_typed.specs.Views.{block_of, stmt_of};
ghost use Rattle.isp_alike.specs.Bare.{bare_block, bare_stmt};

use crate::expr::same_expr;
use crate::simple::{
    same_given, same_items, same_ranges, same_simple, same_start, same_step, same_values,
};
use crate::spot::{same_form, same_jump};
use isp_typed::{TypedBlock, TypedStmt};

/// Whether two statements are the same but for their places.
#[cycle(stmt)]
fn same_stmt(x: &TypedStmt, y: &TypedStmt) -> bool
    ensures { IsTrue result → bare_stmt (stmt_of x.now) ≡ bare_stmt (stmt_of y.now) }
{
    match x {
        TypedStmt::If { .. } => same_if(x, y),
        TypedStmt::IfElse { .. } => same_if_else(x, y),
        TypedStmt::While { .. } | TypedStmt::Do { .. } => same_repeated(x, y),
        TypedStmt::For { .. } => same_for(x, y),
        TypedStmt::Foreach { .. } | TypedStmt::ForeachActive { .. } => same_foreach(x, y),
        TypedStmt::ForeachUnique { .. } => same_unique(x, y),
        TypedStmt::Block(_)
        | TypedStmt::Declare { .. }
        | TypedStmt::Simple { .. }
        | TypedStmt::Unmasked { .. }
        | TypedStmt::Jump { .. }
        | TypedStmt::Return { .. }
        | TypedStmt::Print { .. }
        | TypedStmt::Assert { .. } => same_plain(x, y),
    }
}

/// The same of two `if` without `else`.
#[cycle(stmt)]
fn same_if(x: &TypedStmt, y: &TypedStmt) -> bool
    ensures { IsTrue result → bare_stmt (stmt_of x.now) ≡ bare_stmt (stmt_of y.now) }
{
    match (x, y) {
        (
            TypedStmt::If {
                form: f,
                before: n,
                test: v,
                then: a,
                ..
            },
            TypedStmt::If {
                form: g,
                before: m,
                test: w,
                then: b,
                ..
            },
        ) => same_form(*f, *g) && *n == *m && same_expr(v, w) && same_stmt(a, b),
        _ => false,
    }
}

/// The same of two `if` with `else`.
#[cycle(stmt)]
fn same_if_else(x: &TypedStmt, y: &TypedStmt) -> bool
    ensures { IsTrue result → bare_stmt (stmt_of x.now) ≡ bare_stmt (stmt_of y.now) }
{
    match (x, y) {
        (
            TypedStmt::IfElse {
                form: f,
                before: n,
                test: v,
                then: a,
                otherwise: c,
                ..
            },
            TypedStmt::IfElse {
                form: g,
                before: m,
                test: w,
                then: b,
                otherwise: d,
                ..
            },
        ) => {
            same_form(*f, *g) && *n == *m && same_expr(v, w) && same_stmt(a, b) && same_stmt(c, d)
        }
        _ => false,
    }
}

/// The same of two `while`, or two `do`.
#[cycle(stmt)]
fn same_repeated(x: &TypedStmt, y: &TypedStmt) -> bool
    ensures { IsTrue result → bare_stmt (stmt_of x.now) ≡ bare_stmt (stmt_of y.now) }
{
    match (x, y) {
        (
            TypedStmt::While {
                form: f,
                before: n,
                test: v,
                body: a,
                ..
            },
            TypedStmt::While {
                form: g,
                before: m,
                test: w,
                body: b,
                ..
            },
        ) => same_form(*f, *g) && *n == *m && same_expr(v, w) && same_stmt(a, b),
        (
            TypedStmt::Do {
                form: f,
                before: n,
                body: a,
                test: v,
                ..
            },
            TypedStmt::Do {
                form: g,
                before: m,
                body: b,
                test: w,
                ..
            },
        ) => same_form(*f, *g) && *n == *m && same_stmt(a, b) && same_expr(v, w),
        _ => false,
    }
}

/// The same of two `for`.
#[cycle(stmt)]
fn same_for(x: &TypedStmt, y: &TypedStmt) -> bool
    ensures { IsTrue result → bare_stmt (stmt_of x.now) ≡ bare_stmt (stmt_of y.now) }
{
    match (x, y) {
        (
            TypedStmt::For {
                form: f,
                before: n,
                first: i,
                test: v,
                step: p,
                inside: k,
                body: a,
                ..
            },
            TypedStmt::For {
                form: g,
                before: m,
                first: j,
                test: w,
                step: q,
                inside: l,
                body: b,
                ..
            },
        ) => {
            same_form(*f, *g)
                && *n == *m
                && *k == *l
                && same_start(i, j)
                && same_given(v, w)
                && same_step(p, q)
                && same_stmt(a, b)
        }
        _ => false,
    }
}

/// The same of two `foreach`, or two `foreach_active`.
#[cycle(stmt)]
fn same_foreach(x: &TypedStmt, y: &TypedStmt) -> bool
    ensures { IsTrue result → bare_stmt (stmt_of x.now) ≡ bare_stmt (stmt_of y.now) }
{
    match (x, y) {
        (
            TypedStmt::Foreach {
                before: n,
                ranges: r,
                body: a,
                ..
            },
            TypedStmt::Foreach {
                before: m,
                ranges: s,
                body: b,
                ..
            },
        ) => *n == *m && same_ranges(r, s) && same_stmt(a, b),
        (
            TypedStmt::ForeachActive {
                before: n,
                index: i,
                body: a,
                ..
            },
            TypedStmt::ForeachActive {
                before: m,
                index: j,
                body: b,
                ..
            },
        ) => *n == *m && *i == *j && same_stmt(a, b),
        _ => false,
    }
}

/// The same of two `foreach_unique`.
#[cycle(stmt)]
fn same_unique(x: &TypedStmt, y: &TypedStmt) -> bool
    ensures { IsTrue result → bare_stmt (stmt_of x.now) ≡ bare_stmt (stmt_of y.now) }
{
    match (x, y) {
        (
            TypedStmt::ForeachUnique {
                before: n,
                index: i,
                elem: d,
                value: v,
                body: a,
                ..
            },
            TypedStmt::ForeachUnique {
                before: m,
                index: j,
                elem: e,
                value: w,
                body: b,
                ..
            },
        ) => *n == *m && *i == *j && *d == *e && same_expr(v, w) && same_stmt(a, b),
        _ => false,
    }
}

/// The same of two blocks, or two statements of one kind that have none inside.
#[cycle(stmt)]
fn same_plain(x: &TypedStmt, y: &TypedStmt) -> bool
    ensures { IsTrue result → bare_stmt (stmt_of x.now) ≡ bare_stmt (stmt_of y.now) }
{
    match (x, y) {
        (TypedStmt::Block(a), TypedStmt::Block(b)) => same_block(a, b),
        (TypedStmt::Declare { items: a, .. }, TypedStmt::Declare { items: b, .. }) => {
            same_items(a, b)
        }
        (TypedStmt::Simple { simple: a, .. }, TypedStmt::Simple { simple: b, .. }) => {
            same_simple(a, b)
        }
        (TypedStmt::Unmasked { body: a, .. }, TypedStmt::Unmasked { body: b, .. }) => {
            same_block(a, b)
        }
        (TypedStmt::Jump { jump: a, .. }, TypedStmt::Jump { jump: b, .. }) => same_jump(*a, *b),
        (TypedStmt::Return { value: v, .. }, TypedStmt::Return { value: w, .. }) => {
            same_given(v, w)
        }
        (
            TypedStmt::Print {
                text: t,
                values: v,
                ..
            },
            TypedStmt::Print {
                text: u,
                values: w,
                ..
            },
        ) => t.as_slice() == u.as_slice() && same_values(v, w),
        (TypedStmt::Assert { test: v, .. }, TypedStmt::Assert { test: w, .. }) => same_expr(v, w),
        _ => false,
    }
}

/// Whether two blocks are the same but for their places.
#[cycle(stmt)]
pub(crate) fn same_block(x: &TypedBlock, y: &TypedBlock) -> bool
    ensures { IsTrue result → bare_block (block_of x.now) ≡ bare_block (block_of y.now) }
{
    let mut rest = y.statements.as_slice();
    for s in &x.statements {
        let [other, more @ ..] = rest else {
            return false;
        };
        if !same_stmt(s, other) {
            return false;
        }
        rest = more;
    }
    rest.is_empty()
}
