//! The rules of independent entries, statement by statement.
ghost use Rattle.std.specs.Prelude.{◌≡◌, option_map};
ghost use Rattle.isp_typed.specs.Typed.{rate_of};
ghost use Rattle.isp_typed.specs.Views.{block_of, expr_of, stmt_of};
ghost use Rattle.isp_independence.specs.reader.Answers.{block_answer, stmt_answer};

use crate::control::Control;
use crate::crossing::{crossing, expr};
use crate::dependence::{Dependence, Restriction, first, unless};
use crate::simple::{beginning, given, items, ranges, simple, step, values};
use isp_base::{Rate, Span};
use isp_typed::{TypedBlock, TypedExpr, TypedStmt};

/// The rate of a test that may be left out.
pub fn test_rate(test: &Option<TypedExpr>) -> Option<Rate>
    ensures { result ≡ option_map rate_of (option_map expr_of test.now) }
{
    match test {
        Some(test) => Some(test.ty().rate),
        None => None,
    }
}

fn printing(span: Span) -> Option<Dependence>
    ensures { result ≡ Some (record { rule = Restriction.Printing; span = span }) }
{
    Some(Dependence {
        rule: Restriction::Printing,
        span,
    })
}

/// The first breach in a statement that stands there.
#[cycle(stmt)]
fn stmt(control: Control, s: &TypedStmt) -> Option<Dependence>
    ensures { result ≡ stmt_answer control (stmt_of s.now) }
{
    match s {
        TypedStmt::Block(inner) => block(control, inner),
        TypedStmt::Declare { items: all, .. } => items(all),
        TypedStmt::Simple { simple: inner, .. } => simple(control, inner),
        TypedStmt::If {
            before,
            test,
            then,
            ..
        } => {
            let asked = expr(test);
            let inner = control.branch(test.ty().rate, *before);
            first(asked, stmt(inner, then))
        }
        TypedStmt::IfElse {
            before,
            test,
            then,
            otherwise,
            ..
        } => {
            let asked = expr(test);
            let inner = control.branch(test.ty().rate, *before);
            let chosen = stmt(inner, then);
            first(asked, first(chosen, stmt(inner, otherwise)))
        }
        TypedStmt::While {
            before,
            test,
            body,
            ..
        } => {
            let asked = expr(test);
            let around = control.of_loop(Some(test.ty().rate), *before, body);
            first(asked, stmt(around.turn(*before, body), body))
        }
        TypedStmt::Do {
            before,
            body,
            test,
            ..
        } => {
            let around = control.of_loop(Some(test.ty().rate), *before, body);
            let inner = stmt(around.turn(*before, body), body);
            first(inner, expr(test))
        }
        TypedStmt::For {
            before,
            first: part,
            test,
            step: last,
            inside,
            body,
            ..
        } => {
            let around = control.of_loop(test_rate(test), *before, body);
            let begun = beginning(around, part);
            let asked = given(test);
            let after = step(around, last);
            let inner = stmt(around.turn(*inside, body), body);
            first(begun, first(asked, first(after, inner)))
        }
        TypedStmt::Foreach {
            keyword,
            before,
            ranges: all,
            body,
            ..
        } => {
            let whole = !(control.incomplete || control.varying);
            let word = unless(whole, Restriction::Foreach, *keyword);
            let bounds = ranges(all);
            let inner = stmt(control.round(*before), body);
            first(word, first(bounds, inner))
        }
        TypedStmt::ForeachActive { keyword, body, .. } => {
            first(crossing(*keyword), stmt(control, body))
        }
        TypedStmt::ForeachUnique {
            keyword,
            value,
            body,
            ..
        } => {
            let asked = expr(value);
            let inner = stmt(control, body);
            first(crossing(*keyword), first(asked, inner))
        }
        TypedStmt::Unmasked { keyword, body, .. } => {
            first(crossing(*keyword), block(control, body))
        }
        TypedStmt::Jump { .. } => None,
        TypedStmt::Return { keyword, value, .. } => {
            let all = !(control.together && control.varying);
            let word = unless(all, Restriction::Return, *keyword);
            first(word, given(value))
        }
        TypedStmt::Print {
            keyword,
            values: all,
            ..
        } => first(printing(*keyword), values(all)),
        TypedStmt::Assert { test, .. } => expr(test),
    }
}

/// The first breach in a block that stands there.
#[cycle(stmt)]
pub fn block(control: Control, b: &TypedBlock) -> Option<Dependence>
    ensures { result ≡ block_answer control (block_of b.now) }
{
    let mut seen = None;
    for s in &b.statements {
        seen = first(seen, stmt(control, s));
    }
    seen
}
