//! Statements: rates, exits, and a `foreach` in a `foreach`.
ghost use Rattle.std.specs.Prelude.{◌≡◌, not, option_map};
ghost use Rattle.isp_lex.specs.Faults.{fault};
ghost use Rattle.isp_typed.specs.Verdicts.{fault_unless};
ghost use Rattle.isp_typed.specs.Views.{block_of, expr_of, functions_of, stmt_of};
ghost use Rattle.isp_rates.specs.Exits.{may_jump, returned_rate};
ghost use Rattle.isp_rates.specs.reader.Faults.{block_fault, of_any, return_fault, stmt_fault};

use crate::exits::{Within, may_jump};
use crate::expr::expr;
use crate::simple::{demanded, items, ranges, simple, start, step, test as tested, values};
use isp_base::{Rate, Span, Ty};
use isp_lex::{Fault, Rule};
use isp_tree::Jump;
use isp_typed::{TypedBlock, TypedExpr, TypedFunction, TypedStmt, first, unless};

/// The fault of a jump.
fn jumps(within: Within, jump: Jump, keyword: Span) -> Option<Fault>
    ensures { result ≡ fault_unless (may_jump jump within.nearest) (fault Rule.BadExit keyword) }
{
    unless(
        may_jump(jump, within.nearest),
        Fault {
            rule: Rule::BadExit,
            span: keyword,
        },
    )
}

/// The fault of the word `return`.
fn returns(within: Within, keyword: Span) -> Option<Fault>
    ensures { result ≡ fault_unless within.returns (fault Rule.BadExit keyword) }
{
    unless(
        within.returns,
        Fault {
            rule: Rule::BadExit,
            span: keyword,
        },
    )
}

/// The fault of the word `foreach`.
fn nested(within: Within, keyword: Span) -> Option<Fault>
    ensures { result ≡ fault_unless (not within.in_foreach) (fault Rule.NestedForeach keyword) }
{
    unless(
        !within.in_foreach,
        Fault {
            rule: Rule::NestedForeach,
            span: keyword,
        },
    )
}

/// The rate that a returned value is to have.
fn returned_rate(answer: Option<Ty>) -> Rate
    ensures { result ≡ returned_rate answer }
{
    match answer {
        Some(ty) => ty.rate,
        None => Rate::Varying,
    }
}

/// The first fault in the value of a `return`.
fn returned(
    functions: &[TypedFunction],
    answer: Option<Ty>,
    value: &Option<TypedExpr>,
) -> Option<Fault>
    ensures { result ≡ of_any (return_fault (functions_of functions.now) answer) (option_map expr_of value.now) }
{
    match value {
        Some(value) => demanded(functions, returned_rate(answer), value),
        None => None,
    }
}

/// The first fault in a statement of a function with this result.
#[cycle(stmt)]
fn stmt(
    functions: &[TypedFunction],
    answer: Option<Ty>,
    within: Within,
    s: &TypedStmt,
) -> Option<Fault>
    ensures { result ≡ stmt_fault (functions_of functions.now) answer within (stmt_of s.now) }
{
    match s {
        TypedStmt::Block(inner) => block(functions, answer, within, inner),
        TypedStmt::Declare { items: all, .. } => items(functions, all),
        TypedStmt::Simple { simple: inner, .. } => simple(functions, inner),
        TypedStmt::If { test, then, .. } => {
            let before = expr(functions, test);
            first(before, stmt(functions, answer, within, then))
        }
        TypedStmt::IfElse {
            test,
            then,
            otherwise,
            ..
        } => {
            let before = expr(functions, test);
            let chosen = stmt(functions, answer, within, then);
            let other = stmt(functions, answer, within, otherwise);
            first(before, first(chosen, other))
        }
        TypedStmt::While { test, body, .. } => {
            let before = expr(functions, test);
            first(before, stmt(functions, answer, within.of_loop(), body))
        }
        TypedStmt::Do { body, test, .. } => {
            let before = stmt(functions, answer, within.of_loop(), body);
            first(before, expr(functions, test))
        }
        TypedStmt::For {
            first: part,
            test,
            step: last,
            body,
            ..
        } => {
            let before = start(functions, part);
            let asked = tested(functions, test);
            let after = step(functions, last);
            let inner = stmt(functions, answer, within.of_loop(), body);
            first(before, first(asked, first(after, inner)))
        }
        TypedStmt::Foreach {
            keyword,
            ranges: all,
            body,
            ..
        } => {
            let word = nested(within, *keyword);
            let bounds = ranges(functions, all);
            let inner = stmt(functions, answer, within.of_foreach(), body);
            first(word, first(bounds, inner))
        }
        TypedStmt::ForeachActive { body, .. } => {
            stmt(functions, answer, within.of_turns(), body)
        }
        TypedStmt::ForeachUnique { value, body, .. } => {
            let before = expr(functions, value);
            first(before, stmt(functions, answer, within.of_turns(), body))
        }
        TypedStmt::Unmasked { body, .. } => block(functions, answer, within.of_unmasked(), body),
        TypedStmt::Jump { jump, keyword, .. } => jumps(within, *jump, *keyword),
        TypedStmt::Return { keyword, value, .. } => {
            let word = returns(within, *keyword);
            first(word, returned(functions, answer, value))
        }
        TypedStmt::Print { values: all, .. } => values(functions, all),
        TypedStmt::Assert { test, .. } => expr(functions, test),
    }
}

/// The first fault in a block.
#[cycle(stmt)]
pub fn block(
    functions: &[TypedFunction],
    answer: Option<Ty>,
    within: Within,
    b: &TypedBlock,
) -> Option<Fault>
    ensures { result ≡ block_fault (functions_of functions.now) answer within (block_of b.now) }
{
    let mut seen = None;
    for s in &b.statements {
        seen = first(seen, stmt(functions, answer, within, s));
    }
    seen
}
