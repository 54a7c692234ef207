//! Statements: rates, exits, and a `foreach` in a `foreach`.
ghost use Rattle.std.specs.Prelude.{◌≡◌, ◌++◌, IfOk, not, option_map};
ghost use Rattle.isp_lex.specs.Faults.{fault};
ghost use Rattle.isp_typed.specs.Views.{block_of, expr_of, functions_of, stmt_of};
ghost use Rattle.isp_rates.specs.Exits.{may_jump, returned_rate};
ghost use Rattle.isp_breaches.specs.reader.Lists.{block_faults, of_any, return_faults, stmt_faults, unmet};
ghost use Rattle.isp_breaches.specs.reader.Within.{around_of, within_of};

use crate::demand::unless;
use crate::expr::{demanded, expr};
use crate::simple::{items, ranges, simple, start, step, test as tested, values};
use crate::within::{Within, may_jump};
use isp_base::{Rate, Span, Ty};
use isp_lex::{Fault, Rule};
use isp_tree::Jump;
use isp_typed::{TypedBlock, TypedExpr, TypedFunction, TypedStmt};
use std::alloc::AllocError;

/// Tells the fault of a jump.
fn jumps(
    found: &mut Vec<Fault>,
    within: Within,
    jump: Jump,
    keyword: Span,
) -> Result<(), AllocError>
    ensures { IfOk result (λ u. found.new.items ≡ found.old.items ++ unmet (may_jump jump (around_of within.nearest)) (fault Rule.BadExit keyword)) }
{
    let fault = Fault {
        rule: Rule::BadExit,
        span: keyword,
    };
    unless(found, may_jump(jump, within.nearest), fault)
}

/// Tells the fault of the word `return`.
fn returns(found: &mut Vec<Fault>, within: Within, keyword: Span) -> Result<(), AllocError>
    ensures { IfOk result (λ u. found.new.items ≡ found.old.items ++ unmet within.returns (fault Rule.BadExit keyword)) }
{
    let fault = Fault {
        rule: Rule::BadExit,
        span: keyword,
    };
    unless(found, within.returns, fault)
}

/// Tells the fault of the word `foreach`.
fn nested(found: &mut Vec<Fault>, within: Within, keyword: Span) -> Result<(), AllocError>
    ensures { IfOk result (λ u. found.new.items ≡ found.old.items ++ unmet (not within.in_foreach) (fault Rule.NestedForeach keyword)) }
{
    let fault = Fault {
        rule: Rule::NestedForeach,
        span: keyword,
    };
    unless(found, !within.in_foreach, fault)
}

/// The rate that a returned value is to have.
fn returned_rate(answer: Option<Ty>) -> Rate
    ensures { result ≡ returned_rate answer }
{
    match answer {
        Some(ty) => ty.rate,
        None => Rate::Varying,
    }
}

/// Finds the faults in the value of a `return`.
fn returned(
    found: &mut Vec<Fault>,
    functions: &[TypedFunction],
    answer: Option<Ty>,
    value: &Option<TypedExpr>,
) -> Result<(), AllocError>
    ensures { IfOk result (λ u. found.new.items ≡ found.old.items ++ of_any (return_faults (functions_of functions.now) answer) (option_map expr_of value.now)) }
{
    match value {
        Some(value) => demanded(found, functions, returned_rate(answer), value),
        None => Ok(()),
    }
}

/// Finds the faults in a statement of a function with this result.
#[cycle(stmt)]
fn stmt(
    found: &mut Vec<Fault>,
    functions: &[TypedFunction],
    answer: Option<Ty>,
    within: Within,
    s: &TypedStmt,
) -> Result<(), AllocError>
    ensures { IfOk result (λ u. found.new.items ≡ found.old.items ++ stmt_faults (functions_of functions.now) answer (within_of within) (stmt_of s.now)) }
{
    match s {
        TypedStmt::Block(inner) => block(found, functions, answer, within, inner),
        TypedStmt::Declare { items: all, .. } => items(found, functions, all),
        TypedStmt::Simple { simple: inner, .. } => simple(found, functions, inner),
        TypedStmt::If { test, then, .. } => {
            expr(found, functions, test)?;
            stmt(found, functions, answer, within, then)
        }
        TypedStmt::IfElse {
            test,
            then,
            otherwise,
            ..
        } => {
            expr(found, functions, test)?;
            stmt(found, functions, answer, within, then)?;
            stmt(found, functions, answer, within, otherwise)
        }
        TypedStmt::While { test, body, .. } => {
            expr(found, functions, test)?;
            stmt(found, functions, answer, within.of_loop(), body)
        }
        TypedStmt::Do { body, test, .. } => {
            stmt(found, functions, answer, within.of_loop(), body)?;
            expr(found, functions, test)
        }
        TypedStmt::For {
            first: part,
            test,
            step: last,
            body,
            ..
        } => {
            start(found, functions, part)?;
            tested(found, functions, test)?;
            step(found, functions, last)?;
            stmt(found, functions, answer, within.of_loop(), body)
        }
        TypedStmt::Foreach {
            keyword,
            ranges: all,
            body,
            ..
        } => {
            nested(found, within, *keyword)?;
            ranges(found, functions, all)?;
            stmt(found, functions, answer, within.of_foreach(), body)
        }
        TypedStmt::ForeachActive { body, .. } => {
            stmt(found, functions, answer, within.of_turns(), body)
        }
        TypedStmt::ForeachUnique { value, body, .. } => {
            expr(found, functions, value)?;
            stmt(found, functions, answer, within.of_turns(), body)
        }
        TypedStmt::Unmasked { body, .. } => {
            block(found, functions, answer, within.of_unmasked(), body)
        }
        TypedStmt::Jump { jump, keyword, .. } => jumps(found, within, *jump, *keyword),
        TypedStmt::Return { keyword, value, .. } => {
            returns(found, within, *keyword)?;
            returned(found, functions, answer, value)
        }
        TypedStmt::Print { values: all, .. } => values(found, functions, all),
        TypedStmt::Assert { test, .. } => expr(found, functions, test),
    }
}

/// Finds the faults in a block.
#[cycle(stmt)]
pub fn block(
    found: &mut Vec<Fault>,
    functions: &[TypedFunction],
    answer: Option<Ty>,
    within: Within,
    b: &TypedBlock,
) -> Result<(), AllocError>
    ensures { IfOk result (λ u. found.new.items ≡ found.old.items ++ block_faults (functions_of functions.now) answer (within_of within) (block_of b.now)) }
{
    for s in &b.statements {
        stmt(found, functions, answer, within, s)?;
    }
    Ok(())
}
