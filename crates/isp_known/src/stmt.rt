//! Statements, down to what stands in them.
ghost use Rattle.std.specs.Prelude.{◌≡◌, ◌++◌, IfOk};
ghost use Rattle.isp_typed.specs.Views.{block_of, stmt_of};
ghost use Rattle.isp_known.specs.Notes.{block_notes, stmt_notes};

use crate::expr::expr;
use crate::note::{Note, indexed};
use crate::simple::{given, items, ranges, simple, start, step, values};
use isp_typed::{TypedBlock, TypedStmt};
use std::alloc::AllocError;

/// Notes a statement of a function.
#[cycle(stmt)]
fn stmt(found: &mut Vec<Note>, function: usize, s: &TypedStmt) -> Result<(), AllocError>
    ensures { IfOk result (λ u. found.new.items ≡ found.old.items ++ stmt_notes function (stmt_of s.now)) }
{
    match s {
        TypedStmt::Block(inner) => block(found, function, inner),
        TypedStmt::Declare { items: all, .. } => items(found, function, all),
        TypedStmt::Simple { simple: part, .. } => simple(found, function, part),
        TypedStmt::If { test, then, .. } => {
            expr(found, function, test)?;
            stmt(found, function, then)
        }
        TypedStmt::IfElse {
            test,
            then,
            otherwise,
            ..
        } => {
            expr(found, function, test)?;
            stmt(found, function, then)?;
            stmt(found, function, otherwise)
        }
        TypedStmt::While { test, body, .. } => {
            expr(found, function, test)?;
            stmt(found, function, body)
        }
        TypedStmt::Do { body, test, .. } => {
            stmt(found, function, body)?;
            expr(found, function, test)
        }
        TypedStmt::For {
            first,
            test,
            step: last,
            body,
            ..
        } => {
            start(found, function, first)?;
            given(found, function, test)?;
            step(found, function, last)?;
            stmt(found, function, body)
        }
        TypedStmt::Foreach {
            ranges: all,
            body,
            ..
        } => {
            ranges(found, function, all)?;
            stmt(found, function, body)
        }
        TypedStmt::ForeachActive {
            keyword,
            index,
            body,
            ..
        } => {
            indexed(found, function, *index, *keyword)?;
            stmt(found, function, body)
        }
        TypedStmt::ForeachUnique {
            keyword,
            index,
            value,
            body,
            ..
        } => {
            indexed(found, function, *index, *keyword)?;
            expr(found, function, value)?;
            stmt(found, function, body)
        }
        TypedStmt::Unmasked { body, .. } => block(found, function, body),
        TypedStmt::Jump { .. } => Ok(()),
        TypedStmt::Return { value, .. } => given(found, function, value),
        TypedStmt::Print { values: all, .. } => values(found, function, all),
        TypedStmt::Assert { test, .. } => expr(found, function, test),
    }
}

/// Notes a block of a function.
#[cycle(stmt)]
pub(crate) fn block(
    found: &mut Vec<Note>,
    function: usize,
    b: &TypedBlock,
) -> Result<(), AllocError>
    ensures { IfOk result (λ u. found.new.items ≡ found.old.items ++ block_notes function (block_of b.now)) }
{
    for s in &b.statements {
        stmt(found, function, s)?;
    }
    Ok(())
}
