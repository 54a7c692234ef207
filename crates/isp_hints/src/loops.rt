//! The slow loops of a program.
ghost use Rattle.std.specs.Prelude.{◌≡◌, ◌++◌, IfOk, OnOk, option_map};
ghost use Rattle.isp_typed.specs.Views.{block_of, expr_of, functions_of, program_of, range_of, ranges_of, stmt_of};
ghost use Rattle.isp_hints.specs.Loops.{any_test_hints, block_hints, fill, functions_hints, inner, left_off, loops_of, parted, range_hints, rest_of, stmt_hints, test_hints};

use crate::hint::{Hint, Slow};
use isp_base::{Gang, Rate, Span};
use isp_typed::{Program, TypedBlock, TypedExpr, TypedFunction, TypedRange, TypedStmt};
use std::alloc::AllocError;

// Tells that a test parts the instances, where it is varying.
fn parted(found: &mut Vec<Hint>, rate: Rate, place: Span) -> Result<(), AllocError>
    ensures { OnOk result (found.new.items ≡ found.old.items ++ parted rate place) }
{
    match rate {
        Rate::Uniform => {}
        Rate::Varying => found.push(Hint {
            slow: Slow::Parted,
            place,
        })?,
    }
    Ok(())
}

fn test(found: &mut Vec<Hint>, x: &TypedExpr) -> Result<(), AllocError>
    ensures { OnOk result (found.new.items ≡ found.old.items ++ test_hints (expr_of x.now)) }
{
    parted(found, x.ty().rate, x.span())
}

fn any_test(found: &mut Vec<Hint>, x: &Option<TypedExpr>) -> Result<(), AllocError>
    ensures { OnOk result (found.new.items ≡ found.old.items ++ any_test_hints (option_map expr_of x.now)) }
{
    match x {
        Some(x) => test(found, x),
        None => Ok(()),
    }
}

// What is left of a constant by whole gangs.
fn rest_of(gang: Gang, x: &TypedExpr) -> Option<u64>
    ensures { result ≡ rest_of gang (expr_of x.now) }
{
    match x {
        TypedExpr::Constant { value, .. } => Some(value.bits % gang.width() as u64),
        TypedExpr::ProgramIndex { .. }
        | TypedExpr::Place(_)
        | TypedExpr::Convert { .. }
        | TypedExpr::Cast { .. }
        | TypedExpr::Unary { .. }
        | TypedExpr::Binary { .. }
        | TypedExpr::Compare { .. }
        | TypedExpr::Logic { .. }
        | TypedExpr::Choose { .. }
        | TypedExpr::Call { .. }
        | TypedExpr::Library { .. }
        | TypedExpr::PackedStore { .. }
        | TypedExpr::PackedLoad { .. } => None,
    }
}

fn fill(start: Option<u64>, end: Option<u64>) -> bool
    ensures { result ≡ fill start end }
{
    match (start, end) {
        (Some(start), Some(end)) => start == end,
        (_, _) => false,
    }
}

// Of several ranges the last.
fn inner(ranges: &[TypedRange]) -> Option<&TypedRange>
    ensures { option_map (λ r. range_of r.now) result ≡ inner (ranges_of ranges.now) }
{
    if ranges.len() > 1 {
        ranges.last()
    } else {
        None
    }
}

// Tells that a range leaves lanes off, unless its runs are full.
fn left_off(found: &mut Vec<Hint>, full: bool, place: Span) -> Result<(), AllocError>
    ensures { OnOk result (found.new.items ≡ found.old.items ++ left_off full place) }
{
    if !full {
        found.push(Hint {
            slow: Slow::LeftOff,
            place,
        })?;
    }
    Ok(())
}

fn range(found: &mut Vec<Hint>, gang: Gang, range: Option<&TypedRange>) -> Result<(), AllocError>
    ensures { OnOk result (found.new.items ≡ found.old.items ++ range_hints gang (option_map (λ r. range_of r.now) range.entry)) }
{
    match range {
        Some(range) => {
            let full = fill(rest_of(gang, &range.start), rest_of(gang, &range.end));
            left_off(found, full, range.span)
        }
        None => Ok(()),
    }
}

// Tells the slow loops in a statement.
#[cycle(stmt)]
fn stmt(found: &mut Vec<Hint>, gang: Gang, s: &TypedStmt) -> Result<(), AllocError>
    ensures { IfOk result (λ u. found.new.items ≡ found.old.items ++ stmt_hints gang (stmt_of s.now)) }
{
    match s {
        TypedStmt::Block(inner) | TypedStmt::Unmasked { body: inner, .. } => {
            block(found, gang, inner)
        }
        TypedStmt::If { then, .. } => stmt(found, gang, then),
        TypedStmt::IfElse {
            then,
            otherwise,
            ..
        } => {
            stmt(found, gang, then)?;
            stmt(found, gang, otherwise)
        }
        TypedStmt::While { test: x, body, .. } | TypedStmt::Do { body, test: x, .. } => {
            test(found, x)?;
            stmt(found, gang, body)
        }
        TypedStmt::For { test: x, body, .. } => {
            any_test(found, x)?;
            stmt(found, gang, body)
        }
        TypedStmt::Foreach { ranges, body, .. } => {
            range(found, gang, inner(ranges))?;
            stmt(found, gang, body)
        }
        TypedStmt::ForeachActive { body, .. } | TypedStmt::ForeachUnique { body, .. } => {
            stmt(found, gang, body)
        }
        TypedStmt::Declare { .. }
        | TypedStmt::Simple { .. }
        | TypedStmt::Jump { .. }
        | TypedStmt::Return { .. }
        | TypedStmt::Print { .. }
        | TypedStmt::Assert { .. } => Ok(()),
    }
}

// Tells the slow loops in a block.
#[cycle(stmt)]
fn block(found: &mut Vec<Hint>, gang: Gang, b: &TypedBlock) -> Result<(), AllocError>
    ensures { IfOk result (λ u. found.new.items ≡ found.old.items ++ block_hints gang (block_of b.now)) }
{
    for s in &b.statements {
        stmt(found, gang, s)?;
    }
    Ok(())
}

fn functions(found: &mut Vec<Hint>, gang: Gang, all: &[TypedFunction]) -> Result<(), AllocError>
    ensures { IfOk result (λ u. found.new.items ≡ found.old.items ++ functions_hints gang (functions_of all.now)) }
{
    for one in all {
        block(found, gang, &one.body)?;
    }
    Ok(())
}

/// Tells the loops of a program that part its instances or leave lanes off.
pub(crate) fn loops(found: &mut Vec<Hint>, program: &Program) -> Result<(), AllocError>
    ensures { IfOk result (λ u. found.new.items ≡ found.old.items ++ loops_of (program_of program.now)) }
{
    functions(found, program.gang, &program.functions)
}
