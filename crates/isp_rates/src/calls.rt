//! The functions that a function calls.
ghost use Rattle.std.specs.Prelude.{◌≡◌, ◌++◌, IfOk, map, option_map};
ghost use Rattle.isp_independence.specs.Tables.{lists_of};
ghost use Rattle.isp_typed.specs.Views.{argument_of, base_of, block_of, call_of, expr_of, exprs_of, first_of, function_of, functions_of, item_of, items_of, place_of, range_of, ranges_of, simple_of, stmt_of};
ghost use Rattle.isp_independence.specs.Reaches.{argument_calls, base_calls, block_calls, call_calls, calls_of_any, calls_of_each, expr_calls, first_calls, function_calls, item_calls, place_calls, range_calls, simple_calls, stmt_calls};

use isp_typed::{
    TypedArgument, TypedBase, TypedBlock, TypedCall, TypedExpr, TypedFirst, TypedFunction,
    TypedItem, TypedPlace, TypedRange, TypedSimple, TypedStmt,
};
use std::alloc::{AllocError, Global};

/// Finds the calls in an expression.
#[cycle(calls)]
fn expr(found: &mut Vec<usize>, x: &TypedExpr) -> Result<(), AllocError>
    ensures { IfOk result (λ u. found.new.items ≡ found.old.items ++ expr_calls (expr_of x.now)) }
{
    match x {
        TypedExpr::Constant { .. } | TypedExpr::ProgramIndex { .. } => Ok(()),
        TypedExpr::Place(inner) => place(found, inner),
        TypedExpr::Convert { operand, .. }
        | TypedExpr::Cast { operand, .. }
        | TypedExpr::Unary { operand, .. } => expr(found, operand),
        TypedExpr::Binary { left, right, .. }
        | TypedExpr::Compare { left, right, .. }
        | TypedExpr::Logic { left, right, .. } => {
            expr(found, left)?;
            expr(found, right)
        }
        TypedExpr::Choose {
            test,
            then,
            otherwise,
            ..
        } => {
            expr(found, test)?;
            expr(found, then)?;
            expr(found, otherwise)
        }
        TypedExpr::Call { call: inner, .. } => call(found, inner),
        TypedExpr::Library { values, .. } => {
            for value in values {
                expr(found, value)?;
            }
            Ok(())
        }
        TypedExpr::PackedStore {
            base: array,
            value,
            ..
        } => {
            base(found, array)?;
            expr(found, value)
        }
        TypedExpr::PackedLoad { base: array, .. } => base(found, array),
    }
}

/// Finds the calls in a place.
#[cycle(calls)]
fn place(found: &mut Vec<usize>, x: &TypedPlace) -> Result<(), AllocError>
    ensures { IfOk result (λ u. found.new.items ≡ found.old.items ++ place_calls (place_of x.now)) }
{
    match x {
        TypedPlace::Variable { .. } => Ok(()),
        TypedPlace::Element { index, .. } => expr(found, index),
    }
}

/// Finds the calls in the array of a packed call.
#[cycle(calls)]
fn base(found: &mut Vec<usize>, x: &TypedBase) -> Result<(), AllocError>
    ensures { IfOk result (λ u. found.new.items ≡ found.old.items ++ base_calls (base_of x.now)) }
{
    match x {
        TypedBase::Whole { .. } => Ok(()),
        TypedBase::From { index, .. } => expr(found, index),
    }
}

/// Finds the calls in an argument.
#[cycle(calls)]
fn argument(found: &mut Vec<usize>, x: &TypedArgument) -> Result<(), AllocError>
    ensures { IfOk result (λ u. found.new.items ≡ found.old.items ++ argument_calls (argument_of x.now)) }
{
    match x {
        TypedArgument::Value(value) => expr(found, value),
        TypedArgument::Array { .. } => Ok(()),
    }
}

/// Finds a call, after those in its arguments.
#[cycle(calls)]
fn call(found: &mut Vec<usize>, x: &TypedCall) -> Result<(), AllocError>
    ensures { IfOk result (λ u. found.new.items ≡ found.old.items ++ call_calls (call_of x.now)) }
{
    for given in &x.arguments {
        argument(found, given)?;
    }
    found.push(x.function)?;
    Ok(())
}

fn values(found: &mut Vec<usize>, all: &[TypedExpr]) -> Result<(), AllocError>
    ensures { IfOk result (λ u. found.new.items ≡ found.old.items ++ calls_of_each expr_calls (exprs_of all.now)) }
{
    for value in all {
        expr(found, value)?;
    }
    Ok(())
}

fn item(found: &mut Vec<usize>, declared: &TypedItem) -> Result<(), AllocError>
    ensures { IfOk result (λ u. found.new.items ≡ found.old.items ++ item_calls (item_of declared.now)) }
{
    match declared {
        TypedItem::Plain { .. } | TypedItem::Array { .. } => Ok(()),
        TypedItem::Value { value, .. } => expr(found, value),
    }
}

fn items(found: &mut Vec<usize>, all: &[TypedItem]) -> Result<(), AllocError>
    ensures { IfOk result (λ u. found.new.items ≡ found.old.items ++ calls_of_each item_calls (items_of all.now)) }
{
    for declared in all {
        item(found, declared)?;
    }
    Ok(())
}

fn simple(found: &mut Vec<usize>, s: &TypedSimple) -> Result<(), AllocError>
    ensures { IfOk result (λ u. found.new.items ≡ found.old.items ++ simple_calls (simple_of s.now)) }
{
    match s {
        TypedSimple::Value(value) => expr(found, value),
        TypedSimple::Call(called) => call(found, called),
        TypedSimple::Assign { target, value, .. } | TypedSimple::Update { target, value, .. } => {
            place(found, target)?;
            expr(found, value)
        }
        TypedSimple::Step { target, .. } => place(found, target),
    }
}

fn start(found: &mut Vec<usize>, part: &Option<TypedFirst>) -> Result<(), AllocError>
    ensures { IfOk result (λ u. found.new.items ≡ found.old.items ++ calls_of_any first_calls (option_map first_of part.now)) }
{
    match part {
        Some(TypedFirst::Declare { items: all, .. }) => items(found, all),
        Some(TypedFirst::Simple(s)) => simple(found, s),
        None => Ok(()),
    }
}

fn value(found: &mut Vec<usize>, part: &Option<TypedExpr>) -> Result<(), AllocError>
    ensures { IfOk result (λ u. found.new.items ≡ found.old.items ++ calls_of_any expr_calls (option_map expr_of part.now)) }
{
    match part {
        Some(part) => expr(found, part),
        None => Ok(()),
    }
}

fn step(found: &mut Vec<usize>, part: &Option<TypedSimple>) -> Result<(), AllocError>
    ensures { IfOk result (λ u. found.new.items ≡ found.old.items ++ calls_of_any simple_calls (option_map simple_of part.now)) }
{
    match part {
        Some(part) => simple(found, part),
        None => Ok(()),
    }
}

fn ranges(found: &mut Vec<usize>, all: &[TypedRange]) -> Result<(), AllocError>
    ensures { IfOk result (λ u. found.new.items ≡ found.old.items ++ calls_of_each range_calls (ranges_of all.now)) }
{
    for r in all {
        range(found, r)?;
    }
    Ok(())
}

fn range(found: &mut Vec<usize>, r: &TypedRange) -> Result<(), AllocError>
    ensures { IfOk result (λ u. found.new.items ≡ found.old.items ++ range_calls (range_of r.now)) }
{
    expr(found, &r.start)?;
    expr(found, &r.end)
}

/// Finds the calls in a statement.
#[cycle(stmt_calls)]
fn stmt(found: &mut Vec<usize>, s: &TypedStmt) -> Result<(), AllocError>
    ensures { IfOk result (λ u. found.new.items ≡ found.old.items ++ stmt_calls (stmt_of s.now)) }
{
    match s {
        TypedStmt::Block(inner) => block(found, inner),
        TypedStmt::Declare { items: all, .. } => items(found, all),
        TypedStmt::Simple { simple: part, .. } => simple(found, part),
        TypedStmt::If { test, then, .. } => {
            expr(found, test)?;
            stmt(found, then)
        }
        TypedStmt::IfElse {
            test,
            then,
            otherwise,
            ..
        } => {
            expr(found, test)?;
            stmt(found, then)?;
            stmt(found, otherwise)
        }
        TypedStmt::While { test, body, .. } => {
            expr(found, test)?;
            stmt(found, body)
        }
        TypedStmt::Do { body, test, .. } => {
            stmt(found, body)?;
            expr(found, test)
        }
        TypedStmt::For {
            first,
            test,
            step: last,
            body,
            ..
        } => {
            start(found, first)?;
            value(found, test)?;
            step(found, last)?;
            stmt(found, body)
        }
        TypedStmt::Foreach {
            ranges: all,
            body,
            ..
        } => {
            ranges(found, all)?;
            stmt(found, body)
        }
        TypedStmt::ForeachActive { body, .. } => stmt(found, body),
        TypedStmt::ForeachUnique {
            value: part,
            body,
            ..
        } => {
            expr(found, part)?;
            stmt(found, body)
        }
        TypedStmt::Unmasked { body, .. } => block(found, body),
        TypedStmt::Jump { .. } => Ok(()),
        TypedStmt::Return { value: part, .. } => value(found, part),
        TypedStmt::Print { values: all, .. } => values(found, all),
        TypedStmt::Assert { test, .. } => expr(found, test),
    }
}

/// Finds the calls in a block.
#[cycle(stmt_calls)]
fn block(found: &mut Vec<usize>, b: &TypedBlock) -> Result<(), AllocError>
    ensures { IfOk result (λ u. found.new.items ≡ found.old.items ++ block_calls (block_of b.now)) }
{
    for s in &b.statements {
        stmt(found, s)?;
    }
    Ok(())
}

/// The calls in a function.
fn function(alloc: Global, one: &TypedFunction) -> Result<Vec<usize>, AllocError>
    ensures { IfOk result (λ v. v.items ≡ function_calls (function_of one.now)) }
{
    let mut found = Vec::new(alloc);
    block(&mut found, &one.body)?;
    Ok(found)
}

/// For each function the numbers of those that it calls.
pub fn table(alloc: Global, functions: &[TypedFunction]) -> Result<Vec<Vec<usize>>, AllocError>
    ensures { IfOk result (λ t. lists_of t.items ≡ map function_calls (functions_of functions.now)) }
{
    let mut calls = Vec::new(alloc);
    for one in functions {
        calls.push(function(alloc, one)?)?;
    }
    Ok(calls)
}
