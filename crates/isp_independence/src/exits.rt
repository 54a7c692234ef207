//! How instances part in a loop.
ghost use Rattle.std.specs.Prelude.{◌≡◌};
ghost use Rattle.isp_typed.specs.Views.{block_of, stmt_of};
ghost use Rattle.isp_independence.specs.Exits.{has, has_block, has_varying, has_varying_block, is_varying, parts, same_jump, tests_varying};

use isp_base::Rate;
use isp_tree::Jump;
use isp_typed::{TypedBlock, TypedStmt};

pub fn is_varying(rate: Rate) -> bool
    ensures { result ≡ is_varying rate }
{
    match rate {
        Rate::Uniform => false,
        Rate::Varying => true,
    }
}

fn same(left: Jump, right: Jump) -> bool
    ensures { result ≡ same_jump left right }
{
    match (left, right) {
        (Jump::Break, Jump::Break) | (Jump::Continue, Jump::Continue) => true,
        (Jump::Break, Jump::Continue) | (Jump::Continue, Jump::Break) => false,
    }
}

/// Whether such a jump of the loop around stands in a statement.
#[cycle(has)]
fn has(jump: Jump, s: &TypedStmt) -> bool
    ensures { result ≡ has jump (stmt_of s.now) }
{
    match s {
        TypedStmt::Block(inner) => has_in(jump, inner),
        TypedStmt::If { then, .. } => has(jump, then),
        TypedStmt::IfElse {
            then,
            otherwise,
            ..
        } => has(jump, then) || has(jump, otherwise),
        TypedStmt::Jump { jump: own, .. } => same(*own, jump),
        TypedStmt::Declare { .. }
        | TypedStmt::Simple { .. }
        | TypedStmt::While { .. }
        | TypedStmt::Do { .. }
        | TypedStmt::For { .. }
        | TypedStmt::Foreach { .. }
        | TypedStmt::ForeachActive { .. }
        | TypedStmt::ForeachUnique { .. }
        | TypedStmt::Unmasked { .. }
        | TypedStmt::Return { .. }
        | TypedStmt::Print { .. }
        | TypedStmt::Assert { .. } => false,
    }
}

#[cycle(has)]
fn has_in(jump: Jump, b: &TypedBlock) -> bool
    ensures { result ≡ has_block jump (block_of b.now) }
{
    let mut found = false;
    for s in &b.statements {
        found = found || has(jump, s);
    }
    found
}

/// Whether such a jump of the loop around stands in a branch of a varying `if` in a statement.
#[cycle(varying)]
pub fn has_varying(jump: Jump, s: &TypedStmt) -> bool
    ensures { result ≡ has_varying jump (stmt_of s.now) }
{
    match s {
        TypedStmt::Block(inner) => has_varying_in(jump, inner),
        TypedStmt::If { test, then, .. } => match test.ty().rate {
            Rate::Varying => has(jump, then),
            Rate::Uniform => has_varying(jump, then),
        },
        TypedStmt::IfElse {
            test,
            then,
            otherwise,
            ..
        } => match test.ty().rate {
            Rate::Varying => has(jump, then) || has(jump, otherwise),
            Rate::Uniform => has_varying(jump, then) || has_varying(jump, otherwise),
        },
        TypedStmt::Declare { .. }
        | TypedStmt::Simple { .. }
        | TypedStmt::While { .. }
        | TypedStmt::Do { .. }
        | TypedStmt::For { .. }
        | TypedStmt::Foreach { .. }
        | TypedStmt::ForeachActive { .. }
        | TypedStmt::ForeachUnique { .. }
        | TypedStmt::Unmasked { .. }
        | TypedStmt::Jump { .. }
        | TypedStmt::Return { .. }
        | TypedStmt::Print { .. }
        | TypedStmt::Assert { .. } => false,
    }
}

#[cycle(varying)]
fn has_varying_in(jump: Jump, b: &TypedBlock) -> bool
    ensures { result ≡ has_varying_block jump (block_of b.now) }
{
    let mut found = false;
    for s in &b.statements {
        found = found || has_varying(jump, s);
    }
    found
}

fn tests_varying(test: Option<Rate>) -> bool
    ensures { result ≡ tests_varying test }
{
    match test {
        None => false,
        Some(rate) => is_varying(rate),
    }
}

/// Whether instances part in a loop with this test and body.
pub fn parts(test: Option<Rate>, body: &TypedStmt) -> bool
    ensures { result ≡ parts test (stmt_of body.now) }
{
    tests_varying(test)
        || has_varying(Jump::Break, body)
        || has(Jump::Break, body) && has_varying(Jump::Continue, body)
}
