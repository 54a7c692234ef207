//! Whether instances may leave a function before others.
ghost use Rattle.std.specs.Prelude.{◌≡◌};
ghost use Rattle.isp_typed.specs.Views.{block_of, stmt_of};
ghost use Rattle.isp_independence.specs.Independent.{leaves_early, leaves_early_block};

use crate::control::Control;
use crate::stmt::test_rate;
use isp_typed::{TypedBlock, TypedStmt};

/// Whether a `return` under varying control stands in a statement that stands there.
#[cycle(early)]
fn leaves_early(control: Control, s: &TypedStmt) -> bool
    ensures { result ≡ leaves_early control (stmt_of s.now) }
{
    match s {
        TypedStmt::Block(inner) | TypedStmt::Unmasked { body: inner, .. } => leaves_block_early(
            control, inner,
        ),
        TypedStmt::If {
            before,
            test,
            then,
            ..
        } => { leaves_early(control.branch(test.ty().rate, *before), then) }
        TypedStmt::IfElse {
            before,
            test,
            then,
            otherwise,
            ..
        } => {
            let inner = control.branch(test.ty().rate, *before);
            leaves_early(inner, then) || leaves_early(inner, otherwise)
        }
        TypedStmt::While {
            before,
            test,
            body,
            ..
        }
        | TypedStmt::Do {
            before,
            body,
            test,
            ..
        } => {
            let around = control.of_loop(Some(test.ty().rate), *before, body);
            leaves_early(around.turn(*before, body), body)
        }
        TypedStmt::For {
            before,
            test,
            inside,
            body,
            ..
        } => {
            let around = control.of_loop(test_rate(test), *before, body);
            leaves_early(around.turn(*inside, body), body)
        }
        TypedStmt::Foreach { before, body, .. } => leaves_early(control.round(*before), body),
        TypedStmt::ForeachActive { body, .. } | TypedStmt::ForeachUnique { body, .. } =>
            leaves_early(control, body),
        TypedStmt::Return { .. } => control.varying,
        TypedStmt::Declare { .. }
        | TypedStmt::Simple { .. }
        | TypedStmt::Jump { .. }
        | TypedStmt::Print { .. }
        | TypedStmt::Assert { .. } => false,
    }
}

/// Whether a `return` under varying control stands in a block that stands there.
#[cycle(early)]
pub fn leaves_block_early(control: Control, b: &TypedBlock) -> bool
    ensures { result ≡ leaves_early_block control (block_of b.now) }
{
    let mut found = false;
    for s in &b.statements {
        found = found || leaves_early(control, s);
    }
    found
}
