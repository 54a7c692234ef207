//! One look at each statement before its code is written: who leaves it.
ghost use Rattle.std.specs.Prelude.{◌≡◌, ◌++◌, IfOk, OnOk};
ghost use Rattle.isp_typed.specs.Views.{block_of, stmt_of};
ghost use Rattle.isp_masks_code.specs.Exits.{block_exits, exits_of};
ghost use Rattle.isp_masks.specs.reader.Seen.{block_seen, parts_seen, seen_of};

use isp_masks_code::{Exits, jump};
use isp_typed::{TypedBlock, TypedStmt};
use std::alloc::{AllocError, Global};

/// Who leaves a statement, and how many statements it has, itself among them.
#[derive(Clone, Copy)]
pub(crate) struct Seen {
    pub exits: Exits,
    pub size: usize,
}

/// What is seen of the statements of a block and of their parts.
pub(crate) fn block_seen(alloc: Global, b: &TypedBlock) -> Result<Vec<Seen>, AllocError>
    ensures { IfOk result (λ v. v.items ≡ block_seen (block_of b.now)) }
{
    let mut seen = Vec::new(alloc);
    block(&mut seen, b)?;
    Ok(seen)
}

/// Adds what is seen of a statement and of its parts, and answers who leaves it.
#[cycle(stmt)]
fn stmt(seen: &mut Vec<Seen>, x: &TypedStmt) -> Result<Exits, AllocError>
    ensures exits { IfOk result (λ e. e ≡ exits_of (stmt_of x.now)) }
    ensures seen { OnOk result (seen.new.items ≡ seen.old.items ++ seen_of (stmt_of x.now)) }
{
    let at = seen.len();
    let exits = Exits::none();
    seen.push(Seen { exits, size: 1 })?;
    let exits = parts(seen, x)?;
    let size = seen.len() - at;
    seen[at] = Seen { exits, size };
    Ok(exits)
}

/// Adds what is seen of its parts, and answers who leaves the whole.
#[cycle(stmt)]
fn parts(seen: &mut Vec<Seen>, x: &TypedStmt) -> Result<Exits, AllocError>
    ensures exits { IfOk result (λ e. e ≡ exits_of (stmt_of x.now)) }
    ensures seen { OnOk result (seen.new.items ≡ seen.old.items ++ parts_seen (stmt_of x.now)) }
{
    match x {
        TypedStmt::Block(b) => block(seen, b),
        TypedStmt::If { then, .. } => stmt(seen, then),
        TypedStmt::IfElse {
            then,
            otherwise,
            ..
        } => {
            let first = stmt(seen, then)?;
            let second = stmt(seen, otherwise)?;
            Ok(first.or(second))
        }
        TypedStmt::While { body, .. } | TypedStmt::Do { body, .. } | TypedStmt::For { body, .. } =>
            {
                let inner = stmt(seen, body)?;
                Ok(inner.of_loop())
            }
        TypedStmt::Foreach { body, .. }
        | TypedStmt::ForeachActive { body, .. }
        | TypedStmt::ForeachUnique { body, .. } => {
            stmt(seen, body)?;
            Ok(Exits::none())
        }
        TypedStmt::Unmasked { body, .. } => {
            block(seen, body)?;
            Ok(Exits::none())
        }
        TypedStmt::Jump { jump: to, .. } => Ok(jump(*to)),
        TypedStmt::Return { .. } => Ok(Exits::returned()),
        TypedStmt::Declare { .. }
        | TypedStmt::Simple { .. }
        | TypedStmt::Print { .. }
        | TypedStmt::Assert { .. } => Ok(Exits::none()),
    }
}

/// The same of a block.
#[cycle(stmt)]
fn block(seen: &mut Vec<Seen>, b: &TypedBlock) -> Result<Exits, AllocError>
    ensures exits { IfOk result (λ e. e ≡ block_exits (block_of b.now)) }
    ensures seen { OnOk result (seen.new.items ≡ seen.old.items ++ block_seen (block_of b.now)) }
{
    let mut exits = Exits::none();
    for x in &b.statements {
        let one = stmt(seen, x)?;
        exits = exits.or(one);
    }
    Ok(exits)
}
