//! Who leaves a statement.
ghost use Rattle.std.specs.Prelude.{◌≡◌, true};
ghost use Rattle.isp_typed.specs.Views.{block_of, stmt_of};
ghost use Rattle.isp_masks_code.specs.Exits.{block_jump, either_leaves, jump_exits, nobody_leaves, none_leave, only_jump, only_returns};

use isp_tree::Jump;
use isp_typed::{TypedBlock, TypedStmt};

/// Whether instances may break, continue or return from a statement.
#[derive(Clone, Copy)]
pub struct Exits {
    pub breaks: bool,
    pub continues: bool,
    pub returns: bool,
}

/// How instances leave a part.
#[derive(Clone, Copy)]
pub enum Leaving {
    /// Nobody leaves it.
    Never,
    /// All leave it, since it is one jump.
    Always(Jump),
    /// Some may leave it.
    Maybe,
}

impl Exits {
    pub fn none() -> Exits
        ensures { result ≡ none_leave }
    {
        Exits {
            breaks: false,
            continues: false,
            returns: false,
        }
    }

    /// Of a `return`.
    pub fn returned() -> Exits
        ensures { result ≡ record none_leave { returns = true } }
    {
        Exits {
            breaks: false,
            continues: false,
            returns: true,
        }
    }

    pub fn or(self, other: Exits) -> Exits
        ensures { result ≡ either_leaves self other }
    {
        Exits {
            breaks: self.breaks || other.breaks,
            continues: self.continues || other.continues,
            returns: self.returns || other.returns,
        }
    }

    /// Of a loop, which keeps those that break and continue.
    pub fn of_loop(self) -> Exits
        ensures { result ≡ only_returns self }
    {
        Exits {
            breaks: false,
            continues: false,
            returns: self.returns,
        }
    }

    /// Whether nobody may.
    pub fn is_none(self) -> bool
        ensures { result ≡ nobody_leaves self }
    {
        !(self.breaks || (self.continues || self.returns))
    }
}

pub fn jump(jump: Jump) -> Exits
    ensures { result ≡ jump_exits jump }
{
    match jump {
        Jump::Break => Exits {
            breaks: true,
            continues: false,
            returns: false,
        },
        Jump::Continue => Exits {
            breaks: false,
            continues: true,
            returns: false,
        },
    }
}

/// The jump that a statement is, in braces or not.
#[cycle(only_jump)]
pub fn only_jump(x: &TypedStmt) -> Option<Jump>
    ensures { result ≡ only_jump (stmt_of x.now) }
{
    match x {
        TypedStmt::Block(b) => block_jump(b),
        TypedStmt::Jump { jump: to, .. } => Some(*to),
        TypedStmt::Declare { .. }
        | TypedStmt::Simple { .. }
        | TypedStmt::If { .. }
        | TypedStmt::IfElse { .. }
        | TypedStmt::While { .. }
        | TypedStmt::Do { .. }
        | TypedStmt::For { .. }
        | TypedStmt::Foreach { .. }
        | TypedStmt::ForeachActive { .. }
        | TypedStmt::ForeachUnique { .. }
        | TypedStmt::Unmasked { .. }
        | TypedStmt::Return { .. }
        | TypedStmt::Print { .. }
        | TypedStmt::Assert { .. } => None,
    }
}

/// The same of a block.
#[cycle(only_jump)]
fn block_jump(b: &TypedBlock) -> Option<Jump>
    ensures { result ≡ block_jump (block_of b.now) }
{
    match b.statements.as_slice() {
        [x] => only_jump(x),
        _ => None,
    }
}
