//! The tree of a program as it is written: what the parser gives, and what names, types and rates
//! stand on.
#![tactic(auto)]

mod expr;
mod function;
mod stmt;
mod tree;
mod types;

pub use expr::{Argument, Expr, Operator, Place, Prefix};
pub use function::{Function, Linkage, Param};
pub use stmt::{
    Assignment, Block, Change, Declaration, First, Form, Item, Jump, Range, Simple, Size, Stmt,
    Tiling,
};
pub use tree::{DEPTH_LIMIT, Tree};
pub use types::{Base, Qualifier, TypeWords, Word};
