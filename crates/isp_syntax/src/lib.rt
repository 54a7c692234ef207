//! The parser: from tokens to the one tree that the grammar gives them.
#![tactic(auto)]

mod program;

pub use isp_tree::{
    Argument, Assignment, Base, Block, Change, DEPTH_LIMIT, Declaration, Expr, First, Form,
    Function, Item, Jump, Linkage, Operator, Param, Place, Prefix, Qualifier, Range, Simple, Size,
    Stmt, Tiling, Tree, TypeWords, Word,
};
pub use program::{one_tree, parse};
