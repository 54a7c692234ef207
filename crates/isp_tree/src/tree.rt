//! Trees of whole programs.
ghost use Rattle.std.specs.Prelude.{◌≡◌};
ghost use Rattle.isp_tree.specs.Depth.{limit};
ghost use Rattle.isp_tree.specs.Nodes.{most};
ghost use Rattle.isp_tree.specs.Sound.{IsSound};
ghost use Rattle.isp_tree.specs.Views.{functions_of};

use crate::function::Function;
use std::marker::Model;

/// The deepest tree that is taken: a function's body counts one, and so does each statement and each
/// node of an expression.
pub const DEPTH_LIMIT: usize = 128;

/// A program: its functions in the order of the text. Contracts see the list of them.
///
/// Each tree is sound: its spans are places of a text of at most 1,048,576 bytes, its names are words
/// that are not reserved, its numbers are values of their types, a declaration has an item, a
/// `foreach` one to three ranges; it is no deeper than `DEPTH_LIMIT`, and has at most
/// 1,048,576 nodes: functions, parameters, statements, declared items, ranges and nodes of expressions.
#[derive(Drop)]
pub struct Tree {
    functions: Vec<Function>,
}

impl Model for Tree {
    ghost use Rattle.std.specs.Prelude.{List};
    ghost use Rattle.isp_tree.specs.declared.function.Function.{Function as FunctionNode};
    ghost use Rattle.isp_tree.specs.contracts.function.Function as function_code;
    ghost use Rattle.std.specs.Coded.{codes};

    ghost Value = { List FunctionNode };

    ghost coded = { Prim.hlevel (codes, function_code.the_row.coded) };

    ghost use Rattle.isp_tree.specs.Sound.{IsSound};
    ghost use Rattle.isp_tree.specs.Views.{functions_of};

    ghost view = { λ t. t.functions.items };

    ghost invariant = { λ t. IsSound (functions_of t.functions.items) };
}

impl Tree {
    /// The tree of these functions.
    pub fn new(functions: Vec<Function>) -> Tree
        requires sound { IsSound (functions_of functions.items) }
        ensures functions { result ≡ functions.items }
    {
        Tree { functions }
    }

    /// The functions in the order of the text.
    pub fn functions(&self) -> &[Function]
        ensures functions { result.now ≡ self.now }
        ensures sound { IsSound (functions_of self.now) }
    {
        self.functions.as_slice()
    }
}
