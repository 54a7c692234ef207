//! Typed programs: what a tree says, by its names and types. Each variable is known by its number, each
//! conversion is written where it is made, and each node has its type and its place.
#![tactic(auto)]

mod expr;
mod function;
mod laws;
mod library;
mod stmt;
mod variable;
mod verdict;

pub use expr::{TypedArgument, TypedBase, TypedCall, TypedExpr, TypedPlace};
pub use function::{Program, Typed, TypedFunction};
pub use laws::scopes_of_samples;
pub use library::{Library, Part};
pub use stmt::{TypedBlock, TypedFirst, TypedItem, TypedRange, TypedSimple, TypedStmt};
pub use variable::{ArrayVariable, Holds, Logic, Variable};
pub use verdict::{Verdict, beside, both, earlier, first, unless};
