//! Every breach of names and types in a tree.
#![tactic(auto)]

mod declaration;
mod expr;
mod faults;
mod laws;
mod parts;
mod program;
mod simple;
mod stmt;
mod verdicts;
mod walk;

pub use laws::lists_of_names;
pub use program::name_breaches;
