//! Checked programs: nothing that the rules of rates, exits and exports forbid.
#![tactic(auto)]

mod calls;
mod checked;
mod checker;
mod demand;
mod exits;
mod exports;
mod expr;
mod function;
mod simple;
mod stmt;

pub use checked::Checked;
pub use checker::check;
