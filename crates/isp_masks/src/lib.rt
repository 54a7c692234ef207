//! What makes the code of statements, functions and programs.
#![tactic(auto)]

mod asserting;
mod awaited;
mod branches;
mod keeping;
mod listing;
mod looping;
mod lowering;
mod masks;
mod part;
mod printing;
mod ranges;
mod returned;
mod rounds;
mod routine;
mod seen;
mod sets;
mod statement;
mod steps;
mod unique;
mod wanted;

pub use lowering::lower;
