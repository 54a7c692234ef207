//! The front of the compiler: from a source text to a checked program.
#![tactic(auto)]

mod source;

pub use source::{front, read};
