//! What the names of a source text stand for, and how one is renamed.
#![tactic(auto)]

mod edit;
mod fault;
mod name;
mod rename;
mod source;

pub use fault::RenameFault;
pub use rename::renamed;
pub use source::{Known, known_text};
