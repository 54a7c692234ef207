//! Which code a statement, a function and a program become, and that it does what they mean.
#![tactic(auto)]

mod exits;
mod laws;

pub use exits::{Exits, Leaving, jump, only_jump};
pub use laws::{loops_run, lowered_agrees, statements_run};
