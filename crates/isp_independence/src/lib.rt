//! Independent entries: those of which each instance can be thought of alone. The seven rules are definitions over the typed
//! tree (specs/), which docs/INDEPENDENCE.md tells in words with an example for each.
#![tactic(auto)]

mod callers;
mod control;
mod crossing;
mod dependence;
mod early;
mod exits;
mod firsts;
mod function;
mod laws;
mod program;
mod simple;
mod spread;
mod stmt;

pub use dependence::{Dependence, Restriction};
pub use laws::rules_of_samples;
pub use program::dependences;
