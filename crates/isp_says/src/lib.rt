//! The instructions of the machine that write to the output.
#![tactic(auto)]

mod says;
mod texts;

pub use says::{print_scalar, print_vector, say};
