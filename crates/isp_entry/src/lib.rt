//! With which function a run begins, and why an evaluation is refused: what evaluators of a program share.
#![tactic(auto)]

mod entry;
mod fault;

pub use entry::{find, find_number};
pub use fault::EvalFault;
