//! What a program does over a gang, and how much work that is, by its meaning.
#![tactic(auto)]

mod ending;
mod outcome;
mod run;

pub use isp_entry::EvalFault;
pub use outcome::Outcome;
pub use run::{evaluate, work};
