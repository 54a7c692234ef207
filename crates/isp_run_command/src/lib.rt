//! `ispx run`: an entry of a source is run with what words and files give.
#![tactic(auto)]

mod command;
mod output;
mod steps;
mod told;

pub use command::run;
pub use output::{show, tell};
