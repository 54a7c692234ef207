//! `ispx explain`: what `isp check` or `isp run` does, and what goes wrong in a way that helps.
#![tactic(auto)]

mod command;
mod done;

pub use command::explain;
