//! The program `isp` over what it is handed: from words to an exit status.
#![tactic(auto)]

mod alone;
mod checking;
mod commands;
mod refused;

pub use commands::command;
