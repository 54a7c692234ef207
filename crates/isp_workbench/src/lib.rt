//! The program `ispx` over what it is handed: what helps someone who writes kernels.
#![tactic(auto)]

mod commands;

pub use commands::command;
