//! The system's words, files and streams, as isp_engine wants them.
#![tactic(auto)]

mod data;
mod host;
mod words;

pub use host::{HostFiles, HostOutput};
pub use words::command_words;
