//! The command `lsp`: a language server over one input and one output.
#![tactic(auto)]

mod answer;
mod command;
mod connection;
mod end;
mod read;

pub use command::lsp;
pub use connection::serve;
pub use end::LspEnd;
