//! A language server over what it is handed: one connection, message by message.
#![tactic(auto)]

mod asked;
mod completion;
mod deed;
mod diagnostics;
mod frame;
mod library;
mod params;
mod phase;
mod question;
mod refusal;
mod renaming;
mod sent;
mod server;
mod told;

pub use frame::framed;
pub use library::library_law;
pub use phase::Phase;
pub use question::Question;
pub use refusal::Refusal;
pub use server::{Next, Reply, Server};
