//! Code of the machine as a module of WebAssembly, as bytes.
#![tactic(auto)]

mod body;
mod calls;
mod exports;
mod fits;
mod functions;
mod groups;
mod line;
mod memory;
mod opened;
mod prints;
mod refusal;
mod sections;
mod source;
mod types;

pub use fits::refusal as first_refusal;
pub use refusal::Refusal;
pub use sections::module;
