//! Code as a C file: one line for each instruction, over `include/isp_machine.h`.
#![tactic(auto)]

mod counts;
mod entries;
mod form;
mod functions;
mod line;
mod lines;
mod page;
mod words;
mod writer;

pub use counts::Counts;
pub use form::Form;
pub use line::Tail;
pub use writer::{header, write};
