//! `ispx check`: every fault of a source, or which exported functions are independent, and where it is slow.
#![tactic(auto)]

mod command;
mod exports;
mod notes;
mod page;

pub use command::check;
