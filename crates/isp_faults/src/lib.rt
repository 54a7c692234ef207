//! Every fault of a source text that can be told at once.
#![tactic(auto)]

mod source;

pub use source::faults;
