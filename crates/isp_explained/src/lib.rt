//! What `ispx explain` says of a failure: where it is, what it is, and what to write instead.
#![tactic(auto)]

mod story;

pub use story::{Asked, Given, entry_story, notes, plain_fault, source_story, trap_story};
