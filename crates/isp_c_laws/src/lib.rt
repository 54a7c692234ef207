//! What the calls of the library for C leave, as definitions, and what they come to one after the other, as a law.
#![tactic(auto)]

mod laws;

pub use laws::from_source;
