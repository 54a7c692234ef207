//! The arrays of a gang's run: those that all instances share, and those of which each has its own. Both read 0 where
//! nothing was written.
#![tactic(auto)]

pub mod indices;
pub mod packing;
pub mod stores;
