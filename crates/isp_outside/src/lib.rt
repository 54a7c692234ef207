//! Which element of an array an access asked for that is not there, and how many there are.
#![tactic(auto)]

mod access;
mod outside;

pub use outside::{Outside, asked_for};
