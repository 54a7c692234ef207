//! Which names are in scope at a place of a text, also of one that cannot be parsed.
#![tactic(auto)]

mod functions;
mod names;
mod scopes;
mod sign;
mod standing;

pub use names::{Names, name_at, names_before};
