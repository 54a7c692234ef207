//! Places of a text as an editor counts them: line and column, the line, and carets below it.
#![tactic(auto)]

mod carets;
mod place;

pub use carets::marks;
pub use place::{Place, line_at, place_of};
