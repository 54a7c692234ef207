//! Places of a text as the language server protocol counts them: lines, and units of UTF-16 in a line, both from 0.
#![tactic(auto)]

mod offset;
mod position;

pub use offset::offset_of;
pub use position::{Position, position_of};
