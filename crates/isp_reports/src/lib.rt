//! What a call of the library says of itself: why it ends otherwise than well, its status, its report, and bytes in a room.
#![tactic(auto)]

mod line;
mod refusal;
mod report;
mod room;

pub use refusal::Refusal;
pub use report::{Report, Why, done, refuse};
pub use room::{give, put};
