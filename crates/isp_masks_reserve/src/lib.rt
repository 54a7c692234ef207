//! What reserves the registers and masks that the code of a body asks for, before it is written.
#![tactic(auto)]

mod parts;
mod ranges_reserved;
mod reserved;

pub use parts::{Condition, Unique};
pub use reserved::block;
