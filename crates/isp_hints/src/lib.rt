//! Where a program is slow, told from its code and its loops.
#![tactic(auto)]

mod accesses;
mod hint;
mod loops;
mod ordered;
mod program;

pub use hint::{Hint, Slow};
pub use program::hints;
