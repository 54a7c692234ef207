//! Which vectors of some code have one known number in each lane, and the check of such facts: wherever a run by forms comes before an
//! operator whose right operand is told as a number, the operand has it.
#![tactic(auto)]

mod checker;
mod elems;
mod fact;
mod finder;
mod written;

pub use checker::check;
pub use fact::{Constants, Fact, Known};
pub use finder::find;
