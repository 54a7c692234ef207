//! What docs/FAULTS.md says of each fault: a sentence, and how it is mended, by what stands at its place.
#![tactic(auto)]

mod advice;
mod page;
mod spot;

pub use advice::{Advice, advice_on};
pub use spot::Spot;
