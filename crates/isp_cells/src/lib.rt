//! Words at places, and how lanes find and leave them there by checked indices.
#![tactic(auto)]

mod cell;
mod elements;
mod gather;
mod index;
mod places;

pub use cell::Cell;
pub use gather::{clear, gathered, leave, loaded, scattered};
pub use index::{IndexTrap, limit};
