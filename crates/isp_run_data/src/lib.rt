//! The files of a run: what is read before it, and what is written and shown after it.
#![tactic(auto)]

mod reading;
mod sending;
mod shown;

pub use reading::loaded;
pub use sending::{outputs, write_outputs};
pub use shown::{Shown, shown_of};
