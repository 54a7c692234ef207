//! Why `ispx run` does not end well: the exit status, and what is said of it.
#![tactic(auto)]

mod asked;
mod given;
mod said;
mod stop;

pub use asked::bad_word;
pub use said::{Exports, stop_text};
pub use stop::{RunStop, Slip};
