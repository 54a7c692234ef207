//! What `ispx` does with code: it is run and shown, or written as another thing.
#![tactic(auto)]

mod lines;
mod native;
mod runs;
mod texts;
mod wasm;

pub use native::c_file;
pub use runs::{count, trace};
pub use texts::read_both;
pub use wasm::wasm_file;
