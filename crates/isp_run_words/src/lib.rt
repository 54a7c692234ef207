//! Words of a command line that give values to the parameters of an entry, and the arguments that they and their files come to.
#![tactic(auto)]

mod fault;
mod files;
mod given;
mod outputs;
mod request;
mod shapes;
mod words;

pub use fault::GivenFault;
pub use files::{DataFault, DataFiles};
pub use given::{Content, Given, Words, bind_words};
pub use outputs::{Layout, Output, OutputFault, Wanted, output_bytes, planned};
pub use request::RunWords;
pub use words::{Format, Value, read_output, read_value};
