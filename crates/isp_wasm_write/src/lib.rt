//! Code of the machine as WebAssembly, written as bytes.
#![tactic(auto)]

mod entry;
mod heads;
mod jumps;
mod kernel;
mod limits;
mod lines;
mod locals;
mod masks;
mod memory;
mod opened;
mod operand;
mod parts;
mod ranges;
mod refusal;
mod registers;
mod rows;
mod scalars;
mod texts;
mod types;

pub use entry::has_call;
pub use kernel::{Caller, Kernel, Place};
pub use limits::limit_fault;
pub use operand::{Operand, constant};
pub use refusal::Refusal;
pub use rows::{Part, below_part, compare_part, half, unary_part, widened_part};
pub use scalars::{all_ones, below, compare, convert, cut, plain, unary};
pub use types::{bytes_of, right_of, shape_of, size_of, width_of};
