//! Code text: how code is written as a text and read again, and why a text is no text of code.
#![tactic(auto)]

mod assemble;
mod draft;
mod fault;
mod head;
mod instr;
mod laws;
mod line;
mod operands;
mod order;
mod page;
mod reader;
mod row;
mod rows;
mod shape;
mod words;
mod writer;

pub use fault::{AsmFault, Fault, Rule};
pub use head::{Head, Op};
pub use laws::text_laws;
pub use order::Kind;
pub use reader::read;
pub use row::Tail;
pub use shape::{Ending, Shape};
pub use writer::{write, write_instr};
