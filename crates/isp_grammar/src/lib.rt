//! The grammar, and the readers of its types, expressions, statements and functions: from tokens to
//! the functions of a whole text.
#![tactic(auto)]

mod declaration;
mod expr;
mod function;
mod heads;
mod make;
mod parts;
mod reading;
mod simple;
mod single;
mod start;
mod stmt;
mod stop;
mod types;

pub use function::program;
pub use stop::{Refusal, Stop, Why};
