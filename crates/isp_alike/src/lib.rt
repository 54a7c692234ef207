//! Whether a program is another one in which something has a new name.
#![tactic(auto)]

mod expr;
mod function;
mod simple;
mod spot;
mod stmt;
mod token;

pub use function::is_renamed;
pub use spot::Renaming;
pub use token::are_renamed;
