//! Every breach of rates, exits and exports in a typed program.
#![tactic(auto)]

mod demand;
mod expr;
mod function;
mod laws;
mod ordered;
mod program;
mod simple;
mod stmt;
mod within;

pub use laws::order_laws;
pub use ordered::put_in_order;
pub use program::breaches;
