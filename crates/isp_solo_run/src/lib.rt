//! The run of a function by one instance alone.
#![tactic(auto)]

pub mod activation;
pub mod arrays;
mod calls;
mod entering;
mod expressions;
mod library;
pub mod loops;
pub mod places;
pub mod rounds;
pub mod running;
mod simple;
mod starting;
pub mod state;
mod statements;
pub mod tasks;
pub mod touches;
