//! A machine of tasks: it runs a function of a program over a gang, by the meaning.
#![tactic(auto)]

mod activation;
mod calls;
mod counting;
mod distinct;
mod entering;
mod evaluator;
mod expressions;
mod gathering;
mod loops;
mod packed;
mod places;
mod printing;
mod rounds;
mod running;
mod simple;
mod starting;
mod state;
mod statements;
mod tasks;

pub use running::{Ending, Run, run_function};
