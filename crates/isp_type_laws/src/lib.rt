//! What is true of the values of a run, whatever they are: each fits the type of what holds it, and a uniform
//! expression gives one for all instances.
#![tactic(auto)]

mod laws;

pub use laws::{bodies_accepted, elements_fit, result_fits, uniform_gives_one};
