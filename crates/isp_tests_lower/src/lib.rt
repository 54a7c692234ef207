//! Worked examples of what an emitter gives, against code that was written down beforehand.
#![tactic(auto)]

#[cfg(test)]
mod emitted;
#[cfg(test)]
mod named;
#[cfg(test)]
mod refused;
#[cfg(test)]
mod trees;
#[cfg(test)]
mod written;

#[cfg(test)]
pub use emitted::{assignment_code, sum_code};
