//! What is the same in all instances of a `foreach`'s body, and what counts on from one to the next: definitions, and laws
//! that they hold. No code is run.
#![tactic(auto)]

mod bodies;
mod rows;
mod samples;
mod scopes;
mod unset;
mod values;

pub use bodies::{known_in_bodies, known_in_foreach};
pub use rows::stand_in_a_row;
pub use samples::samples_tell;
pub use scopes::{behind_is_known, indices_are_known, item_is_known, stays_known};
pub use unset::stays_unset;
pub use values::{linear_counts_on, scalars_are_fine, steady_gives_one};
