//! Laws that pin the meanings of programs, in words other than the definitions': no code is run.
#![tactic(auto)]

mod crossings;
mod deals;
mod decides;
mod everybody;
mod local_arrays;
mod lone;
mod members;
mod offenders;
mod rules;
mod samples;
mod scatters;
mod stays;
mod taken;
mod typings;
mod works;

pub use crossings::{are_combined, are_moved};
pub use deals::dealt_once;
pub use decides::{members_decide, nobody_runs};
pub use everybody::whoever_comes;
pub use local_arrays::are_local;
pub use lone::lone_is_alone;
pub use members::a_trap_names_a_member;
pub use offenders::the_lowest_is_named;
pub use rules::{
    crossing_is_needed, foreach_is_needed, outside_is_needed, printing_is_needed, return_is_needed,
    shared_array_is_needed, turned_is_needed,
};
pub use samples::premises_of_samples;
pub use scatters::the_highest_wins;
pub use stays::arrays_stay;
pub use taken::taken_once;
pub use typings::verdict_is_right;
pub use works::{work_of_call, work_of_foreach, work_of_if, work_of_loops};
