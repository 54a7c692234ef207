//! What programs mean: the run of a function over a gang, as definitions, and what holds of every run.
#![tactic(auto)]

mod laws;

pub use laws::{
    counts_work, each_has_one, each_value_once, four_sets, idle_branches, more_turns, others_stay,
    straight_work, variables_stay,
};
