//! The gang and its instances one by one: that the gang does in each instance what the instance does alone.
#![tactic(auto)]

mod laws;

pub use laws::{
    acts_agree, agreement_of_samples, bodies_agree, each_with_its_turns, every_call_agrees,
    expressions_agree, loops_agree, solo_runs_agree, statements_agree, touched_stays,
};
