//! The end as one statement: what becomes of a text, its code and an entry's arguments; and the calls of which it is the promise.
#![tactic(auto)]

mod calls;
mod laws;

pub use calls::{Refusal, compile_as_meant, run_as_meant};
pub use laws::{
    bound_headline, by_exec, by_run, headline, module_headline, one_program, solo_is_run,
};
