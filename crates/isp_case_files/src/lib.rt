//! Cases of kernels: what is run, and what is wanted of it.
#![tactic(auto)]

mod case;
mod comparing;
mod fault;
mod reading;

pub use case::{Answer, Case, Verdict, Wanted};
pub use comparing::compare;
pub use fault::{CaseFault, Member};
pub use reading::{read_cases, read_list};
