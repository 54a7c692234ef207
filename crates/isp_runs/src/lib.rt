//! Code that is run: images, and what is reported of their runs.
#![tactic(auto)]

mod bound;
mod fault;
mod image;
mod report;
mod run;

pub use bound::execute_bound;
pub use fault::{CodeFault, RunFault};
pub use image::{Image, load_code};
pub use report::{BoundReport, Ending, Report};
pub use run::{execute, run_to};
