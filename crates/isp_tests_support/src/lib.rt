//! What tests share: a hoard that refuses memory, a sweep that refuses each growth of a call, programs to sweep, and readers
//! of texts with marks.
#![tactic(auto)]

mod hoard;
mod marks;
mod programs;
mod sweeps;

pub use hoard::Hoard;
pub use marks::{Marked, number, parted, spelt_out};
pub use programs::{CALLS, COUNTER, INC, LOCAL_ARRAY, PROGRAMS, Program, UNIQUE};
pub use sweeps::{Tried, sweep, sweep_call};
