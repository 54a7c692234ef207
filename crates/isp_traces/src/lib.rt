//! What a run does: how many instructions it takes and how many lanes they use, and each step with its masks.
#![tactic(auto)]

mod counting;
mod kinds;
mod lines;
mod masks;
mod named;
mod runs;
mod tallies;
mod texts;
mod tracing;

pub use counting::count;
pub use kinds::{Kind, kind_of};
pub use runs::{Counted, Traced, count_grouped, count_run, trace_run};
pub use tallies::{Counts, Grouping, Groups, Tally};
pub use texts::{counts_line, lines_line};
pub use tracing::{Window, trace};
