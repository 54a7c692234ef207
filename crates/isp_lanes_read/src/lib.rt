//! Tables of what the machine's code tells about its masks and lanes, and the check of such tables, by which no run
//! can tell whether lanes that nobody reads are kept.
#![tactic(auto)]

mod backward;
mod bound;
mod checker;
mod edges;
mod find_tables;
mod forward;
mod free;
mod known;
mod operands;
mod reads;
mod steps;
mod table;

pub use checker::check;
pub use find_tables::find;
pub use reads::{mask_of, written};
pub use table::{Inclusion, LaneSet, Line, Reading, Table, Tables};
