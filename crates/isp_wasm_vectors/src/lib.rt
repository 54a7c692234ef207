//! Instructions of the machine on vectors and across lanes as WebAssembly, written as bytes.
#![tactic(auto)]

mod across;
mod cells;
mod converts;
mod folds;
mod lane_values;
mod lanes;
mod loops;
mod parts;
mod picks;
mod quotients;
mod rows;
mod runs;
mod shifts;
mod vectors;

pub use across::across_line;
pub use lanes::lanes_line;
pub use parts::lane;
pub use rows::widened_mask;
pub use vectors::{select_lanes, vector_line};
