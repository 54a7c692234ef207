//! The arrays of a run, and how lanes read and write them by checked indices.
#![tactic(auto)]

mod arrays;
mod consecutive;
mod index;
mod lane_array;
mod lane_rows;
mod moves;
mod rows;

pub use arrays::Arrays;
pub use isp_cells::IndexTrap;
pub use lane_array::LaneArray;
