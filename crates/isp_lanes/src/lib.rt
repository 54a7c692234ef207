//! Vectors of N lanes of one element type, and the operators on the lanes of a mask.
#![tactic(auto)]

mod beside;
mod gather;
mod kernels;
mod lane_elem;
mod lanes;
mod mask;
mod masked;
mod row;
mod source;
mod word;
mod words;

pub use lane_elem::LaneElem;
pub use lanes::Lanes;
pub use mask::{LaneBits, LaneMask};
pub use row::Row;
pub use source::Source;
