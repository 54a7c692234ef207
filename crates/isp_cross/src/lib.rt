//! Calls across the lanes of a vector: what the lanes of a mask give together, what each finds in the lower ones, and lanes that are
//! taken from other lanes. What the calls answer is said in the specs of isp_base, Cross.antt.
//!
//! A lane that is off has no value: it counts for nothing where lanes are combined, and reads as 0 where one is taken. A call with
//! a vector `out` writes it in the lanes of the mask, and the others keep their old bits. No call takes memory, and none fails.
//! A number that is an int32 is given by its bits.
#![tactic(auto)]

mod laws;
mod moves;
mod reductions;
mod scans;

pub use laws::cross_laws;
pub use moves::{broadcast, extract, insert, rotate, shift, shuffle, shuffle_two};
pub use reductions::{all, any, none, ranks, reduce_add, reduce_equal, reduce_max, reduce_min};
pub use scans::exclusive_scan;
