//! A call of the machine: its registers and arrays, and what it is given.
#![tactic(auto)]

pub mod array;
pub mod frame;
pub mod here;
pub mod kernels;
pub mod locals;
pub mod passed;
pub mod zeros;
