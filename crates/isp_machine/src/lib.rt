//! The machine: so many instructions are so many steps of the table.
#![tactic(auto)]

mod calls;
mod cross;
mod divide;
mod jumps;
mod lanes;
mod machine;
mod masks;
mod operands;
mod order;
mod packed;
mod quick;
mod returns;
mod run;
mod scalars;
mod sprint;
mod start;
mod step;
mod stop;
mod stores;
mod vectors;

pub use machine::{Machine, Rest, Spot};
pub use stop::{StartFault, Stop};
