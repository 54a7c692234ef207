//! What `isp check` says of a program: whether the instances of each exported function are independent.
#![tactic(auto)]

mod verdict;

pub use verdict::verdicts;
