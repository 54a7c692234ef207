//! Sets of instances, values over them and what the library gives of such values, and vectors that read 0 where nothing
//! was written, and the ranges of a `foreach`: the words of the meaning in code.
#![tactic(auto)]

pub mod computed;
pub mod cross;
pub mod growing;
pub mod library;
pub mod numbers;
pub mod ranges;
pub mod reductions;
pub mod row;
pub mod sets;
