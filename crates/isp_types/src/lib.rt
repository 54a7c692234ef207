//! Names and types: what a tree is as a typed program, or the first fault of them.
#![tactic(auto)]

mod declaration;
mod function;
mod gathered;
mod make;
mod parts;
mod program;
mod simple;
mod stmt;
mod walk;

pub use declaration::{array_sized, declare_item, or_nothing, twice};
pub use function::{declare_parameter, name_fault, param_fits, take};
pub use isp_typed::{Program, Typed, TypedFunction};
pub use parts::{active_index, agrees, foreach_index, places, unique_value};
pub use program::{headers, resolve};
pub use simple::target;
