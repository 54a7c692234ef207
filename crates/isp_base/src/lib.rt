//! Types, values and operators that every layer speaks of.
#![tactic(auto)]

mod array;
mod name;
mod operators;
mod order;
mod signature;
mod trap;
mod types;
mod unary;
mod values;

pub use array::{Array, Cells};
pub use name::Name;
pub use operators::{BinOp, Compare, DivideByZero, UnaryOp, apply, apply_nonzero, operator_laws};
pub use order::compare;
pub use signature::{Argument, Bound, Parameter, Signature};
pub use trap::{Trap, TrapKind};
pub use types::{
    Elem, Gang, Rate, Span, Ty, Value, chosen, common, common_laws, gang_laws, operand, widened,
};
pub use unary::apply_unary;
pub use values::{amount_mask, convert, greatest_of, low_bits, low_mask, number, value_laws, wrap};
