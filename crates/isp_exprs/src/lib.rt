//! Names and types of expressions: what each is as a typed tree by the names in scope, or the first fault.
#![tactic(auto)]

mod callee;
mod calls;
mod expressions;
mod library;
mod places;
mod scope;
mod values;
mod words;

pub use callee::{Callee, Header, Headers, Want, asked_past, library_named, unless_unknown};
pub use calls::Called;
pub use expressions::{Setting, argument_fault, call, expr, place, want_at};
pub use places::{element_target, mismatch, variable_target};
pub use scope::{Binding, Known, Scope};
pub use values::converted;
pub use words::{ValueWords, answer_said, rate_or_varying, type_declared, value_said};
