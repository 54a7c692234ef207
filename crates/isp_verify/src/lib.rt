//! Which code is well formed.
#![tactic(auto)]

mod calls;
mod check;
mod fault;
mod header;
mod instrs;
mod laws;
mod operands;
mod registers;
mod signatures;
mod verified;

pub use fault::{Fault, Rule, VerifyFault};
pub use laws::{accepted_code_is_fine, fine_code_is_accepted};
pub use registers::Registers;
pub use verified::{Verified, verify};
