//! Calls of JSON-RPC 2.0, read and answered.
#![tactic(auto)]

mod call;

pub use call::{Call, read_call};
