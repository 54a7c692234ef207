//! Where messages of JSON-RPC stand in a stream of bytes.
#![tactic(auto)]

mod frame;

pub use frame::{FrameFault, Framed, first_message};
