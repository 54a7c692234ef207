//! Arguments and answers as bytes, for programs that call isp without JSON.
#![tactic(auto)]

mod answers;
mod arguments;
mod fault;
mod laws;

pub use answers::pack;
pub use arguments::unpack;
pub use fault::{NoRoom, PackedFault};
pub use laws::packed_laws;
