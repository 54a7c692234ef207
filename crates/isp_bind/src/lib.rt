//! Arguments and answers in JSON.
#![tactic(auto)]

mod answers;
mod arguments;
mod fault;
mod laws;

pub use answers::answer;
pub use arguments::bind;
pub use fault::BindFault;
pub use laws::bind_laws;
