//! What is said to people of a failure, an exported function or a hint: where it is, what it is, and what to write instead.
#![tactic(auto)]

mod bindings;
mod close;
mod exports;
mod failures;
mod hints;
mod message;
mod page;

pub use bindings::{argument_site, arguments_site, push_arguments};
pub use close::closest;
pub use exports::export_message;
pub use failures::{
    Element, advise, entry_message, fault_message, push_advice, source_message, trap_message,
};
pub use hints::hint_message;
pub use message::Message;
pub use page::{Source, push_place};
