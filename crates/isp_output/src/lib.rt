//! Where the output of a run goes, and how it gets there while a machine runs.
#![tactic(auto)]

mod sink;
mod streaming;

pub use sink::{Kept, Nowhere, Sink, SinkFault, write_all};
pub use streaming::stream;
