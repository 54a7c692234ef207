//! From a source text to its code, and what the commands share: the files that they read, what goes out, the line of a failure.
#![tactic(auto)]

mod compilation;
mod failure;
mod files;
mod job;
mod lines;
mod texts;

pub use compilation::compile;
pub use failure::Failure;
pub use files::{FileFault, SourceFiles, read_source, read_text};
pub use isp_front::front;
pub use isp_machine::{StartFault, Stop};
pub use isp_output::{Kept, Sink, SinkFault};
pub use isp_runs::{
    BoundReport, CodeFault, Ending, Image, Report, RunFault, execute, execute_bound, load_code,
    run_to,
};
pub use job::{Job, Origin};
pub use lines::{tell_end, tell_line};
pub use texts::{read_file, write_bytes, write_text};
