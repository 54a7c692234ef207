//! isp for C: a source text is compiled to code text, code is run over bytes, and each command is done over memory.
//!
//! include/isp.h declares these functions, and says what their caller owes. There are no handles: the code text is the
//! compiled form, which the caller keeps, and each call is on its own. The statuses are those of the program, and 10
//! where a room is too small.
#![tactic(auto)]

mod command;
mod compile;
mod native;
mod run;
mod texts;
mod trace;
mod wasm;

pub use command::{File, Used, isp_command};
pub use compile::isp_compile;
pub use isp_reports::{Report, Why};
pub use native::isp_native;
pub use run::{Job, isp_run};
pub use texts::Text;
pub use trace::{Trace, isp_trace};
pub use wasm::isp_wasm;
