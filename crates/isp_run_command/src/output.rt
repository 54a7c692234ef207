//! Text for people.
use isp_engine::{Failure, Sink, tell_line, write_text};
use std::alloc::AllocError;

/// Writes a text as far as the sink takes it; nothing where it has failed before.
pub fn show<O: Sink>(text: &str, out: &mut O) {
    if !out.failed() {
        let _ = write_text(text, out);
    }
}

/// Writes a text, or where memory was refused for it the line of that.
pub fn tell<E: Sink>(text: Result<String, AllocError>, err: &mut E) {
    match text {
        Ok(text) => show(text.as_str(), err),
        Err(AllocError) => tell_line(&Failure::Memory, err),
    }
}
