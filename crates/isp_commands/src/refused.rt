//! The text of refused words.
use clap::Error;
use isp_output::{Sink, write_all};
use std::fmt;
use std::fmt::Write;

/// Writes the text of refused words, as far as the sink takes it; nothing where it has failed before.
pub(crate) fn show<W: Sink>(error: &Error, out: &mut W) {
    let mut shown = Shown { to: out };
    let _ = write!(shown, "{error}");
}

/// Text for a sink.
#[derive(Drop)]
struct Shown<'a, W> {
    to: &'a mut W,
}

impl<W: Sink> Write for Shown<'_, W> {
    fn write_str(&mut self, text: &str) -> fmt::Result {
        if self.to.failed() {
            return Err(fmt::Error);
        }
        write_all(self.to, text.as_bytes()).map_err(|_| fmt::Error)
    }
}
