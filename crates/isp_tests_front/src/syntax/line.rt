//! A line of text that is written piece by piece.
use isp_base::Span;
use std::alloc::{AllocError, Global};
use std::fmt::Write;

/// A line as far as it was written: where memory is refused, the rest of it is left out, and `finish` says so.
#[derive(Drop)]
pub struct Line {
    text: String,
    refused: bool,
}

impl Line {
    pub fn new(alloc: Global) -> Line {
        Line {
            text: String::new(alloc),
            refused: false,
        }
    }

    /// A text as it is.
    pub fn add(&mut self, text: &str) {
        if self.text.push_str(text).is_err() {
            self.refused = true;
        }
    }

    /// A word after a blank.
    pub fn word(&mut self, text: &str) {
        self.add(" ");
        self.add(text);
    }

    /// The bracket of a node and the node's name.
    pub fn open(&mut self, name: &str) {
        self.add(" (");
        self.add(name);
    }

    /// The end of a node.
    pub fn close(&mut self) {
        self.add(")");
    }

    /// A number after a blank.
    pub fn number(&mut self, number: u64) {
        if write!(self.text, " {number}").is_err() {
            self.refused = true;
        }
    }

    /// A place after a blank, as `3..5`.
    pub fn place(&mut self, span: Span) {
        if write!(self.text, " {span}").is_err() {
            self.refused = true;
        }
    }

    /// The line, if all of it was written.
    pub fn finish(self) -> Result<String, AllocError> {
        if self.refused {
            return Err(AllocError);
        }
        Ok(self.text)
    }
}
