//! What comes out.
use std::fmt;

/// What comes out of a program: how it ends, its arrays where it traps, and what it writes.
#[derive(Drop)]
pub(crate) struct Found {
    pub ending: String,
    pub arrays: String,
    pub output: Vec<u8>,
}

impl Found {
    /// Whether this is the same in each part; the other need not say the arrays.
    pub(crate) fn is(&self, other: &Found) -> bool {
        self.ending == other.ending
            && self.output == other.output
            && (other.arrays.is_empty() || self.arrays == other.arrays)
    }

    /// Whether this ends as the other does and writes the same, or, where both go on, the beginning of it.
    pub(crate) fn begins(&self, other: &Found) -> bool {
        if self.ending.as_str() == "cut " {
            return self.ending == other.ending
                && other.output.as_slice().starts_with(self.output.as_slice());
        }
        self.ending == other.ending && self.output == other.output
    }

    /// Whether this was run, and not refused.
    pub(crate) fn has_run(&self) -> bool {
        let ending = self.ending.as_str();
        ending.starts_with("ends ") || ending.starts_with("trap ") || ending == "cut "
    }

    /// Whether this is a trap.
    pub(crate) fn is_trap(&self) -> bool {
        self.ending.as_str().starts_with("trap ")
    }

    /// Whether that much went out: all that is written, and after an end its answer and a line feed; where it goes on, the beginning.
    pub(crate) fn sends(&self, bytes: &[u8]) -> bool {
        if self.ending.as_str() == "cut " {
            return self.output.as_slice().starts_with(bytes);
        }
        let Some(behind) = bytes.strip_prefix(self.output.as_slice()) else {
            return false;
        };
        match self.ending.as_str().strip_prefix("ends ") {
            Some(answer) => behind.strip_suffix(b"\n") == Some(answer.as_bytes()),
            None => behind.is_empty(),
        }
    }
}

impl fmt::Display for Found {
    fn fmt<W: fmt::Write>(&self, f: &mut fmt::Formatter<W>) -> fmt::Result {
        write!(
            f,
            "{} {} and {} bytes",
            self.ending.as_str(),
            self.arrays.as_str(),
            self.output.len()
        )
    }
}
