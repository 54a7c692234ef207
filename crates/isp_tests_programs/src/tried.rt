//! What was tried, and what differs.
use std::alloc::{AllocError, Global};

/// How many things were tried, and a line for each in which one does not come to what it says.
#[derive(Drop)]
pub struct Tried {
    pub count: u64,
    pub differences: Vec<String>,
}

impl Tried {
    pub fn new(alloc: Global) -> Tried {
        Tried {
            count: 0,
            differences: Vec::new(alloc),
        }
    }

    /// One thing more is tried.
    pub fn begin(&mut self) {
        self.count = self.count.saturating_add(1);
    }

    /// It does not come to what it says.
    pub fn differ(&mut self, line: String) -> Result<(), AllocError> {
        self.differences.push(line)?;
        Ok(())
    }
}
