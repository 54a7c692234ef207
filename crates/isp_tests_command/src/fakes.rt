//! Files and sinks that stand for the system's.
ghost use Rattle.std.specs.Prelude.{◌≡◌, false, Some, find, bytes_eq, option_map};

use isp_engine::{FileFault, Sink, SinkFault, SourceFiles};
use std::alloc::Global;

/// Files by name, in memory.
#[derive(Drop)]
pub(crate) struct Shelf<'a> {
    pub files: &'a [(&'a str, &'a str)],
}

impl SourceFiles for Shelf<'_> {
    // The text of the first file of that name, or none.
    ghost holds = { λ shelf name text. text ≡ option_map (λ file. file.1.now) (find (λ file. bytes_eq file.0.now name) shelf.files.now) };

    fn read(&self, alloc: Global, name: &str) -> Result<String, FileFault> {
        match text_of(self.files, name) {
            Some(text) => String::from_str(alloc, text).map_err(|_| FileFault::Memory),
            None => Err(FileFault::CannotRead),
        }
    }
}

fn text_of<'a>(files: &[(&'a str, &'a str)], name: &str) -> Option<&'a str>
    ensures { option_map (λ text. text.now) result ≡ option_map (λ file. file.1.now)
        (find (λ file. bytes_eq file.0.now name.now) files.now) }
{
    for (known, text) in files {
        if *known == name {
            return Some(*text);
        }
    }
    None
}

/// Takes at most `step` bytes a write, and none once `room` bytes are taken: then it fails, or answers 0 and no fault.
#[derive(Drop)]
pub(crate) struct Page {
    pub bytes: Vec<u8>,
    pub room: usize,
    pub step: usize,
    /// Whether it answers 0 where it takes none.
    pub is_quiet: bool,
    pub has_failed: bool,
}

impl Page {
    pub(crate) fn new(alloc: Global, room: usize, step: usize) -> Page
        ensures { result.has_failed ≡ false }
    {
        Page {
            bytes: Vec::new(alloc),
            room,
            step,
            is_quiet: false,
            has_failed: false,
        }
    }
}

impl Sink for Page {
    ghost written = { λ p. Some p.bytes.items };

    ghost has_failed = { λ p. p.has_failed };

    fn write(&mut self, bytes: &[u8]) -> Result<usize, SinkFault> {
        let count = bytes.len().min(self.room).min(self.step);
        if count == 0 && !bytes.is_empty() {
            self.has_failed = true;
            return if self.is_quiet { Ok(0) } else { Err(SinkFault) };
        }
        if self.bytes.extend_from_slice(&bytes[..count]).is_err() {
            self.has_failed = true;
            return Err(SinkFault);
        }
        self.room -= count;
        Ok(count)
    }

    fn failed(&self) -> bool {
        self.has_failed
    }
}
