//! The line of standard error, in the room that a report has for it.
ghost use Rattle.std.specs.Prelude.{◌≡◌, ◌≤◌, ◌+◌, ◌||◌, ◌++◌, [], Ok, Some, false, true, take, length};
ghost use Rattle.isp_engine.specs.Failures.{failure_line};
ghost use Rattle.isp_output.specs.Sinks.{refuses};
ghost use Rattle.isp_reports.specs.Lines.{line_bytes, padded};
ghost use Rattle.isp_reports.specs.Refusals.{line_of};

use crate::refusal::{Refusal, in_json};
use isp_engine::{Failure, Sink, SinkFault, tell_line};
use std::marker::Model;

/// The bytes of a line that a report holds: the last one stays 0.
pub(crate) const LINE: usize = 128;

/// The greatest number of bytes that a line has.
const MOST: usize = 127;

/// As many bytes of a line as it has room for, with zeros after them.
#[derive(Drop)]
struct Line {
    bytes: [u8; LINE],
    length: usize,
    has_failed: bool,
}

impl Model for Line {
    ghost use Rattle.std.specs.Prelude.{◌≡◌, ◌≤◌, ◌-◌, drop, replicate, take, true};
    ghost use Rattle.isp_reports.specs.Lines.{Written};

    ghost Value = { Written };

    ghost view = { λ l. record { text = take l.length l.bytes; failed = l.has_failed } };

    ghost invariant = { λ l. (l.length ≤ 127) × (drop l.length l.bytes ≡ replicate (128 - l.length) 0)
        × (l.has_failed ≡ true → l.length ≡ 127) };
}

impl Line {
    fn new() -> Line
        ensures { result ≡ record { text = []; failed = false } }
    {
        Line {
            bytes: [0; LINE],
            length: 0,
            has_failed: false,
        }
    }

    // Bytes for which there is room.
    fn push(&mut self, bytes: &[u8])
        requires { length self.old.text + length bytes.now ≤ 127 }
        ensures text { self.new.text ≡ self.old.text ++ bytes.now }
        ensures failed { self.new.failed ≡ self.old.failed }
    {
        let end = self.length + bytes.len();
        let room = &mut self.bytes[self.length..end];
        room.copy_from_slice(bytes);
        self.length = end;
    }

    // As many of the bytes as there is room for, and how many they are.
    fn take(&mut self, bytes: &[u8]) -> usize
        ensures bound { result ≤ length bytes.now }
        ensures text { self.new.text ≡ self.old.text ++ take result bytes.now }
        ensures failed { self.new.failed ≡ (self.old.failed || refuses (Ok result) bytes.now) }
    {
        let count = usize::min(bytes.len(), MOST - self.length);
        if count == 0 && !bytes.is_empty() {
            self.has_failed = true;
            return 0;
        }
        self.push(&bytes[..count]);
        count
    }

    // The line, with zeros after it.
    fn into_bytes(self) -> [u8; LINE]
        ensures bytes { result ≡ padded self.text }
        ensures short { length self.text ≤ 127 }
        ensures full { self.failed ≡ true → length self.text ≡ 127 }
    {
        self.bytes
    }
}

impl Sink for Line {
    ghost written = { λ l. Some l.text };

    ghost has_failed = { λ l. l.failed };

    fn write(&mut self, bytes: &[u8]) -> Result<usize, SinkFault> {
        Ok(self.take(bytes))
    }

    fn failed(&self) -> bool {
        self.has_failed
    }
}

/// No line: zeros alone.
pub(crate) fn no_line() -> [u8; LINE]
    ensures { result ≡ line_bytes [] }
{
    [0; LINE]
}

/// The line of a refusal, as much of it as there is room for, with zeros after it.
pub(crate) fn line_of(refusal: &Refusal<'_>) -> [u8; LINE]
    ensures { result ≡ line_bytes (line_of refusal.now) }
{
    match refusal {
        Refusal::NoGang => text_bytes("isp: no such gang\n"),
        Refusal::Failed(failure) => failure_bytes(failure),
        Refusal::Arguments(fault) => failure_bytes(&in_json(*fault)),
        Refusal::NoModule(line) => text_bytes(line.as_str()),
        Refusal::Short => text_bytes("isp: no room\n"),
    }
}

// The line of a failure.
fn failure_bytes(failure: &Failure<'_>) -> [u8; LINE]
    ensures { result ≡ line_bytes (failure_line failure.now) }
{
    let mut line = Line::new();
    tell_line(failure, &mut line);
    line.into_bytes()
}

// The line that a text is.
fn text_bytes(text: &str) -> [u8; LINE]
    ensures { result ≡ line_bytes text.now }
{
    let mut line = Line::new();
    line.push(front(text.as_bytes()));
    line.into_bytes()
}

// As many of the bytes as a line has room for.
fn front(bytes: &[u8]) -> &[u8]
    ensures front { result.now ≡ take 127 bytes.now }
    ensures short { length result.now ≤ 127 }
{
    if bytes.len() <= MOST {
        return bytes;
    }
    &bytes[..MOST]
}
