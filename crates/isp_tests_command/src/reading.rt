//! The text of a file, from readers that give a few bytes at a time, are broken off, or fail.
use isp_engine::{FileFault, read_source, read_text};
use std::alloc::Global;
use std::io;
use std::io::Read;

/// Gives its bytes, at most `step` a read. A signal breaks off the read of number `broken`, and the
/// one of number `failing` fails.
#[derive(Drop)]
pub(crate) struct Wire<'a> {
    bytes: &'a [u8],
    step: usize,
    reads: usize,
    broken: usize,
    failing: usize,
}

impl Read for Wire<'_> {
    fn read(&mut self, buf: &mut [u8]) -> io::Result<usize> {
        let number = self.reads;
        self.reads = self.reads.saturating_add(1);
        if number == self.broken {
            return Err(io::Error::from(io::ErrorKind::Interrupted));
        }
        if number == self.failing {
            return Err(io::Error::from(io::ErrorKind::BrokenPipe));
        }
        let count = self.step.min(buf.len());
        self.bytes.read(&mut buf[..count])
    }
}

/// No read has this number.
const NEVER: usize = 1000;

/// A wire that gives these bytes without a fault.
pub(crate) fn gives(bytes: &[u8], step: usize) -> Wire<'_> {
    Wire {
        bytes,
        step,
        reads: 0,
        broken: NEVER,
        failing: NEVER,
    }
}

// Whether what a wire gives is read as a text, or is refused.
fn is_read(alloc: Global, wire: &mut Wire<'_>, most: usize, text: Option<&str>) -> bool {
    match read_text(alloc, wire, most) {
        Ok(found) => Some(found.as_str()) == text,
        Err(fault) => text.is_none() && fault == FileFault::CannotRead,
    }
}

/// What the wires give.
pub(crate) const TEXT: &str = "caf\u{e9} = 1;";

// Its bytes, of which the fourth and the fifth are one character.
const BYTES: &[u8] = b"caf\xc3\xa9 = 1;";

// Bytes, how many of them may be read, and the text that they are, or none where they are refused: as many bytes as may be, and one more; bytes that are no
// UTF-8.
static READ: [(&[u8], usize, Option<&str>); 8] = [
    (b"", 0, Some("")),
    (BYTES, 100, Some(TEXT)),
    (BYTES, 10, Some(TEXT)),
    (BYTES, 9, None),
    (b"ab\xff", 100, None),
    (b"ab\xc3", 100, None),
    (b"\x80ab", 100, None),
    (b"\xed\xa0\x80", 100, None),
];

#[test]
fn a_few_bytes_at_a_time(rt: HostRuntime) {
    let alloc = rt.alloc();
    for step in [1, 2, 3, 4, 5, 9, 10, 11, 100] {
        for (bytes, most, text) in &READ {
            let read = is_read(alloc, &mut gives(bytes, step), *most, *text);
            assert!(rt; read, "{bytes:?} in {step}");
        }
        let text = read_source(alloc, &mut gives(TEXT.as_bytes(), step)).expect(&rt, "no text");
        assert!(rt; text.as_str() == TEXT);
    }
}

// A read that a signal broke off is made again, whichever it is. Where a read fails nothing is read after it, though there is more.
#[test]
fn broken_off_and_failing(rt: HostRuntime) {
    let alloc = rt.alloc();
    for number in 0..5usize {
        let mut broken = gives(TEXT.as_bytes(), 3);
        broken.broken = number;
        assert!(rt; is_read(alloc, &mut broken, 100, Some(TEXT)) && broken.reads == 6);
        let mut failing = gives(TEXT.as_bytes(), 3);
        failing.failing = number;
        assert!(rt; is_read(alloc, &mut failing, 100, None) && failing.reads == number + 1);
    }
}
