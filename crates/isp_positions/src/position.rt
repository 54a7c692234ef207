//! From a byte to its line and character.
ghost use Rattle.std.specs.Prelude.{◌≡◌, ◌≤◌, ◌<◌, ◌==◌, ◌^◌, false, get_or, length, take};
ghost use Rattle.std.specs.List.{count_by};
ghost use Rattle.isp_positions.specs.Positions.{character_of, line_ends, line_of, line_start, units, units_of};

/// A place in a text, both numbers from 0: the line, and the units of UTF-16 before the place in its line. A character past
/// 16 bits has two units. A line ends with a line feed, a carriage return, or both.
#[derive(Clone, Copy, Debug, PartialEq, Eq)]
pub struct Position {
    pub line: usize,
    pub character: usize,
}

/// The position of the byte at `at`, which may be the end of the text: `Position` of the language server protocol 3.17 with
/// the encoding `utf-16`.
pub fn position_of(text: &[u8], at: usize) -> Position
    requires { at ≤ length text.now }
    ensures line { result.line ≡ line_of text.now at }
    ensures character { result.character ≡ character_of text.now at }
{
    Position {
        line: lines(text, at),
        character: units(&text[start_of(text, at)..at]),
    }
}

/// Whether a line ends after a byte.
#[tactic(auto, using(crate::proofs::Ends::ends_at))]
pub(crate) fn ends_line(text: &[u8], at: usize) -> bool
    requires { at < length text.now }
    ensures { result ≡ get_or (line_ends text.now) at false }
{
    let byte = text[at];
    byte == b'\n' || (byte == b'\r' && !is_feed(text, at + 1))
}

// Whether a line feed stands at a place.
fn is_feed(text: &[u8], at: usize) -> bool
    ensures { result ≡ (get_or text.now at 0 == 10) }
{
    at < text.len() && text[at] == b'\n'
}

// How many lines end before a place.
fn lines(text: &[u8], at: usize) -> usize
    requires { at ≤ length text.now }
    ensures { result ≡ line_of text.now at }
{
    let mut count = 0;
    for k in 0..at {
        if ends_line(text, k) {
            count += 1;
        }
    }
    count
}

// Where the line of a place begins.
fn start_of(text: &[u8], at: usize) -> usize
    requires { at ≤ length text.now }
    ensures start { result ≡ line_start text.now at }
    ensures bound { result ≤ at }
{
    let mut start = at;
    while start > 0 && !ends_line(text, start - 1) {
        start -= 1;
    }
    start
}

// The units of UTF-16 of some bytes.
fn units(bytes: &[u8]) -> usize
    requires { length bytes.now < 2 ^ 63 }
    ensures { result ≡ units bytes.now }
{
    let mut count = 0;
    for byte in bytes {
        count += units_of(*byte) as usize;
    }
    count
}

/// The units of UTF-16 of a character, at its first byte; 0 at its other bytes.
pub(crate) fn units_of(byte: u8) -> u8
    ensures { result ≡ units_of byte }
{
    match byte {
        0..=0x7f => 1,
        0x80..=0xbf => 0,
        0xc0..=0xef => 1,
        0xf0..=0xff => 2,
    }
}
