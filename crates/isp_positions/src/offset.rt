//! From a line and a character to the byte.
ghost use Rattle.std.specs.Prelude.{◌≡◌, ◌≤◌, length};
ghost use Rattle.isp_positions.specs.Positions.{goes_on, line_ends, offset_of, start_of_line, within};

use crate::position::{Position, ends_line, units_of};

/// The byte at a position. Past the end of its line it is the end of that line, before the line feed; past the last line it
/// is the end of the text. In the middle of a character it is that character's first byte.
pub fn offset_of(text: &[u8], position: Position) -> usize
    ensures is { result ≡ offset_of text.now position.line position.character }
    ensures bound { result ≤ length text.now }
{
    let start = start_of_line(text, position.line);
    start + within(&text[start..], position.character)
}

// Where a line begins, or the end of the text where it has fewer lines.
fn start_of_line(text: &[u8], line: usize) -> usize
    ensures is { result ≡ start_of_line line (line_ends text.now) }
    ensures bound { result ≤ length text.now }
{
    let mut at = 0;
    let mut left = line;
    while left > 0 && at < text.len() {
        if ends_line(text, at) {
            left -= 1;
        }
        at += 1;
    }
    at
}

// How many bytes stand before a character of a line, or before the line's end.
fn within(rest: &[u8], character: usize) -> usize
    ensures is { result ≡ within character rest.now }
    ensures bound { result ≤ length rest.now }
{
    let mut at = 0;
    let mut left = character;
    while at < rest.len() && goes_on(rest[at], left) {
        left -= units_of(rest[at]) as usize;
        at += 1;
    }
    at
}

// Whether a byte is of the line's text, and has no more units than are left.
fn goes_on(byte: u8, left: usize) -> bool
    ensures { result ≡ goes_on left byte }
{
    byte != b'\n' && byte != b'\r' && units_of(byte) as usize <= left
}
