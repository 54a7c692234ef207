//! Line and column of a place, and the line.
ghost use Rattle.std.specs.Prelude.{◌≡◌, ◌≤◌, length, slice_range};
ghost use Rattle.std.specs.List.{count_by, position_or_len};
ghost use Rattle.isp_places.specs.Lines.{begins_char, column_of, ends_line, is_feed, line_end, line_of, line_start};

/// Where a byte of a text stands, as an editor counts it: both numbers from 1, the column in characters.
#[derive(Clone, Copy, Debug, PartialEq, Eq)]
pub struct Place {
    pub line: usize,
    pub column: usize,
}

/// The line and the column of the byte at `at`, which may be the end of the text. A tab is one column.
pub fn place_of(text: &[u8], at: usize) -> Place
    requires { at ≤ length text.now }
    ensures line { result.line ≡ line_of text.now at }
    ensures column { result.column ≡ column_of text.now at }
{
    Place {
        line: 1 + feeds(&text[..at]),
        column: 1 + chars(&text[start_of(text, at)..at]),
    }
}

/// The line of the byte at `at`, up to a carriage return or a line feed.
pub fn line_at(text: &[u8], at: usize) -> &[u8]
    requires { at ≤ length text.now }
    ensures { result.now ≡ slice_range text.now (line_start text.now at) (line_end text.now at) }
{
    &text[start_of(text, at)..end_of(text, at)]
}

fn feeds(bytes: &[u8]) -> usize
    ensures { result ≡ count_by is_feed bytes.now }
{
    bytes.iter().filter(|byte| **byte == b'\n').count()
}

/// How many characters begin among some bytes.
pub(crate) fn chars(bytes: &[u8]) -> usize
    ensures { result ≡ count_by begins_char bytes.now }
{
    bytes.iter().filter(|byte| begins_char(**byte)).count()
}

/// Whether a byte is the first of a character.
pub(crate) fn begins_char(byte: u8) -> bool
    ensures { result ≡ begins_char byte }
{
    byte < 0x80 || byte >= 0xc0
}

/// Where the line of the byte at `at` begins.
pub(crate) fn start_of(text: &[u8], at: usize) -> usize
    requires { at ≤ length text.now }
    ensures start { result ≡ line_start text.now at }
    ensures bound { result ≤ at }
{
    let mut start = at;
    while start > 0 && text[start - 1] != b'\n' {
        start -= 1;
    }
    start
}

/// Where the line of the byte at `at` ends.
pub(crate) fn end_of(text: &[u8], at: usize) -> usize
    requires { at ≤ length text.now }
    ensures end { result ≡ line_end text.now at }
    ensures low { at ≤ result }
    ensures high { result ≤ length text.now }
{
    at + inside(&text[at..])
}

// How many bytes stand before a carriage return or a line feed.
fn inside(bytes: &[u8]) -> usize
    ensures count { result ≡ position_or_len ends_line bytes.now }
    ensures bound { result ≤ length bytes.now }
{
    let mut count = 0;
    while count < bytes.len() && !ends_line(bytes[count]) {
        count += 1;
    }
    count
}

fn ends_line(byte: u8) -> bool
    ensures { result ≡ ends_line byte }
{
    byte == b'\r' || byte == b'\n'
}
