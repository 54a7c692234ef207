//! Classes of bytes, and runs of them.
ghost use Rattle.std.specs.Prelude.{◌≡◌, ◌≤◌, drop, length};
ghost use Rattle.isp_lex.specs.Bytes as class;
ghost use Rattle.isp_lex.specs.reader.Numerals.{is_digits_byte};
ghost use Rattle.isp_lex.specs.reader.Runs.{run};

pub(crate) fn is_blank(byte: u8) -> bool
    ensures { result ≡ class.is_blank byte }
{
    matches!(byte, b' ' | b'\t' | b'\r' | b'\n')
}

pub(crate) fn is_word_byte(byte: u8) -> bool
    ensures { result ≡ class.is_word_byte byte }
{
    byte.is_ascii_alphanumeric() || byte == b'_'
}

/// Whether a text has this byte at a place.
pub(crate) fn has(text: &[u8], at: usize, byte: u8) -> bool
    ensures { result ≡ class.next_is byte (drop at text.now) }
{
    at < text.len() && text[at] == byte
}

/// The bytes from a place on.
pub(crate) fn rest(text: &[u8], at: usize) -> &[u8]
    requires { at ≤ length text.now }
    ensures { result.now ≡ drop at text.now }
{
    &text[at..]
}

/// The length of the run of letters, digits and `_` that a text begins with.
pub(crate) fn run_len(text: &[u8]) -> usize
    ensures { result ≡ run class.is_word_byte text.now }
{
    let mut len = 0;
    while len < text.len() && is_word_byte(text[len]) {
        len += 1;
    }
    len
}

/// The length of the line that a text begins with, without its line feed.
pub(crate) fn line_len(text: &[u8]) -> usize
    ensures { result ≡ run class.is_line_byte text.now }
{
    let mut len = 0;
    while len < text.len() && text[len] != b'\n' {
        len += 1;
    }
    len
}

fn is_digits_byte(byte: u8) -> bool
    ensures { result ≡ is_digits_byte byte }
{
    !matches!(byte.to_ascii_lowercase(), b'u' | b'l')
}

/// The length of what stands before the suffix of a number.
pub(crate) fn digits_len(text: &[u8]) -> usize
    ensures { result ≡ run is_digits_byte text.now }
{
    let mut len = 0;
    while len < text.len() && is_digits_byte(text[len]) {
        len += 1;
    }
    len
}
