//! The word around a byte of a text.
ghost use Rattle.std.specs.Prelude.{◌≡◌, ◌≤◌, ◌<◌, ◌+◌, ◌-◌, ℕ, drop, false, get_or, length, take, true};
ghost use Rattle.std.specs.List.{prefix_len, suffix_len};
ghost use Rattle.isp_lex.specs.Bytes.{is_word_byte};
ghost use Rattle.isp_known.specs.Places.{IsWordAround, word_of};

use isp_base::Span;

fn is_word_byte(byte: u8) -> bool
    ensures { result ≡ is_word_byte byte }
{
    byte.is_ascii_alphanumeric() || byte == b'_'
}

// Where the word begins that goes on up to a place.
fn start_of(text: &[u8], at: usize) -> usize
    requires { at ≤ length text.now }
    ensures is { result ≡ at - suffix_len is_word_byte (take at text.now) }
    ensures bound { result ≤ at }
    ensures word { (k : ℕ) → result ≤ k → k < at → is_word_byte (get_or text.now k 0) ≡ true }
    ensures before { 0 < result → is_word_byte (get_or text.now (result - 1) 0) ≡ false }
{
    let mut start = at;
    while start > 0 && is_word_byte(text[start - 1]) {
        start -= 1;
    }
    start
}

// Where the word ends that goes on after a place.
fn end_of(text: &[u8], at: usize) -> usize
    requires { at ≤ length text.now }
    ensures is { result ≡ at + prefix_len is_word_byte (drop at text.now) }
    ensures low { at ≤ result }
    ensures high { result ≤ length text.now }
    ensures word { (k : ℕ) → at ≤ k → k < result → is_word_byte (get_or text.now k 0) ≡ true }
    ensures behind { result < length text.now → is_word_byte (get_or text.now result 0) ≡ false }
{
    let mut end = at;
    while end < text.len() && is_word_byte(text[end]) {
        end += 1;
    }
    end
}

/// The word around a byte: the letters, digits and `_` before it and after it, as far as they go. It is empty where there are none.
pub fn word_around(text: &[u8], at: usize) -> Span
    requires { at ≤ length text.now }
    ensures is { result ≡ word_of text.now at }
    ensures around { IsWordAround text.now at result }
{
    Span {
        start: start_of(text, at),
        end: end_of(text, at),
    }
}
