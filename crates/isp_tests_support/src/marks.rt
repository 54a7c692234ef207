//! Sources in which a place stands between `⟦` and `⟧`, and texts in which signs stand for line feeds and tabs.
use std::alloc::{AllocError, Global};

/// A source without the brackets, and where the place begins and ends in it.
#[derive(Drop)]
pub struct Marked {
    pub source: String,
    pub start: usize,
    pub end: usize,
}

impl Marked {
    /// A source without its brackets; where there are none the place is empty, at the end.
    pub fn new(alloc: Global, text: &str) -> Result<Marked, AllocError> {
        let (before, rest) = parted(text, '⟦');
        let (place, after) = parted(rest, '⟧');
        let mut source = String::from_str(alloc, before)?;
        let start = source.len();
        source.push_str(place)?;
        let end = source.len();
        source.push_str(after)?;
        Ok(Marked { source, start, end })
    }
}

/// What stands before and after a sign, nothing after it where it is not there.
pub fn parted(text: &str, sign: char) -> (&str, &str) {
    text.split_once(sign).unwrap_or((text, ""))
}

/// A text with line feeds for `␤` and tabs for `␉`.
pub fn spelt_out(alloc: Global, text: &str) -> Result<String, AllocError> {
    let mut out = String::new(alloc);
    for c in text.chars() {
        out.push(match c {
            '␤' => '\n',
            '␉' => '\t',
            _ => c,
        })?;
    }
    Ok(out)
}

/// The number that a text is in decimal digits.
pub fn number(text: &str) -> Option<u64> {
    text.parse::<u64>().ok()
}
