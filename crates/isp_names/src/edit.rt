//! A text in which words are replaced by a name.
ghost use Rattle.std.specs.Prelude.{◌≡◌, IfOk, IfSome, map, string_bytes};
ghost use Rattle.isp_names.specs.Renames.{replaced, word_at};

use isp_base::Span;
use isp_known::word_around;
use std::alloc::{AllocError, Global};

fn word_at(text: &str, start: usize) -> Span
    ensures { result ≡ word_at text.now start }
{
    word_around(text.as_bytes(), start.min(text.len()))
}

/// The words that begin at some bytes of a text.
pub(crate) fn words(alloc: Global, text: &str, starts: &[usize]) -> Result<Vec<Span>, AllocError>
    ensures { IfOk result (λ v. v.items ≡ map (word_at text.now) starts.now) }
{
    let mut found = Vec::new(alloc);
    for start in starts {
        found.push(word_at(text, *start))?;
    }
    Ok(found)
}

// The bytes of a text with a name in place of some spans; none where these are not in order.
fn replaced_bytes(
    alloc: Global,
    text: &[u8],
    name: &[u8],
    spans: &[Span],
) -> Result<Option<Vec<u8>>, AllocError>
    ensures { IfOk result (λ o. IfSome o (λ v. v.items ≡ replaced text.now name.now 0 spans.now)) }
{
    let mut bytes = Vec::new(alloc);
    let mut from = 0;
    for span in spans {
        if span.start < from || text.len() < span.start {
            return Ok(None);
        }
        bytes.extend_from_slice(&text[from..span.start])?;
        bytes.extend_from_slice(name)?;
        from = span.end;
    }
    if text.len() < from {
        return Ok(None);
    }
    bytes.extend_from_slice(&text[from..])?;
    Ok(Some(bytes))
}

/// A text with a name in place of some spans. There is none where these are not in order, or do not begin and end with a character.
pub(crate) fn replaced(
    alloc: Global,
    text: &str,
    name: &str,
    spans: &[Span],
) -> Result<Option<String>, AllocError>
    ensures { IfOk result (λ o. IfSome o (λ t. string_bytes t ≡ replaced text.now name.now 0 spans.now)) }
{
    match replaced_bytes(alloc, text.as_bytes(), name.as_bytes(), spans)? {
        Some(bytes) => Ok(String::from_utf8(bytes).ok()),
        None => Ok(None),
    }
}
