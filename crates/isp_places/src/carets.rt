//! What is shown below a line.
ghost use Rattle.std.specs.Prelude.{◌≡◌, ◌≤◌, length, IfOk};
ghost use Rattle.isp_places.specs.Lines.{blanks_of, marks_of, span_end, under};

use crate::place::{begins_char, chars, end_of, start_of};
use std::alloc::{AllocError, Global};

/// What stands below the line of the byte at `start`: a blank below each character before it, a tab below a tab, and `^`
/// below each character of the span from `start` to `end` that stands in the line; one `^` where there is none.
pub fn marks(alloc: Global, text: &[u8], start: usize, end: usize) -> Result<Vec<u8>, AllocError>
    requires { start ≤ length text.now }
    ensures { IfOk result (λ v. v.items ≡ marks_of text.now start end) }
{
    let before = &text[start_of(text, start)..start];
    let marked = chars(&text[start..last_of(text, start, end)]);
    let mut marks = blanks(alloc, before)?;
    let carets = vec![in alloc; b'^'; marked.max(1)]?;
    marks.extend_from_slice(carets.as_slice())?;
    Ok(marks)
}

// Where a span ends, as far as it stands in the line in which it begins.
fn last_of(text: &[u8], start: usize, end: usize) -> usize
    requires { start ≤ length text.now }
    ensures end { result ≡ span_end text.now start end }
    ensures low { start ≤ result }
    ensures high { result ≤ length text.now }
{
    end.min(end_of(text, start)).max(start)
}

// A blank for each character, and a tab for a tab.
fn blanks(alloc: Global, bytes: &[u8]) -> Result<Vec<u8>, AllocError>
    ensures { IfOk result (λ v. v.items ≡ blanks_of bytes.now) }
{
    bytes
        .iter()
        .filter(|byte| begins_char(**byte))
        .map(|byte| under(*byte))
        .collect(alloc)
}

fn under(byte: u8) -> u8
    ensures { result ≡ under byte }
{
    if byte == b'\t' { b'\t' } else { b' ' }
}
