//! A place in a source, as it is shown: its line, and carets below it.
ghost use Rattle.std.specs.Prelude.{◌≡◌, ◌++◌, length, min, string_bytes, OnOk};
ghost use Rattle.isp_messages.specs.Messages.{place_text, site};

use isp_base::Span;
use isp_places::{line_at, marks, place_of};
use itoa::Buffer;
use std::alloc::AllocError;

/// A text, by the name of its file.
#[derive(Clone, Copy)]
pub struct Source<'n, 't> {
    pub name: &'n str,
    pub text: &'t str,
}

/// `FILE:LINE:COLUMN: WHAT`, the line, and carets below the span, each in a line. What lies past the end of the text is shown at its end.
pub fn push_place(
    page: &mut String,
    source: Source<'_, '_>,
    span: Span,
    what: &str,
) -> Result<(), AllocError> {
    push_site(page, Some(source), Some(span))?;
    page.push_str(": ")?;
    page.push_str(what)?;
    page.push_str("\n")?;
    push_marked(page, source.text, span)
}

/// Where something is: `FILE:LINE:COLUMN`, `FILE`, or `isp`.
pub(crate) fn push_site(
    page: &mut String,
    source: Option<Source<'_, '_>>,
    span: Option<Span>,
) -> Result<(), AllocError>
    ensures { OnOk result (string_bytes page.new ≡ string_bytes page.old ++ site source.entry span) }
{
    match (source, span) {
        (Some(source), Some(span)) => {
            page.push_str(source.name)?;
            page.push_str(":")?;
            push_place_text(page, source.text, span.start)
        }
        (Some(source), None) => page.push_str(source.name),
        (None, _) => page.push_str("isp"),
    }
}

/// Line and column of a byte, `7:13`; those of the end of the text where it lies past that.
pub(crate) fn push_place_text(page: &mut String, text: &str, at: usize) -> Result<(), AllocError>
    ensures { OnOk result (string_bytes page.new ≡ string_bytes page.old ++ place_text text.now at) }
{
    let bytes = text.as_bytes();
    let place = place_of(bytes, within(bytes, at));
    let (mut line, mut column) = (Buffer::new(), Buffer::new());
    page.push_str(line.format(place.line))?;
    page.push_str(":")?;
    page.push_str(column.format(place.column))
}

// The line of a span's first byte, and carets below it.
pub(crate) fn push_marked(page: &mut String, text: &str, span: Span) -> Result<(), AllocError> {
    let bytes = text.as_bytes();
    let start = within(bytes, span.start);
    page.push_str("    ")?;
    push_shown(page, line_at(bytes, start))?;
    let below = marks(*page.allocator(), bytes, start, span.end)?;
    page.push_str("\n    ")?;
    push_shown(page, below.as_slice())?;
    page.push_str("\n")
}

// A place of a text, or its end.
pub(crate) fn within(text: &[u8], at: usize) -> usize
    ensures { result ≡ min at (length text.now) }
{
    at.min(text.len())
}

// A line, with a sign for each character that a screen would not show.
fn push_shown(page: &mut String, line: &[u8]) -> Result<(), AllocError> {
    for sign in str::from_utf8(line).unwrap_or("").chars() {
        page.push(shown(sign))?;
    }
    Ok(())
}

fn shown(sign: char) -> char {
    if sign.is_control() && sign != '\t' {
        '\u{fffd}'
    } else {
        sign
    }
}
