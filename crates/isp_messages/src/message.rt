//! A message, as text and as JSON.
ghost use Rattle.std.specs.Prelude.{◌≡◌, ◌++◌, [], None, string_bytes, IfOk, OnOk};
ghost use Rattle.std.specs.Fmt.{decimal};
ghost use Rattle.isp_messages.specs.Messages.{IsLine, IsText, head_of, json_line, member, source_text, span_text, text_member};

use crate::page::{Source, push_marked, push_site, within};
use isp_base::Span;
use isp_places::place_of;
use itoa::Buffer;
use serde_json::Value as Json;
use std::alloc::{AllocError, Global};

/// What is said of a failure, of an exported function or of what is slow.
#[derive(Drop)]
pub struct Message<'n, 't> {
    /// The text that it is in, if it is in one.
    pub source: Option<Source<'n, 't>>,
    /// Where in the text.
    pub span: Option<Span>,
    /// The fault, as `30 VaryingToUniform`, or the note.
    pub what: String,
    /// What that means.
    pub sentence: String,
    /// What to write instead.
    pub fix: String,
}

impl<'n, 't> Message<'n, 't> {
    /// A message of a fault alone: in no text, and without a meaning or a fix.
    pub fn new(alloc: Global, what: String) -> Message<'n, 't>
        ensures source { result.source ≡ None }
        ensures span { result.span ≡ None }
        ensures what { result.what ≡ what }
        ensures sentence { string_bytes result.sentence ≡ [] }
        ensures fix { string_bytes result.fix ≡ [] }
    {
        Message {
            source: None,
            span: None,
            what,
            sentence: String::new(alloc),
            fix: String::new(alloc),
        }
    }

    /// The message for people: `FILE:LINE:COLUMN: FAULT` with the line and carets, `FILE: FAULT`, or `isp: FAULT`; after it what it means
    /// and the fix, each where there is one.
    pub fn text(&self, alloc: Global) -> Result<String, AllocError>
        ensures { IfOk result (λ s. IsText self.now (string_bytes s)) }
    {
        let rest = self.explained(alloc)?;
        let mut page = self.head(alloc)?;
        page.push_str("\n")?;
        page.push_str(rest.as_str())?;
        Ok(page)
    }

    /// The message for people in one line: `FILE:LINE:COLUMN: FAULT`, `FILE: FAULT`, or `isp: FAULT`; after it a colon and what it means,
    /// where that is said.
    pub fn line(&self, alloc: Global) -> Result<String, AllocError>
        ensures { IfOk result (λ s. IsLine self.now (string_bytes s)) }
    {
        let rest = self.meant(alloc)?;
        let mut page = self.head(alloc)?;
        page.push_str(rest.as_str())?;
        page.push_str("\n")?;
        Ok(page)
    }

    /// The message for tools, a line: an object with the status, the file and its span by bytes, line and column, as far as there is one, and
    /// the texts.
    pub fn json(&self, alloc: Global, status: u8) -> Result<String, AllocError>
        ensures { IfOk result (λ s. string_bytes s ≡ json_line status self.now) }
    {
        let mut page = String::new(alloc);
        let mut number = Buffer::new();
        page.push_str("{\"status\":")?;
        page.push_str(number.format(status))?;
        push_source(&mut page, alloc, self.source, self.span)?;
        push_member(&mut page, alloc, "fault", self.what.as_str())?;
        push_member(&mut page, alloc, "sentence", self.sentence.as_str())?;
        push_member(&mut page, alloc, "fix", self.fix.as_str())?;
        page.push_str("}\n")?;
        Ok(page)
    }

    // Where it is, and what.
    fn head(&self, alloc: Global) -> Result<String, AllocError>
        ensures { IfOk result (λ s. string_bytes s ≡ head_of self.now) }
    {
        let mut page = String::new(alloc);
        push_site(&mut page, self.source, self.span)?;
        page.push_str(": ")?;
        page.push_str(self.what.as_str())?;
        Ok(page)
    }

    // What follows the first line.
    fn explained(&self, alloc: Global) -> Result<String, AllocError> {
        let mut page = String::new(alloc);
        if let (Some(source), Some(span)) = (self.source, self.span) {
            push_marked(&mut page, source.text, span)?;
        }
        if !self.sentence.is_empty() {
            page.push_str(self.sentence.as_str())?;
            page.push_str("\n")?;
        }
        if !self.fix.is_empty() {
            page.push_str("Fix: ")?;
            page.push_str(self.fix.as_str())?;
            page.push_str("\n")?;
        }
        Ok(page)
    }

    // What it means, in one line after a colon.
    fn meant(&self, alloc: Global) -> Result<String, AllocError> {
        let mut page = String::new(alloc);
        if !self.sentence.is_empty() {
            page.push_str(":")?;
        }
        for line in self.sentence.as_str().lines() {
            page.push_str(" ")?;
            page.push_str(line)?;
        }
        Ok(page)
    }
}

// The file, and the span with its line and column.
fn push_source(
    page: &mut String,
    alloc: Global,
    source: Option<Source<'_, '_>>,
    span: Option<Span>,
) -> Result<(), AllocError>
    ensures { OnOk result (string_bytes page.new ≡ string_bytes page.old ++ source_text source.entry span) }
{
    let Some(source) = source else {
        return Ok(());
    };
    push_member(page, alloc, "file", source.name)?;
    match span {
        Some(span) => push_span(page, source.text, span),
        None => Ok(()),
    }
}

fn push_span(page: &mut String, text: &str, span: Span) -> Result<(), AllocError>
    ensures { OnOk result (string_bytes page.new ≡ string_bytes page.old ++ span_text text.now span) }
{
    let bytes = text.as_bytes();
    let place = place_of(bytes, within(bytes, span.start));
    push_number(page, "line", place.line)?;
    push_number(page, "column", place.column)?;
    push_number(page, "start", span.start)?;
    push_number(page, "end", span.end)
}

// `,"NAME":NUMBER`
fn push_number(page: &mut String, name: &str, number: usize) -> Result<(), AllocError>
    ensures { OnOk result (string_bytes page.new ≡ string_bytes page.old ++ member name.now (decimal number)) }
{
    let mut buffer = Buffer::new();
    push_pair(page, name, buffer.format(number))
}

// `,"NAME":TEXT`
fn push_member(page: &mut String, alloc: Global, name: &str, text: &str) -> Result<(), AllocError>
    ensures { OnOk result (string_bytes page.new ≡ string_bytes page.old ++ text_member name.now text.now) }
{
    let value = Json::try_from_str(alloc, text)?.to_string(alloc)?;
    push_pair(page, name, value.as_str())
}

fn push_pair(page: &mut String, name: &str, value: &str) -> Result<(), AllocError>
    ensures { OnOk result (string_bytes page.new ≡ string_bytes page.old ++ member name.now value.now) }
{
    page.push_str(",\"")?;
    page.push_str(name)?;
    page.push_str("\":")?;
    page.push_str(value)
}
