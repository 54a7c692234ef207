//! What is answered to a request on a place of a document.
ghost use Rattle.std.specs.Prelude.{◌≡◌, ◌≤◌, [], IfOk, length, map, option_and_then, option_map, string_bytes};
ghost use Rattle.serde_json.specs.Data.{null};
ghost use Rattle.serde_json.specs.View.{items_view, view};
ghost use Rattle.isp_typed.specs.Views.{program_of};
ghost use Rattle.isp_positions.specs.Positions.{offset_of};
ghost use Rattle.isp_known.specs.Places.{declaration_of, places_of, subject_at, word_of};
ghost use Rattle.isp_known.specs.Shown.{Shows};
ghost use Rattle.isp_known.specs.reader.Views.{shown_view};
ghost use Rattle.isp_server.specs.Told.{Tells, TextTells, Told, definition, hover, items_of, location, references, subject_of};
ghost use Rattle.isp_server.specs.reader.Views.{place_view};

use crate::deed::Place;
use crate::diagnostics::range;
use crate::question::Question;
use isp_base::{Gang, Span};
use isp_known::{Note, Shown, Subject, declaration, mentions, shown_at, subject_at, word_around};
use isp_lex::SourceFault;
use isp_names::{Known, known_text};
use isp_positions::{Position, offset_of};
use isp_typed::Program;
use serde_json::{Value, json};
use std::alloc::{AllocError, Global};

/// The answer to a question on a place, where its document has this text, if it is open.
pub(crate) fn told(
    alloc: Global,
    gang: Gang,
    text: Option<&str>,
    question: Question,
    at: Place<'_>,
) -> Result<Value, AllocError>
    ensures { IfOk result (λ v. Told gang (option_map (λ t. t.now) text.entry) (place_view at.entry) question (view v)) }
{
    match text {
        Some(text) => of_text(alloc, gang, text, question, at),
        None => Ok(Value::Null),
    }
}

// The answer where nothing is known.
fn nothing() -> Value
    ensures { view result ≡ null }
{
    Value::Null
}

fn of_text(
    alloc: Global,
    gang: Gang,
    text: &str,
    question: Question,
    at: Place<'_>,
) -> Result<Value, AllocError>
    ensures { IfOk result (λ v. TextTells gang text.now (place_view at.entry) question (view v)) }
{
    match known_text(alloc, gang, text) {
        Ok(known) => of_program(alloc, &known, text, question, at),
        Err(SourceFault::Memory) => Err(AllocError),
        Err(SourceFault::Refused(_fault)) => Ok(nothing()),
    }
}

/// The byte at a place of a text.
pub(crate) fn byte_of(text: &str, at: Place<'_>) -> usize
    ensures is { result ≡ offset_of text.now at.entry.line at.entry.character }
    ensures bound { result ≤ length text.now }
{
    let position = Position {
        line: at.line,
        character: at.character,
    };
    offset_of(text.as_bytes(), position)
}

fn of_program(
    alloc: Global,
    known: &Known,
    text: &str,
    question: Question,
    at: Place<'_>,
) -> Result<Value, AllocError>
    ensures { IfOk result (λ v. Tells (program_of known.now.program) known.now.notes.items at.entry.uri.now text.now (offset_of text.now at.entry.line at.entry.character) question (view v)) }
{
    let byte = byte_of(text, at);
    let notes = known.notes.as_slice();
    match question {
        Question::Hover => hovered(alloc, known.program.program(), notes, text, byte),
        Question::Definition => defined(alloc, notes, text, at.uri, byte),
        Question::References { declared } => referred(alloc, notes, text, at.uri, byte, declared),
    }
}

fn hovered(
    alloc: Global,
    program: &Program,
    notes: &[Note],
    text: &str,
    byte: usize,
) -> Result<Value, AllocError>
    requires { byte ≤ length text.now }
    ensures { IfOk result (λ v. Tells (program_of program.now) notes.now [] text.now byte Question.Hover (view v)) }
{
    let shown = shown_at(alloc, program, notes, text.as_bytes(), byte)?;
    hover(alloc, text, &shown)
}

fn hover(alloc: Global, text: &str, shown: &Option<Shown>) -> Result<Value, AllocError>
    ensures { IfOk result (λ v. view v ≡ hover text.now (option_map shown_view shown.now)) }
{
    match shown {
        Some(shown) => contents(alloc, text, shown.span, shown.text.as_str()),
        None => Ok(Value::Null),
    }
}

fn contents(alloc: Global, text: &str, span: Span, shown: &str) -> Result<Value, AllocError>
    ensures { IfOk result (λ v. view v ≡ hover text.now (Some (span, shown.now))) }
{
    let range = range(alloc, text, span)?;
    let contents = json!(in alloc; {"kind": "plaintext", "value": shown})?;
    json!(in alloc; {"contents": contents, "range": range})
}

// What the name around a byte stands for.
fn subject_of(notes: &[Note], text: &str, byte: usize) -> Option<Subject>
    requires { byte ≤ length text.now }
    ensures { result ≡ subject_at (word_of text.now byte).start notes.now }
{
    let word = word_around(text.as_bytes(), byte);
    subject_at(notes, word.start)
}

// The name that begins at a byte, as a location.
fn location(alloc: Global, uri: &str, text: &str, start: usize) -> Result<Value, AllocError>
    ensures { IfOk result (λ v. view v ≡ location uri.now text.now start) }
{
    let name = word_around(text.as_bytes(), start.min(text.len()));
    let range = range(alloc, text, name)?;
    json!(in alloc; {"uri": uri, "range": range})
}

fn defined(
    alloc: Global,
    notes: &[Note],
    text: &str,
    uri: &str,
    byte: usize,
) -> Result<Value, AllocError>
    requires { byte ≤ length text.now }
    ensures { IfOk result (λ v. view v ≡ definition uri.now text.now (option_and_then (λ x. declaration_of x notes.now) (subject_at (word_of text.now byte).start notes.now))) }
{
    match subject_of(notes, text, byte) {
        Some(subject) => declared(alloc, uri, text, declaration(notes, subject)),
        None => Ok(Value::Null),
    }
}

fn declared(alloc: Global, uri: &str, text: &str, start: Option<usize>) -> Result<Value, AllocError>
    ensures { IfOk result (λ v. view v ≡ definition uri.now text.now start) }
{
    match start {
        Some(start) => location(alloc, uri, text, start),
        None => Ok(Value::Null),
    }
}

#[tactic(auto, using(crate::proofs::Items::items_are))]
fn referred(
    alloc: Global,
    notes: &[Note],
    text: &str,
    uri: &str,
    byte: usize,
    declared: bool,
) -> Result<Value, AllocError>
    requires { byte ≤ length text.now }
    ensures { IfOk result (λ v. view v ≡ references uri.now text.now (option_map (λ x. places_of declared x notes.now) (subject_at (word_of text.now byte).start notes.now))) }
{
    match subject_of(notes, text, byte) {
        Some(subject) => {
            let places = mentions(alloc, notes, subject, declared)?;
            let found = locations(alloc, uri, text, &places)?;
            Ok(Value::Array(found))
        }
        None => Ok(Value::Null),
    }
}

// The names that begin at some bytes, as locations.
fn locations(
    alloc: Global,
    uri: &str,
    text: &str,
    starts: &[usize],
) -> Result<Vec<Value>, AllocError>
    ensures { IfOk result (λ found. map view found.items ≡ map (location uri.now text.now) starts.now) }
{
    let mut found = Vec::new(alloc);
    for start in starts {
        found.push(location(alloc, uri, text, *start)?)?;
    }
    Ok(found)
}
