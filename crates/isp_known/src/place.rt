//! What is known of a byte of a program's text, by the program's notes.
ghost use Rattle.std.specs.Prelude.{◌≡◌, ◌≤◌, ◌++◌, [], ℕ, Contains, IfNone, IfOk, IfSome, OnOk, length};
ghost use Rattle.std.specs.List.{All, cons_option};
ghost use Rattle.isp_known.specs.Places.{IsAround, IsNarrowest, Names, declaration_of, declared_at, named, named_at, places_of, same, subject_at, width};
ghost use Rattle.isp_known.specs.reader.Finding.{covers, is_narrower, next_best};

use crate::note::{Note, Subject};
use isp_base::{Span, Ty};
use std::alloc::{AllocError, Global};

/// An expression: where it stands, and the type of its value.
#[derive(Clone, Copy, Debug, PartialEq, Eq)]
pub struct Valued {
    pub span: Span,
    pub ty: Ty,
}

fn named(note: Note, start: usize) -> Option<Subject>
    ensures { result ≡ named start note }
{
    match note {
        Note::Value { .. } | Note::Index { .. } | Note::Loaded { .. } => None,
        Note::Declared { start: k, subject } | Note::Used { start: k, subject } => {
            if k == start { Some(subject) } else { None }
        }
    }
}

/// What the name that begins at a byte stands for, by the notes of a program.
pub fn subject_at(notes: &[Note], start: usize) -> Option<Subject>
    ensures is { result ≡ subject_at start notes.now }
    ensures some { IfSome result (Names notes.now start) }
    ensures none { IfNone result ((x : Subject) → ¬ (Names notes.now start x)) }
{
    for note in notes {
        if let Some(subject) = named(*note, start) {
            return Some(subject);
        }
    }
    None
}

fn is_same(one: Subject, other: Subject) -> bool
    ensures { result ≡ same one other }
{
    match (one, other) {
        (
            Subject::Variable { function, number },
            Subject::Variable {
                function: g,
                number: k,
            },
        ) => function == g && number == k,
        (Subject::Function { number }, Subject::Function { number: k }) => number == k,
        _ => false,
    }
}

fn declared_at(note: Note, subject: Subject) -> Option<usize>
    ensures { result ≡ declared_at subject note }
{
    match note {
        Note::Declared {
            start,
            subject: found,
        } if is_same(found, subject) => Some(start),
        _ => None,
    }
}

/// Where the name begins that declares a variable or a function, by the notes of a program.
pub fn declaration(notes: &[Note], subject: Subject) -> Option<usize>
    ensures is { result ≡ declaration_of subject notes.now }
    ensures some { IfSome result (λ k. Contains notes.now (Note.Declared k subject)) }
    ensures none { IfNone result ((k : ℕ) → ¬ (Contains notes.now (Note.Declared k subject))) }
{
    for note in notes {
        if let Some(start) = declared_at(*note, subject) {
            return Some(start);
        }
    }
    None
}

fn named_at(note: Note, subject: Subject, declared: bool) -> Option<usize>
    ensures { result ≡ named_at declared subject note }
{
    match note {
        Note::Declared {
            start,
            subject: found,
        } if declared && is_same(found, subject) => Some(start),
        Note::Used {
            start,
            subject: found,
        } if is_same(found, subject) => Some(start),
        _ => None,
    }
}

// One more place, where a note names what is asked for.
fn push_named(
    places: &mut Vec<usize>,
    note: Note,
    subject: Subject,
    declared: bool,
) -> Result<(), AllocError>
    ensures { OnOk result (places.new.items ≡ places.old.items ++ cons_option (named_at declared subject note) []) }
{
    match named_at(note, subject, declared) {
        Some(start) => {
            places.push(start)?;
            Ok(())
        }
        None => Ok(()),
    }
}

/// Where a variable or a function is named, by the notes of a program: the first byte of each name, in their order. `declared`
/// says whether that of its declaration is among them.
pub fn mentions(
    alloc: Global,
    notes: &[Note],
    subject: Subject,
    declared: bool,
) -> Result<Vec<usize>, AllocError>
    ensures is { IfOk result (λ v. v.items ≡ places_of declared subject notes.now) }
    ensures each { IfOk result (λ v. All (λ k. Names notes.now k subject) v.items) }
{
    let mut places = Vec::new(alloc);
    for note in notes {
        push_named(&mut places, *note, subject, declared)?;
    }
    Ok(places)
}

fn covers(span: Span, at: usize) -> bool
    ensures { result ≡ covers at span }
{
    !(at < span.start) && at < span.end
}

fn width(span: Span) -> usize
    ensures { result ≡ width span }
{
    span.end.saturating_sub(span.start)
}

fn is_narrower(span: Span, best: Option<Valued>) -> bool
    ensures { result ≡ is_narrower span best }
{
    match best {
        None => true,
        Some(best) => width(span) < width(best.span),
    }
}

fn next_best(at: usize, note: Note, best: Option<Valued>) -> Option<Valued>
    ensures { result ≡ next_best at note best }
{
    match note {
        Note::Value { span, ty } => {
            if covers(span, at) && is_narrower(span, best) {
                Some(Valued { span, ty })
            } else {
                best
            }
        }
        Note::Declared { .. } | Note::Used { .. } | Note::Index { .. } | Note::Loaded { .. } =>
            best,
    }
}

/// The narrowest expression around a byte, by the notes of a program.
pub fn value_at(notes: &[Note], at: usize) -> Option<Valued>
    ensures some { IfSome result (IsNarrowest notes.now at) }
    ensures none { IfNone result ((v : Valued) → ¬ (IsAround notes.now at v)) }
{
    let mut best = None;
    for note in notes {
        best = next_best(at, *note, best);
    }
    best
}
