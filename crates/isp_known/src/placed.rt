//! Places of the names that have none in a typed tree.
ghost use Rattle.std.specs.Prelude.{◌≡◌, IfOk, None, map, option_map, slice_get};
ghost use Rattle.isp_known.specs.Placed.{index_at, loaded_at, placed};

use crate::note::Note;
use isp_lex::Token;
use std::alloc::{AllocError, Global};

fn start_at(tokens: &[Token], at: usize) -> Option<usize>
    ensures { result ≡ option_map (λ t. t.span.start) (slice_get tokens.now at) }
{
    match tokens.get(at) {
        Some(token) => Some(token.span.start),
        None => None,
    }
}

// Where the index is named of the loop whose keyword begins at a byte.
fn index_at(tokens: &[Token], keyword: usize) -> Option<usize>
    ensures { result ≡ index_at keyword tokens.now }
{
    for (i, token) in tokens.iter().enumerate() {
        if token.span.start == keyword {
            return start_at(&tokens[i..], 2);
        }
    }
    None
}

// Where the variable is named that a packed call loads which ends at a byte.
fn loaded_at(tokens: &[Token], end: usize) -> Option<usize>
    ensures { result ≡ loaded_at end None tokens.now }
{
    let mut before = None;
    for token in tokens {
        if token.span.end == end {
            return before;
        }
        before = Some(token.span.start);
    }
    None
}

fn placed_note(note: Note, tokens: &[Token]) -> Note
    ensures { result ≡ placed tokens.now note }
{
    match note {
        Note::Index { keyword, subject } => match index_at(tokens, keyword) {
            Some(start) => Note::Declared { start, subject },
            None => note,
        },
        Note::Loaded { end, subject } => match loaded_at(tokens, end) {
            Some(start) => Note::Used { start, subject },
            None => note,
        },
        Note::Value { .. } | Note::Declared { .. } | Note::Used { .. } => note,
    }
}

/// The notes of a program, where each name has its place. The index of a `foreach_active` or `foreach_unique`, and what a packed
/// call loads, get theirs by the tokens of the program's text.
pub fn with_places(alloc: Global, notes: &[Note], tokens: &[Token]) -> Result<Vec<Note>, AllocError>
    ensures { IfOk result (λ v. v.items ≡ map (placed tokens.now) notes.now) }
{
    let mut found = Vec::new(alloc);
    for note in notes {
        found.push(placed_note(*note, tokens))?;
    }
    Ok(found)
}
