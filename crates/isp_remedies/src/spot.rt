//! What stands at the place of a fault, and before it.
use isp_base::Span;
use isp_lex::{Mark, SourceFault, Token, TokenKind, Tokens, lex};
use std::alloc::{AllocError, Global};

/// The place of a fault in a source: the tokens before it, and those that it has.
#[derive(Drop)]
pub struct Spot<'a> {
    ahead: &'a str,
    before: Tokens,
    place: &'a str,
    /// Nothing where no token begins with what stands there.
    found: Option<Tokens>,
}

/// A token with its spelling.
#[derive(Clone, Copy)]
struct Seen<'a> {
    kind: Class,
    spelling: &'a str,
}

/// What the samples tell apart.
#[derive(Clone, Copy, PartialEq, Eq)]
enum Class {
    Name,
    Type,
    Number,
    Text,
    Other,
}

// The tokens of a text, where it is made of tokens.
fn tokens(alloc: Global, text: &str) -> Result<Option<Tokens>, AllocError> {
    match lex(alloc, text) {
        Ok(tokens) => Ok(Some(tokens)),
        Err(SourceFault::Memory) => Err(AllocError),
        Err(SourceFault::Refused(_fault)) => Ok(None),
    }
}

impl<'a> Spot<'a> {
    /// What stands at a span of a source. Nothing where the span is not of the source, or where what stands before it is no
    /// tokens. 0 where memory is refused.
    pub fn new(alloc: Global, source: &'a str, span: Span) -> Result<Option<Spot<'a>>, AllocError> {
        let (Some(ahead), Some(place)) = (
            source.get(..span.start),
            source.get(span.start..span.end),
        ) else {
            return Ok(None);
        };
        let Some(before) = tokens(alloc, ahead)? else {
            return Ok(None);
        };
        Ok(Some(Spot {
            ahead,
            before,
            place,
            found: tokens(alloc, place)?,
        }))
    }

    /// Whether the place is as a row says: one of some tokens, and after each `? ` what has to hold around it.
    pub(crate) fn fits(&self, when: &str) -> bool {
        let (at, around) = when.split_once("\n? ").unwrap_or((when, ""));
        self.begins_with(at) && self.meets_all(around)
    }

    // Whether the first token there is one of these.
    fn begins_with(&self, samples: &str) -> bool {
        let first = self.first();
        samples.split(" ").any(|sample| first.is_a(sample))
    }

    fn meets_all(&self, conditions: &str) -> bool {
        conditions.is_empty()
            || conditions
                .split("\n? ")
                .all(|condition| self.meets(condition))
    }

    // Whether this holds around the place.
    fn meets(&self, condition: &str) -> bool {
        let (word, sample) = condition.split_once(" ").unwrap_or((condition, ""));
        match word {
            "after" => self.back(1).is_a(sample),
            "unknown" => self.begins_statement(),
            "before" => self.second().spelling == sample,
            "in" => self.call().spelling == sample,
            "outside" => self.depth() == 0,
            "declared" => self.start().kind == Class::Type,
            _ => false,
        }
    }

    fn first(&self) -> Seen<'a> {
        match &self.found {
            Some(tokens) => Seen::of(self.place, tokens.as_slice().first()),
            None => Seen {
                kind: Class::Other,
                spelling: self.place,
            },
        }
    }

    fn second(&self) -> Seen<'a> {
        match &self.found {
            Some(tokens) => Seen::of(self.place, tokens.as_slice().get(1)),
            None => NOTHING,
        }
    }

    // The token so many before the place, from 1.
    fn back(&self, count: usize) -> Seen<'a> {
        let tokens = self.before.as_slice();
        match tokens.len().checked_sub(count) {
            Some(place) => Seen::of(self.ahead, tokens.get(place)),
            None => NOTHING,
        }
    }

    // Whether a name stands before the place, and a statement or a function begins with it.
    fn begins_statement(&self) -> bool {
        self.back(1).kind == Class::Name
            && matches!(self.back(2).spelling, "" | ";" | "{" | "}" | ")")
    }

    // The first token after the last `;`, `{` or `}`.
    fn start(&self) -> Seen<'a> {
        let tokens = self.before.as_slice();
        match tokens.iter().rposition(|token| ends_statement(token)) {
            Some(place) if place < tokens.len() => Seen::of(self.ahead, tokens.get(place + 1)),
            _ => NOTHING,
        }
    }

    // How many `{` before the place are open.
    fn depth(&self) -> usize {
        let mut depth = 0usize;
        for token in self.before.as_slice() {
            if token.kind.is(Mark::BraceOpen) {
                depth = depth.saturating_add(1);
            }
            if token.kind.is(Mark::BraceClose) {
                depth = depth.saturating_sub(1);
            }
        }
        depth
    }

    // The token before that of this number.
    fn ahead_of(&self, place: usize) -> Seen<'a> {
        match place.checked_sub(1) {
            Some(before) => Seen::of(self.ahead, self.before.as_slice().get(before)),
            None => NOTHING,
        }
    }

    // What stands before the innermost open `(`.
    fn call(&self) -> Seen<'a> {
        let tokens = self.before.as_slice();
        let mut closed = 0usize;
        for (place, token) in tokens.iter().enumerate().rev() {
            if token.kind.is(Mark::ParenClose) {
                closed = closed.saturating_add(1);
            }
            if token.kind.is(Mark::ParenOpen) {
                if closed == 0 {
                    return self.ahead_of(place);
                }
                closed -= 1;
            }
        }
        NOTHING
    }
}

const NOTHING: Seen<'static> = Seen {
    kind: Class::Other,
    spelling: "",
};

fn ends_statement(token: &Token) -> bool {
    token.kind.is(Mark::Semicolon)
        || token.kind.is(Mark::BraceOpen)
        || token.kind.is(Mark::BraceClose)
}

impl<'a> Seen<'a> {
    // A token of a text, if there is one.
    fn of(text: &'a str, token: Option<&Token>) -> Seen<'a> {
        match token {
            Some(token) => Seen {
                kind: Class::of(&token.kind),
                spelling: text.get(token.span.start..token.span.end).unwrap_or(""),
            },
            None => NOTHING,
        }
    }

    // Whether it is spelt so; NAME, TYPE, NUMBER and STRING stand for any such token, and `x*` for words that begin so.
    fn is_a(self, sample: &str) -> bool {
        match sample {
            "NAME" => self.kind == Class::Name,
            "TYPE" => self.kind == Class::Type,
            "NUMBER" => self.kind == Class::Number,
            "STRING" => self.kind == Class::Text,
            _ => self.is_spelt(sample),
        }
    }

    fn is_spelt(self, sample: &str) -> bool {
        match sample.strip_suffix("*") {
            Some(start) if !start.is_empty() => self.spelling.starts_with(start),
            _ => self.spelling == sample,
        }
    }
}

impl Class {
    fn of(kind: &TokenKind) -> Class {
        match kind {
            TokenKind::Word(_) => Class::Name,
            TokenKind::Number(_) => Class::Number,
            TokenKind::Text(_) => Class::Text,
            TokenKind::Mark(mark) if is_type(*mark) => Class::Type,
            TokenKind::Mark(_) | TokenKind::LeftOut => Class::Other,
        }
    }
}

// Whether a mark is a word of a type.
fn is_type(mark: Mark) -> bool {
    matches!(
        mark,
        Mark::Void
            | Mark::Bool
            | Mark::Int
            | Mark::Int8
            | Mark::Int16
            | Mark::Int32
            | Mark::Int64
            | Mark::Uint
            | Mark::Uint8
            | Mark::Uint16
            | Mark::Uint32
            | Mark::Uint64
            | Mark::Signed
            | Mark::Unsigned
            | Mark::Const
            | Mark::Uniform
            | Mark::Varying
    )
}
