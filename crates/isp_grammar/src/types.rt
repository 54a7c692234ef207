//! Types.
ghost use Rattle.std.specs.Prelude.{◌≡◌, ◌<◌, IfOk, IfErr, length};
ghost use Rattle.isp_grammar.specs.Signs.{first_span};
ghost use Rattle.isp_tree.specs.Tree.{is_sign};
ghost use Rattle.isp_tree.specs.Views.{type_of};
ghost use Rattle.isp_grammar.specs.reader.Readers.{Gives};
ghost use Rattle.isp_grammar.specs.reader.Choices.{begins_with};
ghost use Rattle.isp_grammar.specs.reader.Types.{type_word_of, type_word_at, begins_type, type_at};

use crate::reading::{refuse, tail};
use crate::stop::{Stop, Why};
use isp_base::Span;
use isp_lex::{Mark, Token, TokenKind};
use isp_tree::{Base, Qualifier, TypeWords};
use std::alloc::Global;

/// What a token is in a type.
#[derive(Clone, Copy)]
pub enum TypeWord {
    Qualifier(Qualifier),
    Base(Base),
    Other,
}

/// What a token of this kind is in a type.
pub fn type_word(kind: &TokenKind) -> TypeWord
    ensures { result ≡ type_word_of kind.now }
{
    match kind {
        TokenKind::Mark(Mark::Const) => TypeWord::Qualifier(Qualifier::Const),
        TokenKind::Mark(Mark::Uniform) => TypeWord::Qualifier(Qualifier::Uniform),
        TokenKind::Mark(Mark::Varying) => TypeWord::Qualifier(Qualifier::Varying),
        TokenKind::Mark(Mark::Signed) => TypeWord::Qualifier(Qualifier::Signed),
        TokenKind::Mark(Mark::Unsigned) => TypeWord::Qualifier(Qualifier::Unsigned),
        TokenKind::Mark(Mark::Void) => TypeWord::Base(Base::Void),
        TokenKind::Mark(Mark::Bool) => TypeWord::Base(Base::Bool),
        TokenKind::Mark(Mark::Int) => TypeWord::Base(Base::Int),
        TokenKind::Mark(Mark::Int8) => TypeWord::Base(Base::Int8),
        TokenKind::Mark(Mark::Int16) => TypeWord::Base(Base::Int16),
        TokenKind::Mark(Mark::Int32) => TypeWord::Base(Base::Int32),
        TokenKind::Mark(Mark::Int64) => TypeWord::Base(Base::Int64),
        TokenKind::Mark(Mark::Uint) => TypeWord::Base(Base::Uint),
        TokenKind::Mark(Mark::Uint8) => TypeWord::Base(Base::Uint8),
        TokenKind::Mark(Mark::Uint16) => TypeWord::Base(Base::Uint16),
        TokenKind::Mark(Mark::Uint32) => TypeWord::Base(Base::Uint32),
        TokenKind::Mark(Mark::Uint64) => TypeWord::Base(Base::Uint64),
        _ => TypeWord::Other,
    }
}

/// Whether this is `signed` or `unsigned`.
fn is_sign(qualifier: Qualifier) -> bool
    ensures { result ≡ is_sign qualifier }
{
    match qualifier {
        Qualifier::Const | Qualifier::Uniform | Qualifier::Varying => false,
        Qualifier::Signed | Qualifier::Unsigned => true,
    }
}

/// Where the first of these tokens stands.
pub fn first_span(tokens: &[Token]) -> Span
    ensures { result ≡ first_span tokens.now }
{
    match tokens {
        [] => Span { start: 0, end: 0 },
        [first, ..] => first.span,
    }
}

/// What the first token is in a type.
pub fn type_word_at(tokens: &[Token]) -> TypeWord
    ensures { result ≡ type_word_at tokens.now }
{
    match tokens {
        [] => TypeWord::Other,
        [first, ..] => type_word(&first.kind),
    }
}

/// Whether a type begins with the first token.
pub fn begins_type(tokens: &[Token]) -> bool
    ensures { result ≡ begins_with begins_type tokens.now }
{
    match tokens {
        [] => false,
        [first, ..] => match type_word(&first.kind) {
            TypeWord::Qualifier(_) | TypeWord::Base(_) => true,
            TypeWord::Other => false,
        },
    }
}

/// The words of a type, and the tokens after it.
pub fn type_words(alloc: Global, tokens: &[Token]) -> Result<(TypeWords, &[Token]), Stop>
    ensures value { Gives (λ r. (type_of r.0, r.1.now)) result (type_at tokens.now) }
    ensures rest { IfOk result (λ r. length r.1.now < length tokens.now) }
{
    let mut span = first_span(tokens);
    let mut qualifiers = Vec::new(alloc);
    let mut signed = false;
    let mut rest = tokens;
    'each: loop {
        match type_word_at(rest) {
            TypeWord::Qualifier(qualifier) => {
                span = span.to(first_span(rest));
                signed = signed | is_sign(qualifier);
                qualifiers.push(qualifier)?;
                rest = tail(rest);
            }
            TypeWord::Base(base) => {
                let words = TypeWords {
                    qualifiers,
                    base: Some(base),
                    span: span.to(first_span(rest)),
                };
                return Ok((words, tail(rest)));
            }
            TypeWord::Other => break,
        }
    }
    if !signed {
        return Err(refuse(Why::Unexpected, rest));
    }
    let words = TypeWords {
        qualifiers,
        base: None,
        span,
    };
    Ok((words, rest))
}
