//! Single tokens.
ghost use Rattle.std.specs.Prelude.{◌≡◌, ◌<◌, ◌∷◌, ◌++◌, [], IfOk, IfErr, length, drop, max};
ghost use Rattle.isp_lex.specs.Tokens.{starts_with};
ghost use Rattle.isp_grammar.specs.reader.Choices.{sign_at};
ghost use Rattle.isp_grammar.specs.reader.Readers.{Gives, refusal, refusal_at_limit, mark_at, word_at};
ghost use Rattle.isp_grammar.specs.reader.Stmts.{in_of};

use crate::stop::{Refusal, Stop, Why};
use isp_base::Span;
use isp_lex::{Mark, Token, TokenKind};
use isp_tree::Word;
use std::alloc::Global;

/// The refusal of the first of these tokens, or of the end.
pub fn refuse(why: Why, tokens: &[Token]) -> Stop
    ensures { result ≡ Stop.Refused (refusal why tokens.now) }
{
    Stop::Refused(Refusal {
        why,
        left: tokens.len(),
    })
}

/// The refusal where nothing more may be read: of what begins here, if it does.
pub fn refuse_at_limit(begins: bool, tokens: &[Token]) -> Stop
    ensures { result ≡ Stop.Refused (refusal_at_limit begins tokens.now) }
{
    if begins {
        refuse(Why::TooDeep, tokens)
    } else {
        refuse(Why::Unexpected, tokens)
    }
}

/// Whether the first token is this mark.
pub fn starts_with(mark: Mark, tokens: &[Token]) -> bool
    ensures { result ≡ starts_with mark tokens.now }
{
    match tokens {
        [] => false,
        [first, ..] => first.kind.is(mark),
    }
}

/// The tokens after the first.
pub fn tail(tokens: &[Token]) -> &[Token]
    requires { 0 < length tokens.now }
    ensures { result.now ≡ drop 1 tokens.now }
{
    &tokens[1..]
}

/// One token of this mark: where it stands, and the tokens after it.
#[tactic(auto, unfolding(crate::specs::reader::Readers::mark_at))]
pub fn mark(mark: Mark, tokens: &[Token]) -> Result<(Span, &[Token]), Stop>
    ensures value { Gives (λ r. (r.0, r.1.now)) result (mark_at mark tokens.now) }
    ensures rest { IfOk result (λ r. length r.1.now < length tokens.now) }
{
    match tokens {
        [first, rest @ ..] if first.kind.is(mark) => Ok((first.span, rest)),
        _ => Err(refuse(Why::Unexpected, tokens)),
    }
}

/// What was read, and where this mark stands after it, and the tokens after the mark.
pub fn closed_by<T: Drop>(
    sign: Mark,
    value: T,
    tokens: &[Token],
) -> Result<((T, Span), &[Token]), Stop>
    ensures sign { Gives (λ r. (r.0.1, r.1.now)) result (mark_at sign tokens.now) }
    ensures value { IfOk result (λ r. r.0.0 ≡ value) }
    ensures rest { IfOk result (λ r. length r.1.now < length tokens.now) }
{
    let (span, rest) = mark(sign, tokens)?;
    Ok(((value, span), rest))
}

/// One name, and the tokens after it.
#[tactic(auto, unfolding(crate::specs::reader::Readers::word_at))]
pub fn word(tokens: &[Token]) -> Result<(Word, &[Token]), Stop>
    ensures value { Gives (λ r. (r.0, r.1.now)) result (word_at tokens.now) }
    ensures rest { IfOk result (λ r. length r.1.now < length tokens.now) }
{
    let Some((first, rest)) = tokens.split_first() else {
        return Err(refuse(Why::Unexpected, tokens));
    };
    match &first.kind {
        TokenKind::Word(name) => {
            let name = name.copied()?;
            let span = first.span;
            Ok((Word { name, span }, rest))
        }
        _ => Err(refuse(Why::Unexpected, tokens)),
    }
}

/// The name `in`: where it stands, and the tokens after it.
#[tactic(auto, unfolding(crate::specs::reader::Choices::sign_at))]
pub fn preposition(tokens: &[Token]) -> Result<(Span, &[Token]), Stop>
    ensures value { Gives (λ r. ((tt, r.0), r.1.now)) result (sign_at in_of tokens.now) }
    ensures rest { IfOk result (λ r. length r.1.now < length tokens.now) }
{
    let Some((first, rest)) = tokens.split_first() else {
        return Err(refuse(Why::Unexpected, tokens));
    };
    match &first.kind {
        TokenKind::Word(name) if name.as_str() == "in" => Ok((first.span, rest)),
        _ => Err(refuse(Why::Unexpected, tokens)),
    }
}

/// The larger one.
pub fn larger(a: usize, b: usize) -> usize
    ensures { result ≡ max a b }
{
    if a < b { b } else { a }
}

/// A list with one more item after.
pub fn with_item<T: Drop>(mut all: Vec<T>, item: T) -> Result<Vec<T>, Stop>
    ensures items { IfOk result (λ r. r.items ≡ all.items ++ item ∷ []) }
    ensures memory { IfErr result (λ e. e ≡ Stop.Memory) }
{
    all.push(item)?;
    Ok(all)
}

/// A list with what a box holds after.
pub fn with_boxed<T: Drop>(all: Vec<T>, item: Box<T>) -> Result<Vec<T>, Stop>
    ensures items { IfOk result (λ r. r.items ≡ all.items ++ item.value ∷ []) }
    ensures memory { IfErr result (λ e. e ≡ Stop.Memory) }
{
    with_item(all, Box::into_inner(item))
}

/// A value in a box, and the tokens after it: what was read is given on by one call.
pub fn in_box<T: Drop>(alloc: Global, value: T, rest: &[Token]) -> Result<(Box<T>, &[Token]), Stop>
    ensures value { IfOk result (λ r. r.0.value ≡ value) }
    ensures rest { IfOk result (λ r. r.1.now ≡ rest.now) }
    ensures memory { IfErr result (λ e. e ≡ Stop.Memory) }
{
    Ok((Box::new(alloc, value)?, rest))
}
