//! From a text to its tokens.
ghost use Rattle.std.specs.Prelude.{◌≡◌, ◌<◌, ◌≤◌, ◌+◌, ◌^◌, List, [], length, Err, IfOk, IfErr, MatchResult, Some, true, ℕ};
ghost use Rattle.isp_lex.specs.Listed.{AreTokens, IsListed};
ghost use Rattle.isp_lex.specs.Tokens.{TokenList};
ghost use Rattle.isp_lex.specs.Lexing.{BeginsNothing, IsFault, IsFirstFault, IsRefused, IsText, Lexes, limit, slice, span};
ghost use Rattle.std.specs.List.{All};
ghost use Rattle.std.specs.Str.{IsUtf8};
ghost use Rattle.isp_lex.specs.Cuts.{IsCut};
ghost use Rattle.isp_lex.specs.reader.Pieces.{BeginsSign, Front, NoNumber, StopsAt, run_piece};
ghost use Rattle.isp_lex.specs.reader.Runs.{run_of};
ghost use Rattle.isp_lex.specs.reader.Words.{word_kind};
ghost use Rattle.isp_lex.specs.Bytes as class;
ghost use Rattle.isp_lex.specs.Bytes.{all};
ghost use Rattle.isp_lex.specs.Faults.{fault};
ghost use Rattle.isp_lex.specs.declared.fault.Rule.TheVariants.{TooLong};
ghost use Rattle.isp_lex.specs.declared.fault.SourceFault.TheVariants.{Memory, Refused};
ghost use Rattle.isp_lex.specs.declared.token.Token.{Token};
ghost use Rattle.isp_lex.specs.declared.fault.Fault.{Fault};

use crate::bytes::{is_blank, is_word_byte, rest, run_len};
use crate::comments::comment;
use crate::fault::{Rule, SourceFault};
use crate::numbers::number;
use crate::piece::{Piece, keep, refused};
use crate::quotes::quoted;
use crate::reserved::reserved;
use crate::signs::sign;
use crate::token::{TokenKind, Tokens};
use isp_base::Name;
use std::alloc::{AllocError, Global};

/// The greatest length of a source text in bytes.
const SOURCE_LIMIT: usize = 1_048_576;

/// The letters, digits and `_` that a text begins with.
fn first_run(text: &str) -> &str
    ensures { result.now ≡ run_of text.now }
{
    &text[..run_len(text.as_bytes())]
}

/// The kind of a word.
fn word(alloc: Global, text: &str) -> Result<TokenKind, AllocError>
    ensures { IfOk result (λ k. k ≡ word_kind text.now) }
{
    match reserved(text) {
        Some(kind) => Ok(kind),
        None => Ok(TokenKind::Word(Name::new(String::from_str(alloc, text)?))),
    }
}

/// A number or a word that stands at a place, with nothing after it.
fn run_piece(alloc: Global, text: &str, place: usize) -> Result<Piece, SourceFault>
    requires room { place + length text.now < 2 ^ 64 }
    requires some { 0 < length text.now }
    requires plain { all class.is_word_byte text.now ≡ true }
    ensures ok { IfOk result (λ p. run_piece text.now ≡ Some p) }
    ensures err { IfErr result (λ e. NoNumber place e text.now) }
{
    let len = text.len();
    if !text.as_bytes()[0].is_ascii_digit() {
        return Ok(Piece {
            token: Some(word(alloc, text)?),
            len,
        });
    }
    match number(text) {
        Some(value) => Ok(Piece {
            token: Some(TokenKind::Number(value)),
            len,
        }),
        None => Err(refused(Rule::BadNumber, place, place + len)),
    }
}

/// The fault of a character that begins no token.
fn bad_byte(text: &str, place: usize) -> SourceFault
    requires room { place + length text.now < 2 ^ 64 }
    requires some { 0 < length text.now }
    requires nothing { BeginsNothing text.now }
    ensures { StopsAt place result text.now }
{
    match text.chars().next() {
        Some(first) => refused(Rule::BadByte, place, place + first.len_utf8()),
        None => unreachable!(),
    }
}

/// The sign that a text begins with, where it begins with nothing else and stands at a place of
/// the source.
fn sign_piece(text: &str, place: usize) -> Result<Piece, SourceFault>
    requires room { place + length text.now < 2 ^ 64 }
    requires some { 0 < length text.now }
    requires other { BeginsSign text.now }
    ensures ok { IfOk result (λ p. Front text.now p) }
    ensures err { IfErr result (λ e. StopsAt place e text.now) }
{
    let bytes = text.as_bytes();
    match sign(bytes[0], rest(bytes, 1)) {
        Some((mark, len)) => Ok(Piece {
            token: Some(TokenKind::Mark(mark)),
            len,
        }),
        None => Err(bad_byte(text, place)),
    }
}

/// What a text begins with, where it stands at a place of the source.
fn next_piece(alloc: Global, text: &str, place: usize) -> Result<Piece, SourceFault>
    requires room { place + length text.now < 2 ^ 64 }
    requires some { 0 < length text.now }
    ensures ok { IfOk result (λ p. Front text.now p) }
    ensures err { IfErr result (λ e. StopsAt place e text.now) }
{
    let first = text.as_bytes()[0];
    if is_blank(first) {
        return Ok(Piece {
            token: None,
            len: 1,
        });
    }
    if is_word_byte(first) {
        return run_piece(alloc, first_run(text), place);
    }
    if first == b'"' {
        return quoted(alloc, text.as_bytes(), place);
    }
    if first == b'/' {
        if let Some(len) = comment(text, place)? {
            return Ok(Piece { token: None, len });
        }
    }
    sign_piece(text, place)
}

/// The tokens of a source text, in their order.
///
/// Faults, each with its span in bytes: 5 `TooLong` at 0..0 for a text of more than 1,048,576
/// bytes; else the first in the text of 1 `BadByte` (the character), 2 `BadNumber` (the run of
/// letters, digits and `_`), 3 `BadText` (from the quote up to the first character with which no
/// text goes on, or to the end) and 4 `OpenComment` (to the end). 0: memory was refused.
pub fn lex(alloc: Global, text: &str) -> Result<Tokens, SourceFault>
    ensures ok { IfOk result (λ t. Lexes 0 text.now t.items []) }
    ensures length { IfOk result (λ t. (t.end ≡ length text.now) × (length text.now ≤ limit)) }
    ensures slices { IfOk result (λ t. All (λ k. IsText k.kind (slice k.span text.now)) t.items) }
    ensures only { (tokens : List Token) → Lexes 0 text.now tokens [] → length text.now ≤ limit
        → MatchResult result (λ t. t.items ≡ tokens) (λ e. e ≡ Memory) }
    ensures refused { IfErr result (λ e. IsRefused e text.now) }
    // A text that is too long is refused before memory is asked for.
    ensures long { limit < length text.now → result ≡ Err (Refused (fault TooLong (span 0 0))) }
{
    if text.len() > SOURCE_LIMIT {
        return Err(refused(Rule::TooLong, 0, 0));
    }
    let mut items = Vec::new(alloc);
    let mut rest = text;
    while !rest.is_empty() {
        let place = text.len() - rest.len();
        let found = next_piece(alloc, rest, place)?;
        let len = found.len;
        keep(&mut items, found, place)?;
        rest = &rest[len..];
    }
    Ok(Tokens {
        items,
        end: text.len(),
    })
}

/// A law: no text has two lists of tokens.
pub fn one_list()
    ensures { (text : List ℕ) (a b : List Token) → Lexes 0 text a [] → Lexes 0 text b [] → a ≡ b }
{}

/// A law: a list of tokens is no longer than its text, which has at most 1,048,576 bytes; each token
/// has a byte of the text at least, a name is a word that is not reserved, a number fits its type;
/// and tokens stand one after another.
pub fn token_laws()
    ensures { (list : TokenList) → IsListed list → AreTokens list }
{}

/// A law: each token of a text begins and ends where a character of the text does, or at its end.
pub fn whole_characters()
    ensures { (text : List ℕ) (tokens : List Token) (rest : List ℕ) → IsUtf8 text → Lexes 0 text tokens rest
        → All (IsCut text) tokens }
{}

/// A law: no text has two first faults, and none has a first fault and a list of tokens.
pub fn one_fault()
    ensures unique { (text : List ℕ) (a b : Fault) → IsFirstFault a text → IsFirstFault b text → a ≡ b }
    ensures apart { (text : List ℕ) (tokens : List Token) (found : Fault) → Lexes 0 text tokens []
        → IsFirstFault found text → ⊥ }
{}
