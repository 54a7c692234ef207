//! Declarations.
ghost use Rattle.std.specs.Prelude.{◌≡◌, ◌≤◌, ◌<◌, ◌+◌, IfOk, Some, length, map};
ghost use Rattle.isp_grammar.specs.Grammar.{span_of_last};
ghost use Rattle.isp_tree.specs.Views.{item_of, declaration_of};
ghost use Rattle.isp_grammar.specs.reader.Readers.{Gives, mark_at, both};
ghost use Rattle.isp_grammar.specs.reader.Choices.{begins_with};
ghost use Rattle.isp_grammar.specs.reader.Stmts.{is_item_sign, item_tail_of, size_at, item_tail_at, item_from, item_at, items_at, declaration_at};

use crate::expr::expr;
use crate::reading::{in_box, mark, refuse, starts_with, tail, with_boxed, word};
use crate::stop::{Stop, Why};
use crate::types::{first_span, type_words};
use isp_base::Span;
use isp_lex::{Mark, Token, TokenKind};
use isp_tree::{Declaration, Expr, Item, Size, Word};
use std::alloc::Global;

/// What stands after the name of an item, with the places of its signs.
#[derive(Drop)]
pub enum ItemTail {
    /// `= e`
    Value(Span, Box<Expr>),
    /// `[size]`
    Size(Span, Size, Span),
}

/// Whether a value or a size stands here.
fn goes_on(tokens: &[Token]) -> bool
    ensures { result ≡ begins_with is_item_sign tokens.now }
{
    match tokens {
        [] => false,
        [first, ..] => first.kind.is(Mark::Assign) || first.kind.is(Mark::BracketOpen),
    }
}

/// How many elements an array has.
#[tactic(auto, unfolding(crate::specs::reader::Stmts::size_at, crate::specs::reader::Choices::sign_at))]
fn size(tokens: &[Token]) -> Result<(Size, &[Token]), Stop>
    ensures value { Gives (λ r. (r.0, r.1.now)) result (size_at tokens.now) }
    ensures rest { IfOk result (λ r. length r.1.now < length tokens.now) }
{
    let Some((first, rest)) = tokens.split_first() else {
        return Err(refuse(Why::Unexpected, tokens));
    };
    match &first.kind {
        TokenKind::Number(value) => {
            let size = Size::Number {
                value: *value,
                span: first.span,
            };
            Ok((size, rest))
        }
        TokenKind::Mark(Mark::ProgramCount) => {
            let size = Size::ProgramCount { span: first.span };
            Ok((size, rest))
        }
        _ => Err(refuse(Why::Unexpected, tokens)),
    }
}

/// A size in brackets, and where the brackets stand.
fn size_in_brackets(tokens: &[Token]) -> Result<((Span, (Size, Span)), &[Token]), Stop>
    ensures value { Gives (λ r. (r.0, r.1.now)) result (both (mark_at Mark.BracketOpen) (both size_at (mark_at Mark.BracketClose)) tokens.now) }
    ensures rest { IfOk result (λ r. length r.1.now < length tokens.now) }
{
    let (open, rest) = mark(Mark::BracketOpen, tokens)?;
    let (size, rest) = size(rest)?;
    let (close, rest) = mark(Mark::BracketClose, rest)?;
    Ok(((open, (size, close)), rest))
}

/// A value after `=`, or a size in brackets.
fn item_tail(alloc: Global, left: usize, tokens: &[Token]) -> Result<(ItemTail, &[Token]), Stop>
    ensures value { Gives (λ r. (item_tail_of r.0, r.1.now)) result (item_tail_at left tokens.now) }
    ensures rest { IfOk result (λ r. length r.1.now < length tokens.now) }
{
    if starts_with(Mark::Assign, tokens) {
        let (value, _height, rest) = expr(alloc, left, tail(tokens))?;
        return Ok((ItemTail::Value(first_span(tokens), value), rest));
    }
    let ((open, (size, close)), rest) = size_in_brackets(tokens)?;
    Ok((ItemTail::Size(open, size, close), rest))
}

/// A name with what stands after it.
fn with_tail(word: Word, tail: ItemTail) -> Item
    ensures { item_of result ≡ item_from word (Some (item_tail_of tail)) }
{
    match tail {
        ItemTail::Value(_sign, value) => {
            let span = word.span.to(value.span());
            let value = Box::into_inner(value);
            Item::Value { word, value, span }
        }
        ItemTail::Size(_open, size, close) => {
            let span = word.span.to(close);
            Item::Array { word, size, span }
        }
    }
}

/// One declared variable.
#[tactic(auto, unfolding(crate::specs::reader::Stmts::item_at, crate::specs::reader::Choices::perhaps_at))]
fn item(alloc: Global, left: usize, tokens: &[Token]) -> Result<(Box<Item>, &[Token]), Stop>
    ensures value { Gives (λ r. (item_of r.0.value, r.1.now)) result (item_at left tokens.now) }
    ensures rest { IfOk result (λ r. length r.1.now < length tokens.now) }
{
    let (word, rest) = word(tokens)?;
    if !goes_on(rest) {
        return in_box(alloc, Item::Plain(word), rest);
    }
    let (tail, rest) = item_tail(alloc, left, rest)?;
    in_box(alloc, with_tail(word, tail), rest)
}

/// One declared variable or more, with commas, and where the last one ends.
fn items(alloc: Global, left: usize, tokens: &[Token]) -> Result<(Vec<Item>, Span, &[Token]), Stop>
    ensures value { Gives (λ r. (map item_of r.0.items, r.2.now)) result (items_at left tokens.now) }
    ensures end { IfOk result (λ r. r.1 ≡ span_of_last (map item_of r.0.items)) }
    ensures rest { IfOk result (λ r. length r.2.now ≤ length tokens.now) }
{
    let mut all = Vec::new(alloc);
    let mut rest = tokens;
    'each: loop {
        let (next, after) = item(alloc, left, rest)?;
        let end = next.span();
        all = with_boxed(all, next)?;
        if !starts_with(Mark::Comma, after) {
            return Ok((all, end, after));
        }
        rest = tail(after);
    }
}

/// A type and the variables declared with it.
#[tactic(auto, unfolding(crate::specs::reader::Stmts::declaration_at))]
pub fn declaration(
    alloc: Global,
    left: usize,
    tokens: &[Token],
) -> Result<(Box<Declaration>, &[Token]), Stop>
    ensures value { Gives (λ r. (declaration_of r.0.value, r.1.now)) result (declaration_at left tokens.now) }
    ensures rest { IfOk result (λ r. length r.1.now < length tokens.now) }
{
    let (ty, rest) = type_words(alloc, tokens)?;
    let (items, end, rest) = items(alloc, left, rest)?;
    let span = ty.span.to(end);
    in_box(alloc, Declaration { ty, items, span }, rest)
}
