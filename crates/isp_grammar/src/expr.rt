//! Expressions.
ghost use Rattle.std.specs.Prelude.{◌≡◌, ◌≤◌, ◌-◌, ◌<◌, IfOk, IfErr, max, length, ◌∷◌};
ghost use Rattle.isp_lex.specs.Tokens.{starts_with};
ghost use Rattle.isp_grammar.specs.Signs.{level, joined_level, loosest};
ghost use Rattle.isp_tree.specs.Views.{expr_of, place_of, argument_of, arguments_of};
ghost use Rattle.isp_tree.specs.Depth.{depth, depth_of_place, depth_of_argument, depth_of_all};
ghost use Rattle.isp_grammar.specs.reader.Readers.{Gives, is_word, listed_at};
ghost use Rattle.isp_grammar.specs.reader.Choices.{begins_with};
ghost use Rattle.isp_grammar.specs.reader.Exprs.{start_of, start_of_mark, atom_of, begins_expr, operator_of, operator_at, bracketed_at, argument_at, arguments_at, suffix_of, depth_of_suffix, suffix_at, named, named_at, cast_at, closed_at, prefixed_at, operand_from, joined, parts_of, parts_at, choice_of, expr_at, target_at};

use crate::reading::{
    closed_by, larger, mark, refuse, refuse_at_limit, starts_with, tail, with_item, word,
};
use crate::stop::{Stop, Why};
use crate::types::{begins_type, first_span, type_words};
use isp_base::{Span, Value};
use isp_lex::{Mark, Token, TokenKind};
use isp_tree::{Argument, Expr, Operator, Place, Prefix, Word};
use std::alloc::Global;

/// The level of the operators that bind loosest.
const JOINED: usize = 10;

/// An operand of one token.
#[derive(Clone, Copy)]
pub enum Atom {
    Number(Value),
    Truth(bool),
    ProgramIndex,
    ProgramCount,
}

/// What a token begins, as an operand.
#[derive(Clone, Copy)]
pub enum Start {
    Atom(Atom),
    Word,
    Bracket,
    Prefix(Prefix),
    Nothing,
}

fn start_of(kind: &TokenKind) -> Start
    ensures { result ≡ start_of kind.now }
{
    match kind {
        TokenKind::Number(value) => Start::Atom(Atom::Number(*value)),
        TokenKind::Word(_) => Start::Word,
        TokenKind::Mark(mark) => start_of_mark(*mark),
        TokenKind::Text(_) | TokenKind::LeftOut => Start::Nothing,
    }
}

fn start_of_mark(mark: Mark) -> Start
    ensures { result ≡ start_of_mark mark }
{
    match mark {
        Mark::True => Start::Atom(Atom::Truth(true)),
        Mark::False => Start::Atom(Atom::Truth(false)),
        Mark::ProgramIndex => Start::Atom(Atom::ProgramIndex),
        Mark::ProgramCount => Start::Atom(Atom::ProgramCount),
        Mark::ParenOpen => Start::Bracket,
        Mark::Minus => Start::Prefix(Prefix::Negative),
        Mark::Inverse => Start::Prefix(Prefix::Inverse),
        Mark::Not => Start::Prefix(Prefix::Not),
        _ => Start::Nothing,
    }
}

/// Whether an expression begins with a token of this kind.
pub fn begins_expr(kind: &TokenKind) -> bool
    ensures { result ≡ begins_expr kind.now }
{
    match start_of(kind) {
        Start::Nothing => false,
        _ => true,
    }
}

fn operator(kind: &TokenKind) -> Option<Operator>
    ensures { result ≡ operator_of kind.now }
{
    match kind {
        TokenKind::Mark(Mark::Star) => Some(Operator::Multiply),
        TokenKind::Mark(Mark::Slash) => Some(Operator::Divide),
        TokenKind::Mark(Mark::Percent) => Some(Operator::Remainder),
        TokenKind::Mark(Mark::Plus) => Some(Operator::Add),
        TokenKind::Mark(Mark::Minus) => Some(Operator::Subtract),
        TokenKind::Mark(Mark::ShiftLeft) => Some(Operator::ShiftLeft),
        TokenKind::Mark(Mark::ShiftRight) => Some(Operator::ShiftRight),
        TokenKind::Mark(Mark::Less) => Some(Operator::Less),
        TokenKind::Mark(Mark::LessEqual) => Some(Operator::LessEqual),
        TokenKind::Mark(Mark::Greater) => Some(Operator::Greater),
        TokenKind::Mark(Mark::GreaterEqual) => Some(Operator::GreaterEqual),
        TokenKind::Mark(Mark::Equal) => Some(Operator::Equal),
        TokenKind::Mark(Mark::NotEqual) => Some(Operator::NotEqual),
        TokenKind::Mark(Mark::And) => Some(Operator::And),
        TokenKind::Mark(Mark::Xor) => Some(Operator::Xor),
        TokenKind::Mark(Mark::Or) => Some(Operator::Or),
        TokenKind::Mark(Mark::AndAnd) => Some(Operator::AndAlso),
        TokenKind::Mark(Mark::OrOr) => Some(Operator::OrElse),
        _ => None,
    }
}

fn level(op: Operator) -> usize
    ensures { result ≡ level op }
{
    match op {
        Operator::Multiply | Operator::Divide | Operator::Remainder => 1,
        Operator::Add | Operator::Subtract => 2,
        Operator::ShiftLeft | Operator::ShiftRight => 3,
        Operator::Less | Operator::LessEqual | Operator::Greater | Operator::GreaterEqual => 4,
        Operator::Equal | Operator::NotEqual => 5,
        Operator::And => 6,
        Operator::Xor => 7,
        Operator::Or => 8,
        Operator::AndAlso => 9,
        Operator::OrElse => 10,
    }
}

fn operator_at(looseness: usize, tokens: &[Token]) -> Option<Operator>
    ensures { result ≡ operator_at looseness tokens.now }
{
    match tokens {
        [] => None,
        [first, ..] => {
            let op = operator(&first.kind)?;
            if level(op) == looseness {
                Some(op)
            } else {
                None
            }
        }
    }
}

/// Whether a name stands first.
fn names(tokens: &[Token]) -> bool
    ensures { result ≡ begins_with is_word tokens.now }
{
    match tokens {
        [] => false,
        [first, ..] => match &first.kind {
            TokenKind::Word(_) => true,
            _ => false,
        },
    }
}

/// An operand of one token, and where it stands.
fn atom_of(atom: Atom, span: Span) -> Expr
    ensures { expr_of result ≡ atom_of atom span }
{
    match atom {
        Atom::Number(value) => Expr::Number { value, span },
        Atom::Truth(value) => Expr::Truth { value, span },
        Atom::ProgramIndex => Expr::ProgramIndex { span },
        Atom::ProgramCount => Expr::ProgramCount { span },
    }
}

/// Two operands and the operator between them.
fn join(left: Box<Expr>, operator: Operator, right: Box<Expr>) -> Expr
    ensures { expr_of result ≡ joined (expr_of left.value) operator (expr_of right.value) }
{
    let span = left.span().to(right.span());
    Expr::Binary {
        operator,
        left,
        right,
        span,
    }
}

/// An expression put in a box, its depth, and the tokens after it: what was read is given on by one call.
fn made(alloc: Global, node: Expr, height: usize, rest: &[Token]) -> Result<Found<'_>, Stop>
    ensures value { IfOk result (λ r. expr_of r.0.value ≡ expr_of node) }
    ensures height { IfOk result (λ r. r.1 ≡ height) }
    ensures rest { IfOk result (λ r. r.2.now ≡ rest.now) }
    ensures memory { IfErr result (λ e. e ≡ Stop.Memory) }
{
    Ok((Box::new(alloc, node)?, height, rest))
}

/// Both parts of a choice, with the colon's place between.
#[derive(Drop)]
pub struct Branches {
    pub then: Box<Expr>,
    pub colon: Span,
    pub otherwise: Box<Expr>,
}

fn choose(test: Box<Expr>, parts: Branches) -> Expr
    ensures { expr_of result ≡ choice_of (expr_of test.value) (parts_of parts) }
{
    let span = test.span().to(parts.otherwise.span());
    Expr::Choose {
        test,
        then: parts.then,
        otherwise: parts.otherwise,
        span,
    }
}

/// An expression in a box, its depth, and the tokens after it.
pub type Found<'a> = (Box<Expr>, usize, &'a [Token]);

/// An index with its closing bracket, its depth, and the tokens after it.
type Index<'a> = ((Box<Expr>, Span), usize, &'a [Token]);

/// What is after `[`.
#[cycle(expr)]
#[tactic(auto, unfolding(crate::specs::reader::Exprs::bracketed_at))]
fn index(alloc: Global, left: usize, tokens: &[Token]) -> Result<Index<'_>, Stop>
    ensures value { Gives (λ r. ((expr_of r.0.0.value, r.0.1), r.2.now)) result (bracketed_at (expr_at left loosest) tokens.now) }
    ensures height { IfOk result (λ r. r.1 ≡ depth (expr_of r.0.0.value)) }
    ensures rest { IfOk result (λ r. length r.2.now < length tokens.now) }
    ensures bounded { IfOk result (λ r. r.1 ≤ left) }
{
    let (value, height, rest) = expr(alloc, left, tokens)?;
    let (close, rest) = mark(Mark::BracketClose, rest)?;
    Ok(((value, close), height, rest))
}

/// What a reference is to: a variable, or an element of an array.
#[cycle(expr)]
#[tactic(auto, unfolding(crate::specs::reader::Exprs::place_at, crate::specs::reader::Exprs::index_at, crate::specs::reader::Readers::optional))]
fn place(alloc: Global, left: usize, tokens: &[Token]) -> Result<(Place, usize, &[Token]), Stop>
    ensures value { Gives (λ r. (place_of r.0, r.2.now)) result (target_at left tokens.now) }
    ensures height { IfOk result (λ r. r.1 ≡ depth_of_place (place_of r.0)) }
    ensures rest { IfOk result (λ r. length r.2.now < length tokens.now) }
    ensures bounded { IfOk result (λ r. r.1 ≤ left) }
{
    if left == 0 {
        return Err(refuse_at_limit(names(tokens), tokens));
    }
    let (word, rest) = word(tokens)?;
    if !starts_with(Mark::BracketOpen, rest) {
        return Ok((Place::Variable(word), 1, rest));
    }
    let ((index, close), height, rest) = index(alloc, left - 1, tail(rest))?;
    let span = word.span.to(close);
    let element = Place::Element {
        array: word,
        index,
        span,
    };
    Ok((element, height + 1, rest))
}

/// One argument: a value, or a reference.
#[cycle(expr)]
fn argument(
    alloc: Global,
    left: usize,
    tokens: &[Token],
) -> Result<(Argument, usize, &[Token]), Stop>
    ensures value { Gives (λ r. (argument_of r.0, r.2.now)) result (argument_at (expr_at left loosest) (target_at left) tokens.now) }
    ensures height { IfOk result (λ r. r.1 ≡ depth_of_argument (argument_of r.0)) }
    ensures rest { IfOk result (λ r. length r.2.now < length tokens.now) }
    ensures bounded { IfOk result (λ r. r.1 ≤ left) }
{
    if starts_with(Mark::And, tokens) {
        let (place, height, rest) = place(alloc, left, tail(tokens))?;
        let span = first_span(tokens).to(place.span());
        return Ok((Argument::Reference { place, span }, height, rest));
    }
    let (value, height, rest) = expr(alloc, left, tokens)?;
    Ok((Argument::Value(Box::into_inner(value)), height, rest))
}

/// The arguments of a call up to the closing bracket, and the depth of the deepest.
#[cycle(expr)]
fn arguments(
    alloc: Global,
    left: usize,
    tokens: &[Token],
) -> Result<(Vec<Argument>, usize, &[Token]), Stop>
    ensures value { Gives (λ r. (arguments_of r.0.items, r.2.now)) result (listed_at Mark.ParenClose (argument_at (expr_at left loosest) (target_at left)) tokens.now) }
    ensures height { IfOk result (λ r. r.1 ≡ depth_of_all (arguments_of r.0.items)) }
    ensures rest { IfOk result (λ r. length r.2.now ≤ length tokens.now) }
    ensures bounded { IfOk result (λ r. r.1 ≤ left) }
{
    let mut all = Vec::new(alloc);
    let mut height = 0;
    let mut rest = tokens;
    if starts_with(Mark::ParenClose, tokens) {
        return Ok((all, height, rest));
    }
    'each: loop {
        let (next, next_height, after) = argument(alloc, left, rest)?;
        all = with_item(all, next)?;
        height = larger(height, next_height);
        if !starts_with(Mark::Comma, after) {
            return Ok((all, height, after));
        }
        rest = tail(after);
    }
}

/// Arguments with their closing bracket, the depth of the deepest, and the tokens after them.
type Called<'a> = ((Vec<Argument>, Span), usize, &'a [Token]);

/// What is after the bracket of a call.
#[cycle(expr)]
#[tactic(auto, unfolding(crate::specs::reader::Exprs::arguments_at))]
fn called(alloc: Global, left: usize, tokens: &[Token]) -> Result<Called<'_>, Stop>
    ensures value { Gives (λ r. ((arguments_of r.0.0.items, r.0.1), r.2.now)) result (arguments_at (expr_at left loosest) (target_at left) tokens.now) }
    ensures height { IfOk result (λ r. r.1 ≡ depth_of_all (arguments_of r.0.0.items)) }
    ensures rest { IfOk result (λ r. length r.2.now < length tokens.now) }
    ensures bounded { IfOk result (λ r. r.1 ≤ left) }
{
    let (inside, height, rest) = arguments(alloc, left, tokens)?;
    let ((all, close), rest) = closed_by(Mark::ParenClose, inside, rest)?;
    Ok(((all, close), height, rest))
}

/// What stands after a name in an expression.
#[derive(Drop)]
pub enum Behind {
    Nothing,
    /// `[e]`
    Index(Box<Expr>, Span),
    /// `(e, ..)`
    Arguments(Vec<Argument>, Span),
}

/// An index or arguments, if they stand here.
#[cycle(expr)]
#[tactic(auto, unfolding(crate::specs::reader::Exprs::suffix_at))]
fn suffix(alloc: Global, left: usize, tokens: &[Token]) -> Result<(Behind, usize, &[Token]), Stop>
    ensures value { Gives (λ r. (suffix_of r.0, r.2.now)) result (suffix_at (bracketed_at (expr_at left loosest)) (arguments_at (expr_at left loosest) (target_at left)) tokens.now) }
    ensures height { IfOk result (λ r. r.1 ≡ depth_of_suffix (suffix_of r.0)) }
    ensures rest { IfOk result (λ r. length r.2.now ≤ length tokens.now) }
    ensures bounded { IfOk result (λ r. r.1 ≤ left) }
{
    if starts_with(Mark::BracketOpen, tokens) {
        let ((value, close), height, rest) = index(alloc, left, tail(tokens))?;
        return Ok((Behind::Index(value, close), height, rest));
    }
    if starts_with(Mark::ParenOpen, tokens) {
        let ((all, close), height, rest) = called(alloc, left, tail(tokens))?;
        return Ok((Behind::Arguments(all, close), height, rest));
    }
    Ok((Behind::Nothing, 0, tokens))
}

/// A name with what stands after it.
fn with_suffix(word: Word, suffix: Behind) -> Expr
    ensures { expr_of result ≡ named word (suffix_of suffix) }
{
    match suffix {
        Behind::Nothing => Expr::Place(Place::Variable(word)),
        Behind::Index(index, close) => {
            let span = word.span.to(close);
            let array = word;
            Expr::Place(Place::Element { array, index, span })
        }
        Behind::Arguments(arguments, close) => {
            let span = word.span.to(close);
            Expr::Call {
                function: word,
                arguments,
                span,
            }
        }
    }
}

/// A variable, an element of an array, or a call.
#[cycle(expr)]
#[tactic(auto, unfolding(crate::specs::reader::Exprs::named_at))]
fn named(alloc: Global, left: usize, tokens: &[Token]) -> Result<Found<'_>, Stop>
    requires { 0 < left }
    ensures value { Gives (λ r. (expr_of r.0.value, r.2.now)) result (named_at (expr_at (left - 1) loosest) (target_at (left - 1)) tokens.now) }
    ensures height { IfOk result (λ r. r.1 ≡ depth (expr_of r.0.value)) }
    ensures rest { IfOk result (λ r. length r.2.now < length tokens.now) }
    ensures bounded { IfOk result (λ r. r.1 ≤ left) }
{
    let (word, rest) = word(tokens)?;
    let (suffix, height, rest) = suffix(alloc, left - 1, rest)?;
    made(alloc, with_suffix(word, suffix), height + 1, rest)
}

/// A type, a closing bracket, and what is cast, after an opening bracket.
#[cycle(expr)]
#[tactic(auto, unfolding(crate::specs::reader::Exprs::cast_at))]
fn cast(alloc: Global, left: usize, opening: Span, tokens: &[Token]) -> Result<Found<'_>, Stop>
    requires { 0 < left }
    ensures value { Gives (λ r. (expr_of r.0.value, r.2.now)) result (cast_at (expr_at (left - 1)) opening tokens.now) }
    ensures height { IfOk result (λ r. r.1 ≡ depth (expr_of r.0.value)) }
    ensures rest { IfOk result (λ r. length r.2.now < length tokens.now) }
    ensures bounded { IfOk result (λ r. r.1 ≤ left) }
{
    let (ty, rest) = type_words(alloc, tokens)?;
    let (_close, rest) = mark(Mark::ParenClose, rest)?;
    let (operand, height, rest) = unary(alloc, left - 1, rest)?;
    let span = opening.to(operand.span());
    made(alloc, Expr::Cast { ty, operand, span }, height + 1, rest)
}

/// An expression and a closing bracket, after an opening bracket.
#[cycle(expr)]
#[tactic(auto, unfolding(crate::specs::reader::Exprs::closed_at))]
fn closed(alloc: Global, left: usize, opening: Span, tokens: &[Token]) -> Result<Found<'_>, Stop>
    requires { 0 < left }
    ensures value { Gives (λ r. (expr_of r.0.value, r.2.now)) result (closed_at (expr_at (left - 1)) opening tokens.now) }
    ensures height { IfOk result (λ r. r.1 ≡ depth (expr_of r.0.value)) }
    ensures rest { IfOk result (λ r. length r.2.now < length tokens.now) }
    ensures bounded { IfOk result (λ r. r.1 ≤ left) }
{
    let (inside, height, rest) = expr(alloc, left - 1, tokens)?;
    let (close, rest) = mark(Mark::ParenClose, rest)?;
    let span = opening.to(close);
    let brackets = Expr::Brackets {
        inner: inside,
        span,
    };
    made(alloc, brackets, height + 1, rest)
}

/// An operand after an operator that stands before it.
#[cycle(expr)]
fn prefixed(
    alloc: Global,
    left: usize,
    operator: Prefix,
    place: Span,
    tokens: &[Token],
) -> Result<Found<'_>, Stop>
    requires { 0 < left }
    ensures value { Gives (λ r. (expr_of r.0.value, r.2.now)) result (prefixed_at (expr_at (left - 1)) operator place tokens.now) }
    ensures height { IfOk result (λ r. r.1 ≡ depth (expr_of r.0.value)) }
    ensures rest { IfOk result (λ r. length r.2.now < length tokens.now) }
    ensures bounded { IfOk result (λ r. r.1 ≤ left) }
{
    let (operand, height, rest) = unary(alloc, left - 1, tokens)?;
    let span = place.to(operand.span());
    let prefixed = Expr::Prefix {
        operator,
        operand,
        span,
    };
    made(alloc, prefixed, height + 1, rest)
}

#[cycle(expr)]
fn unary_from<'a>(
    alloc: Global,
    left: usize,
    first: &Token,
    tokens: &'a [Token],
    rest: &'a [Token],
) -> Result<Found<'a>, Stop>
    requires whole { tokens.now ≡ first.now ∷ rest.now }
    requires room { 0 < left }
    ensures value { Gives (λ r. (expr_of r.0.value, r.2.now)) result
        (operand_from (expr_at (left - 1)) (target_at (left - 1)) (start_of first.now.kind) first.now rest.now) }
    ensures height { IfOk result (λ r. r.1 ≡ depth (expr_of r.0.value)) }
    ensures rest { IfOk result (λ r. length r.2.now < length tokens.now) }
    ensures bounded { IfOk result (λ r. r.1 ≤ left) }
{
    let span = first.span;
    match start_of(&first.kind) {
        Start::Atom(atom) => made(alloc, atom_of(atom, span), 1, rest),
        Start::Word => named(alloc, left, tokens),
        Start::Bracket if begins_type(rest) => cast(alloc, left, span, rest),
        Start::Bracket => closed(alloc, left, span, rest),
        Start::Prefix(operator) => prefixed(alloc, left, operator, span, rest),
        Start::Nothing => Err(refuse(Why::Unexpected, tokens)),
    }
}

/// An operand with the operators before it, no deeper than `left`.
#[cycle(expr)]
pub fn unary(alloc: Global, left: usize, tokens: &[Token]) -> Result<Found<'_>, Stop>
    ensures value { Gives (λ r. (expr_of r.0.value, r.2.now)) result (expr_at left 0 tokens.now) }
    ensures height { IfOk result (λ r. r.1 ≡ depth (expr_of r.0.value)) }
    ensures rest { IfOk result (λ r. length r.2.now < length tokens.now) }
    ensures bounded { IfOk result (λ r. r.1 ≤ left) }
{
    let Some((first, rest)) = tokens.split_first() else {
        return Err(refuse(Why::Unexpected, tokens));
    };
    if !begins_expr(&first.kind) {
        return Err(refuse(Why::Unexpected, tokens));
    }
    if left == 0 {
        return Err(refuse(Why::TooDeep, tokens));
    }
    unary_from(alloc, left, first, tokens, rest)
}

/// Operands joined by operators of a level or tighter ones, no deeper than `left`.
#[cycle(expr)]
fn binary(alloc: Global, looseness: usize, left: usize, tokens: &[Token]) -> Result<Found<'_>, Stop>
    requires level { looseness ≤ joined_level }
    ensures value { Gives (λ r. (expr_of r.0.value, r.2.now)) result (expr_at left looseness tokens.now) }
    ensures height { IfOk result (λ r. r.1 ≡ depth (expr_of r.0.value)) }
    ensures rest { IfOk result (λ r. length r.2.now < length tokens.now) }
    ensures bounded { IfOk result (λ r. r.1 ≤ left) }
{
    if looseness == 0 {
        return unary(alloc, left, tokens);
    }
    let (mut found, mut height, mut rest) = binary(alloc, looseness - 1, left, tokens)?;
    while let Some(op) = operator_at(looseness, rest) {
        if height >= left {
            return Err(refuse(Why::TooDeep, rest));
        }
        let (right, right_height, after) = binary(alloc, looseness - 1, left - 1, tail(rest))?;
        let deeper = larger(height, right_height) + 1;
        (found, height, rest) = made(alloc, join(found, op, right), deeper, after)?;
    }
    Ok((found, height, rest))
}

/// What is after `?`, the depth of the deeper part, and the tokens after it.
#[cycle(expr)]
#[tactic(auto, unfolding(crate::specs::reader::Exprs::parts_at))]
fn parts(alloc: Global, left: usize, tokens: &[Token]) -> Result<(Branches, usize, &[Token]), Stop>
    ensures value { Gives (λ r. (parts_of r.0, r.2.now)) result (parts_at (expr_at left loosest) tokens.now) }
    ensures height { IfOk result (λ r. r.1 ≡ max (depth (expr_of r.0.then.value)) (depth (expr_of r.0.otherwise.value))) }
    ensures rest { IfOk result (λ r. length r.2.now < length tokens.now) }
    ensures bounded { IfOk result (λ r. r.1 ≤ left) }
{
    let (then, height, rest) = expr(alloc, left, tokens)?;
    let (colon, rest) = mark(Mark::Colon, rest)?;
    let (otherwise, otherwise_height, rest) = expr(alloc, left, rest)?;
    let parts = Branches {
        then,
        colon,
        otherwise,
    };
    Ok((parts, larger(height, otherwise_height), rest))
}

/// An expression, no deeper than `left`.
#[cycle(expr)]
pub fn expr(alloc: Global, left: usize, tokens: &[Token]) -> Result<Found<'_>, Stop>
    ensures value { Gives (λ r. (expr_of r.0.value, r.2.now)) result (expr_at left loosest tokens.now) }
    ensures height { IfOk result (λ r. r.1 ≡ depth (expr_of r.0.value)) }
    ensures rest { IfOk result (λ r. length r.2.now < length tokens.now) }
    ensures bounded { IfOk result (λ r. r.1 ≤ left) }
{
    let (test, height, rest) = binary(alloc, JOINED, left, tokens)?;
    if !starts_with(Mark::Question, rest) {
        return Ok((test, height, rest));
    }
    if height >= left {
        return Err(refuse(Why::TooDeep, rest));
    }
    let (parts, parts_height, rest) = parts(alloc, left - 1, tail(rest))?;
    let height = larger(height, parts_height) + 1;
    made(alloc, choose(test, parts), height, rest)
}
