//! Functions, and all those of a text.
ghost use Rattle.std.specs.Prelude.{◌≡◌, ◌≤◌, ◌<◌, ◌+◌, IfOk, length, map, Ok};
ghost use Rattle.isp_tree.specs.Depth.{limit};
ghost use Rattle.isp_tree.specs.Views.{type_of, block_of, param_of, function_of, functions_of};
ghost use Rattle.isp_grammar.specs.reader.Readers.{Gives, optional, mark_at, both, list_at};
ghost use Rattle.isp_grammar.specs.reader.Choices.{signs_at};
ghost use Rattle.isp_grammar.specs.reader.Programs.{linkage_of, linkage_at, linkages_at, param_at, only_void, params_at, signature_of, signature_at, function_from, function_at, program_at};

use crate::reading::{closed_by, in_box, mark, starts_with, tail, with_boxed, word};
use crate::stmt::block;
use crate::stop::Stop;
use crate::types::{first_span, type_words};
use isp_base::Span;
use isp_lex::{Mark, Token, TokenKind};
use isp_tree::{Block, DEPTH_LIMIT, Function, Linkage, Param, TypeWords, Word};
use std::alloc::Global;

fn linkage_of(kind: &TokenKind) -> Option<Linkage>
    ensures { result ≡ linkage_of kind.now }
{
    match kind {
        TokenKind::Mark(Mark::Export) => Some(Linkage::Export),
        TokenKind::Mark(Mark::Static) => Some(Linkage::Static),
        TokenKind::Mark(Mark::Inline) => Some(Linkage::Inline),
        _ => None,
    }
}

fn linkage_at(tokens: &[Token]) -> Option<Linkage>
    ensures { result ≡ linkage_at tokens.now }
{
    match tokens {
        [] => None,
        [first, ..] => linkage_of(&first.kind),
    }
}

/// The words before a function's type.
fn linkages(alloc: Global, tokens: &[Token]) -> Result<(Vec<Linkage>, &[Token]), Stop>
    ensures value { Gives (λ r. (r.0.items, r.1.now)) result (linkages_at tokens.now) }
    ensures rest { IfOk result (λ r. length r.1.now ≤ length tokens.now) }
{
    let mut all = Vec::new(alloc);
    let mut rest = tokens;
    'each: loop {
        let Some(linkage) = linkage_at(rest) else {
            return Ok((all, rest));
        };
        all.push(linkage)?;
        rest = tail(rest);
    }
}

/// `[]`, where it ends.
#[tactic(auto, unfolding(crate::specs::reader::Readers::optional))]
fn array_sign(tokens: &[Token]) -> Result<(Option<Span>, &[Token]), Stop>
    ensures value { Gives (λ r. (r.0, r.1.now)) result (optional Mark.BracketOpen (mark_at Mark.BracketClose) tokens.now) }
    ensures rest { IfOk result (λ r. length r.1.now ≤ length tokens.now) }
{
    if !starts_with(Mark::BracketOpen, tokens) {
        return Ok((None, tokens));
    }
    let (close, rest) = mark(Mark::BracketClose, tail(tokens))?;
    Ok((Some(close), rest))
}

/// One parameter.
#[tactic(auto, unfolding(crate::specs::reader::Programs::param_at))]
fn param(alloc: Global, tokens: &[Token]) -> Result<(Box<Param>, &[Token]), Stop>
    ensures value { Gives (λ r. (param_of r.0.value, r.1.now)) result (param_at tokens.now) }
    ensures rest { IfOk result (λ r. length r.1.now < length tokens.now) }
{
    let (ty, rest) = type_words(alloc, tokens)?;
    let (word, rest) = word(rest)?;
    let (sign, rest) = array_sign(rest)?;
    let (is_array, end) = match sign {
        None => (false, word.span),
        Some(close) => (true, close),
    };
    let span = ty.span.to(end);
    let param = Param {
        ty,
        word,
        is_array,
        span,
    };
    in_box(alloc, param, rest)
}

/// One parameter or more, with commas.
fn param_list(alloc: Global, tokens: &[Token]) -> Result<(Vec<Param>, &[Token]), Stop>
    ensures value { Gives (λ r. (map param_of r.0.items, r.1.now)) result (list_at param_at (length tokens.now + 1) tokens.now) }
    ensures rest { IfOk result (λ r. length r.1.now ≤ length tokens.now) }
{
    let mut all = Vec::new(alloc);
    let mut rest = tokens;
    'each: loop {
        let (next, after) = param(alloc, rest)?;
        all = with_boxed(all, next)?;
        if !starts_with(Mark::Comma, after) {
            return Ok((all, after));
        }
        rest = tail(after);
    }
}

/// Whether `void` stands here, and a closing bracket after it.
fn only_void(tokens: &[Token]) -> bool
    ensures { result ≡ only_void tokens.now }
{
    match tokens {
        [] => false,
        [first, rest @ ..] => first.kind.is(Mark::Void) && starts_with(Mark::ParenClose, rest),
    }
}

/// The parameters before a closing bracket: `void` alone is none.
#[tactic(auto, unfolding(crate::specs::reader::Programs::params_at, crate::specs::reader::Readers::listed_at))]
fn params(alloc: Global, tokens: &[Token]) -> Result<(Vec<Param>, &[Token]), Stop>
    ensures value { Gives (λ r. (map param_of r.0.items, r.1.now)) result (params_at tokens.now) }
    ensures rest { IfOk result (λ r. length r.1.now ≤ length tokens.now) }
{
    if only_void(tokens) {
        return Ok((Vec::new(alloc), tail(tokens)));
    }
    if starts_with(Mark::ParenClose, tokens) {
        return Ok((Vec::new(alloc), tokens));
    }
    param_list(alloc, tokens)
}

/// The parameters in brackets, and where the brackets stand.
fn closed_params(
    alloc: Global,
    tokens: &[Token],
) -> Result<((Span, (Vec<Param>, Span)), &[Token]), Stop>
    ensures value { Gives (λ r. ((r.0.0, (map param_of r.0.1.0.items, r.0.1.1)), r.1.now)) result (both (mark_at Mark.ParenOpen) (both params_at (mark_at Mark.ParenClose)) tokens.now) }
    ensures rest { IfOk result (λ r. length r.1.now < length tokens.now) }
{
    let (open, rest) = mark(Mark::ParenOpen, tokens)?;
    let (params, rest) = params(alloc, rest)?;
    let ((params, close), rest) = closed_by(Mark::ParenClose, params, rest)?;
    Ok(((open, (params, close)), rest))
}

/// A function up to its body: its words, its type, its name and its parameters.
#[derive(Drop)]
pub struct Heading {
    pub linkages: Vec<Linkage>,
    pub result: TypeWords,
    pub word: Word,
    pub params: Vec<Param>,
}

#[tactic(auto, unfolding(crate::specs::reader::Programs::signature_at))]
fn signature(alloc: Global, tokens: &[Token]) -> Result<(Box<Heading>, &[Token]), Stop>
    ensures value { Gives (λ r. (signature_of r.0.value, r.1.now)) result (signature_at tokens.now) }
    ensures rest { IfOk result (λ r. length r.1.now < length tokens.now) }
{
    let (linkages, rest) = linkages(alloc, tokens)?;
    let (result, rest) = type_words(alloc, rest)?;
    let (word, rest) = word(rest)?;
    let ((_open, (params, _close)), rest) = closed_params(alloc, rest)?;
    let heading = Heading {
        linkages,
        result,
        word,
        params,
    };
    in_box(alloc, heading, rest)
}

/// A function made of its parts.
fn with_body(start: Span, heading: Box<Heading>, body: Block) -> Function
    ensures { function_of result ≡ function_from start (signature_of heading.value) (block_of body) }
{
    let heading = Box::into_inner(heading);
    let span = start.to(body.span);
    Function {
        linkages: heading.linkages,
        result: heading.result,
        word: heading.word,
        params: heading.params,
        body,
        span,
    }
}

/// A function with a body no deeper than `left`.
#[tactic(auto, unfolding(crate::specs::reader::Programs::function_at))]
pub fn function(
    alloc: Global,
    left: usize,
    tokens: &[Token],
) -> Result<(Box<Function>, &[Token]), Stop>
    ensures value { Gives (λ r. (function_of r.0.value, r.1.now)) result (function_at left tokens.now) }
    ensures rest { IfOk result (λ r. length r.1.now < length tokens.now) }
{
    let start = first_span(tokens);
    let (heading, rest) = signature(alloc, tokens)?;
    let (body, rest) = block(alloc, left, rest)?;
    in_box(alloc, with_body(start, heading, body), rest)
}

/// The functions up to the end of the text.
pub fn program(alloc: Global, tokens: &[Token]) -> Result<Vec<Function>, Stop>
    ensures { Gives (λ fs. functions_of fs.items) result (program_at limit tokens.now) }
{
    let mut all = Vec::new(alloc);
    let mut rest = tokens;
    'each: while !rest.is_empty() {
        let (next, after) = function(alloc, DEPTH_LIMIT, rest)?;
        all = with_boxed(all, next)?;
        rest = after;
    }
    Ok(all)
}
