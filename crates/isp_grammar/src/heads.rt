//! What stands before the body of a loop.
ghost use Rattle.std.specs.Prelude.{◌≡◌, ◌≤◌, ◌<◌, IfOk, length};
ghost use Rattle.isp_grammar.specs.declared.heads.Loop.TheVariants as loops;
ghost use Rattle.isp_grammar.specs.reader.Readers.{Gives};
ghost use Rattle.isp_grammar.specs.reader.Stmts.{heading_of, heading_at};

use crate::parts::{ForHead, maybe_expr, maybe_first, maybe_step, ranges, test, unique_parts};
use crate::reading::{closed_by, in_box, mark, word};
use crate::stop::Stop;
use isp_lex::{Mark, Token};
use isp_tree::{Expr, Form, Range, Tiling, Word};
use std::alloc::Global;

/// A loop whose body stands last.
#[derive(Clone, Copy)]
pub enum Loop {
    While(Form),
    For(Form),
    Foreach(Tiling),
    ForeachActive,
    ForeachUnique,
}

/// What stands before the body of a loop.
#[derive(Drop)]
pub enum LoopHead {
    While(Form, Box<Expr>),
    For(Form, ForHead),
    Foreach(Tiling, Vec<Range>),
    ForeachActive(Word),
    ForeachUnique(Word, Box<Expr>),
}

/// The first part, the test and the step of a `for` in brackets.
#[tactic(auto, unfolding(crate::specs::reader::Stmts::head_at))]
fn for_head(
    alloc: Global,
    left: usize,
    form: Form,
    tokens: &[Token],
) -> Result<(Box<LoopHead>, &[Token]), Stop>
    ensures value { Gives (λ r. (heading_of r.0.value, r.1.now)) result (heading_at left (loops.For form) tokens.now) }
    ensures rest { IfOk result (λ r. length r.1.now < length tokens.now) }
{
    let (_open, rest) = mark(Mark::ParenOpen, tokens)?;
    let ((first, _semicolon), rest) = maybe_first(alloc, left, rest)?;
    let ((test, _semicolon), rest) = maybe_expr(alloc, left, rest)?;
    let ((step, _close), rest) = maybe_step(alloc, left, rest)?;
    let head = LoopHead::For(form, ForHead { first, test, step });
    in_box(alloc, head, rest)
}

/// The ranges of a `foreach` in brackets.
#[tactic(auto, unfolding(crate::specs::reader::Stmts::ranges_head_at))]
fn foreach_head(
    alloc: Global,
    left: usize,
    tiling: Tiling,
    tokens: &[Token],
) -> Result<(Box<LoopHead>, &[Token]), Stop>
    ensures value { Gives (λ r. (heading_of r.0.value, r.1.now)) result (heading_at left (loops.Foreach tiling) tokens.now) }
    ensures rest { IfOk result (λ r. length r.1.now < length tokens.now) }
{
    let (_open, rest) = mark(Mark::ParenOpen, tokens)?;
    let (ranges, rest) = ranges(alloc, left, rest)?;
    let ((ranges, _close), rest) = closed_by(Mark::ParenClose, ranges, rest)?;
    in_box(alloc, LoopHead::Foreach(tiling, ranges), rest)
}

/// The name of a `foreach_active` in brackets.
#[tactic(auto, unfolding(crate::specs::reader::Stmts::active_head_at))]
fn active_head(alloc: Global, tokens: &[Token]) -> Result<(Box<LoopHead>, &[Token]), Stop>
    ensures value { Gives (λ r. (heading_of r.0.value, r.1.now)) result (heading_at 0 loops.ForeachActive tokens.now) }
    ensures rest { IfOk result (λ r. length r.1.now < length tokens.now) }
{
    let (_open, rest) = mark(Mark::ParenOpen, tokens)?;
    let (word, rest) = word(rest)?;
    let ((word, _close), rest) = closed_by(Mark::ParenClose, word, rest)?;
    in_box(alloc, LoopHead::ForeachActive(word), rest)
}

/// The name and the value of a `foreach_unique` in brackets.
#[tactic(auto, unfolding(crate::specs::reader::Stmts::unique_head_at))]
fn unique_head(
    alloc: Global,
    left: usize,
    tokens: &[Token],
) -> Result<(Box<LoopHead>, &[Token]), Stop>
    ensures value { Gives (λ r. (heading_of r.0.value, r.1.now)) result (heading_at left loops.ForeachUnique tokens.now) }
    ensures rest { IfOk result (λ r. length r.1.now < length tokens.now) }
{
    let (_open, rest) = mark(Mark::ParenOpen, tokens)?;
    let (parts, rest) = unique_parts(alloc, left, rest)?;
    let (((word, value), _close), rest) = closed_by(Mark::ParenClose, parts, rest)?;
    in_box(alloc, LoopHead::ForeachUnique(word, value), rest)
}

/// What stands before the body of this loop.
pub fn loop_head(
    alloc: Global,
    left: usize,
    which: Loop,
    tokens: &[Token],
) -> Result<(Box<LoopHead>, &[Token]), Stop>
    ensures value { Gives (λ r. (heading_of r.0.value, r.1.now)) result (heading_at left which tokens.now) }
    ensures rest { IfOk result (λ r. length r.1.now < length tokens.now) }
{
    match which {
        Loop::While(form) => {
            let (test, rest) = test(alloc, left, tokens)?;
            in_box(alloc, LoopHead::While(form, test), rest)
        }
        Loop::For(form) => for_head(alloc, left, form, tokens),
        Loop::Foreach(tiling) => foreach_head(alloc, left, tiling, tokens),
        Loop::ForeachActive => active_head(alloc, tokens),
        Loop::ForeachUnique => unique_head(alloc, left, tokens),
    }
}
