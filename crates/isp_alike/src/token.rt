//! Whether two texts have the same tokens but for a name.
ghost use Rattle.std.specs.Prelude.{◌≡◌, ◌==◌, IsTrue, map};
ghost use Rattle.std.specs.List.{list_any};
ghost use Rattle.isp_alike.specs.Renamed.{kinds, renamed_kind};
ghost use Rattle.isp_lex.specs.declared.token.TokenKind.TheVariants as kind;

use crate::spot::same_value;
use isp_lex::{Mark, Token, TokenKind};

fn same_mark(x: Mark, y: Mark) -> bool
    ensures { IsTrue result → x ≡ y }
{
    x as u8 == y as u8
}

fn same_kind(x: &TokenKind, y: &TokenKind) -> bool
    ensures { IsTrue result → x.now ≡ y.now }
{
    match (x, y) {
        (TokenKind::Word(v), TokenKind::Word(w)) => v.is(w.as_str()),
        (TokenKind::Number(v), TokenKind::Number(w)) => same_value(*v, *w),
        (TokenKind::Text(v), TokenKind::Text(w)) => v.as_slice() == w.as_slice(),
        (TokenKind::Mark(v), TokenKind::Mark(w)) => same_mark(*v, *w),
        (TokenKind::LeftOut, TokenKind::LeftOut) => true,
        _ => false,
    }
}

fn is_word(x: &TokenKind, name: &str) -> bool
    ensures { IsTrue result → x.now ≡ kind.Word name.now }
{
    match x {
        TokenKind::Word(word) => word.is(name),
        _ => false,
    }
}

fn begins(start: usize, starts: &[usize]) -> bool
    ensures { result ≡ list_any (λ other. other == start) starts.now }
{
    starts.contains(&start)
}

fn is_kind(new: &TokenKind, old: &Token, starts: &[usize], name: &str) -> bool
    ensures { IsTrue result → new.now ≡ renamed_kind starts.now name.now old.now }
{
    if begins(old.span.start, starts) {
        is_word(new, name)
    } else {
        same_kind(new, &old.kind)
    }
}

/// Whether tokens are others in which those that begin at some bytes have a new name.
pub fn are_renamed(new: &[Token], old: &[Token], starts: &[usize], name: &str) -> bool
    ensures { IsTrue result → kinds new.now ≡ map (renamed_kind starts.now name.now) old.now }
{
    let mut rest = old;
    for after in new {
        let [before, more @ ..] = rest else {
            return false;
        };
        if !is_kind(&after.kind, before, starts, name) {
            return false;
        }
        rest = more;
    }
    rest.is_empty()
}
