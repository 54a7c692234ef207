//! Statements with what was seen of them.
ghost use Rattle.std.specs.Prelude.{◌≡◌, ◌++◌, drop, length, take};
ghost use Rattle.isp_typed.specs.Views.{stmt_of};
ghost use Rattle.isp_masks_code.specs.Exits.{all_go_on, both_go_on, exits_of, leaving_of};
ghost use Rattle.isp_masks.specs.reader.Seen.{parts_seen, seen_of};

use crate::seen::Seen;
use isp_masks_code::{Exits, Leaving, only_jump};
use isp_typed::TypedStmt;

/// A statement, and what was seen of it and of its parts.
#[derive(Clone, Copy)]
pub(crate) struct Part<'a> {
    pub stmt: &'a TypedStmt,
    pub seen: &'a [Seen],
    ghost own: { seen.now ≡ seen_of (stmt_of stmt.now) },
}

impl<'a> Part<'a> {
    /// Whether instances may break, continue or return from it.
    pub(crate) fn exits(self) -> Exits
        ensures { result ≡ exits_of (stmt_of self.entry.stmt.now) }
    {
        self.seen[0].exits
    }

    /// Whether all instances of a set with members go on after it, whatever happens.
    pub(crate) fn all_go_on(self) -> bool
        ensures { result ≡ all_go_on (stmt_of self.entry.stmt.now) }
    {
        self.exits().is_none()
    }

    /// Whether nobody leaves it or another.
    pub(crate) fn both_go_on(self, other: Part<'a>) -> bool
        ensures { result ≡ both_go_on (stmt_of self.entry.stmt.now) (stmt_of other.entry.stmt.now) }
    {
        self.all_go_on() && other.all_go_on()
    }

    /// How instances leave it.
    pub(crate) fn leaving(self) -> Leaving
        ensures { result ≡ leaving_of (stmt_of self.entry.stmt.now) }
    {
        match only_jump(self.stmt) {
            Some(jump) => Leaving::Always(jump),
            None if self.all_go_on() => Leaving::Never,
            None => Leaving::Maybe,
        }
    }

    /// What was seen of its parts.
    pub(crate) fn inside(self) -> &'a [Seen]
        ensures { result.now ≡ parts_seen (stmt_of self.entry.stmt.now) }
    {
        &self.seen[1..]
    }

    /// Its part.
    pub(crate) fn only(self, x: &'a TypedStmt) -> Part<'a>
        requires { parts_seen (stmt_of self.stmt.now) ≡ seen_of (stmt_of x.now) }
        ensures { result.stmt.now ≡ x.now }
    {
        Part {
            stmt: x,
            seen: self.inside(),
        }
    }

    /// Its two parts.
    pub(crate) fn two(self, x: &'a TypedStmt, y: &'a TypedStmt) -> (Part<'a>, Part<'a>)
        requires { parts_seen (stmt_of self.stmt.now) ≡ seen_of (stmt_of x.now) ++ seen_of (stmt_of y.now) }
        ensures first { result.0.stmt.now ≡ x.now }
        ensures second { result.1.stmt.now ≡ y.now }
    {
        let (first, seen) = split(x, self.inside());
        (first, Part { stmt: y, seen })
    }
}

/// A statement that what was seen begins with, and the rest.
pub(crate) fn split<'a>(x: &'a TypedStmt, seen: &'a [Seen]) -> (Part<'a>, &'a [Seen])
    requires { take (length (seen_of (stmt_of x.now))) seen.now ≡ seen_of (stmt_of x.now) }
    ensures part { result.0.stmt.now ≡ x.now }
    ensures rest { result.1.now ≡ drop (length (seen_of (stmt_of x.now))) seen.entry.now }
{
    let (own, rest) = seen.split_at(seen[0].size);
    (Part { stmt: x, seen: own }, rest)
}
