//! What is in scope after some tokens.
ghost use Rattle.std.specs.Prelude.{◌≡◌, ◌≤◌, ◌==◌, ◌&&◌, [], not, if◌then◌else◌, IfOk, OnOk, length, reverse};
ghost use Rattle.isp_lex.specs.Tokens.{starts_with};
ghost use Rattle.isp_scopes.specs.Scopes.{added, in_statement, is_resumed, is_variable, left, moved, outlives, resumed, scan, start, stays, with_added, with_token};

use crate::sign::{Sign, sign_of};
use crate::standing::{Standing, declares, ends, moved, start};
use isp_lex::{Mark, Token};
use std::alloc::{AllocError, Global};

/// What is in scope, or open.
#[derive(Clone, Copy)]
pub enum What {
    /// A variable, up to the end of its block.
    OfBlock,
    /// A variable, up to the end of its statement.
    OfStatement,
    /// A statement that `else` may go on with.
    If,
    /// One that `while` goes on with.
    Do,
    /// Any other that has a statement as its body.
    Body,
}

/// What is in scope, or open: the number of its token, and how many blocks are open there.
#[derive(Clone, Copy)]
pub struct Scoped {
    pub token: usize,
    pub depth: usize,
    pub what: What,
}

/// Whether the first token is this mark.
pub fn starts_with(mark: Mark, tokens: &[Token]) -> bool
    ensures { result ≡ starts_with mark tokens.now }
{
    match tokens {
        [] => false,
        [first, ..] => first.kind.is(mark),
    }
}

/// Whether this is a variable.
pub fn is_variable(what: What) -> bool
    ensures { result ≡ is_variable what }
{
    match what {
        What::OfBlock | What::OfStatement => true,
        What::If | What::Do | What::Body => false,
    }
}

fn outlives(what: What) -> bool
    ensures { result ≡ outlives what }
{
    match what {
        What::OfBlock => true,
        _ => false,
    }
}

fn stays(depth: usize, scoped: Scoped) -> bool
    ensures { result ≡ stays depth scoped }
{
    scoped.depth < depth || (scoped.depth == depth && outlives(scoped.what))
}

fn in_statement(depth: usize, found: &[Scoped]) -> bool
    ensures { result ≡ in_statement depth (reverse found.now) }
{
    match found {
        [] => false,
        [.., last] => !stays(depth, *last),
    }
}

fn declared(at: Standing, found: &[Scoped]) -> What
    ensures { result ≡ (if at.brackets == 0 && not (in_statement at.depth (reverse found.now)) then What.OfBlock else What.OfStatement) }
{
    if at.brackets == 0 && !in_statement(at.depth, found) {
        What::OfBlock
    } else {
        What::OfStatement
    }
}

fn added(sign: Sign, at: Standing, found: &[Scoped]) -> Option<What>
    ensures { result ≡ added sign at (reverse found.now) }
{
    match sign {
        Sign::Word => if declares(sign, at) {
            Some(declared(at, found))
        } else {
            None
        },
        Sign::Foreach | Sign::Body => Some(What::Body),
        Sign::If => Some(What::If),
        Sign::Do => Some(What::Do),
        _ => None,
    }
}

fn resumed(rest: &[Token], what: What) -> bool
    ensures { result ≡ resumed rest.now what }
{
    match what {
        What::If => starts_with(Mark::Else, rest),
        What::Do => starts_with(Mark::While, rest),
        _ => false,
    }
}

fn is_resumed(rest: &[Token], depth: usize, found: &[Scoped]) -> bool
    ensures { result ≡ is_resumed rest.now depth (reverse found.now) }
{
    match found {
        [] => false,
        [.., last] => last.depth == depth && resumed(rest, last.what),
    }
}

// A statement has ended in a block of this depth.
fn close(found: &mut Vec<Scoped>, rest: &[Token], depth: usize)
    ensures { reverse found.new.items ≡ left rest.now depth (reverse found.old.items) }
{
    while in_statement(depth, found.as_slice()) {
        let resumed = is_resumed(rest, depth, found.as_slice());
        found.pop();
        if resumed {
            return;
        }
    }
}

fn add(
    found: &mut Vec<Scoped>,
    what: Option<What>,
    token: usize,
    depth: usize,
) -> Result<(), AllocError>
    ensures { OnOk result (reverse found.new.items ≡ with_added what token depth (reverse found.old.items)) }
{
    if let Some(what) = what {
        found.push(Scoped { token, depth, what })?;
    }
    Ok(())
}

// What is in scope after one more token.
fn pass(
    found: &mut Vec<Scoped>,
    rest: &[Token],
    token: usize,
    sign: Sign,
    at: Standing,
    after: Standing,
) -> Result<(), AllocError>
    ensures { OnOk result (after ≡ moved sign at → reverse found.new.items ≡ with_token rest.now token sign at (reverse found.old.items)) }
{
    if ends(sign, at) {
        close(found, rest, after.depth);
        return Ok(());
    }
    let what = added(sign, at, found.as_slice());
    add(found, what, token, at.depth)
}

/// What is in scope after some tokens, the outermost first.
pub fn scopes(alloc: Global, tokens: &[Token]) -> Result<Vec<Scoped>, AllocError>
    requires { length tokens.now ≤ 1048576 }
    ensures { IfOk result (λ v. reverse v.items ≡ scan 0 start [] tokens.now) }
{
    let mut found = Vec::new(alloc);
    let mut at = start();
    for (i, token) in tokens.iter().enumerate() {
        let sign = sign_of(&token.kind);
        let after = moved(sign, at);
        pass(&mut found, &tokens[i + 1..], i, sign, at, after)?;
        at = after;
    }
    Ok(found)
}
