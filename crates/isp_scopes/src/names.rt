//! The names at a place.
ghost use Rattle.std.specs.Prelude.{◌≡◌, ◌≤◌, ◌++◌, ◌∷◌, [], ℕ, List, true, if◌then◌else◌, IfOk, OnOk, bytes_eq, filter, length, map};
ghost use Rattle.std.specs.BTreeSet.{contains_text};
ghost use Rattle.isp_lex.specs.Listed.{AreTokens};
ghost use Rattle.isp_scopes.specs.Scopes.{AreApart, each_once, functions_of, is_variable, name_at, name_of, variables_of};

use crate::functions::functions;
use crate::scopes::{Scoped, is_variable, scopes};
use isp_lex::{Token, TokenKind, Tokens, token_laws};
use std::alloc::{AllocError, Global};
use std::collections::BTreeSet;

/// The names at a place, each once, by the numbers of the tokens that declare them.
#[derive(Drop)]
pub struct Names {
    /// Among the tokens before the place.
    pub variables: Vec<usize>,
    /// Among the tokens of the text.
    pub functions: Vec<usize>,
}

fn name_of(kind: &TokenKind) -> &str
    ensures { result.now ≡ name_of kind.now }
{
    match kind {
        TokenKind::Word(name) => name.as_str(),
        _ => "",
    }
}

/// The name that a token is, by its number. It is empty where there is none.
pub fn name_at(tokens: &[Token], at: usize) -> &str
    ensures { result.now ≡ name_at tokens.now at }
{
    match tokens.get(at) {
        Some(token) => name_of(&token.kind),
        None => "",
    }
}

fn push_unless(found: &mut Vec<usize>, token: usize, hidden: bool) -> Result<(), AllocError>
    ensures { OnOk result (found.new.items ≡ found.old.items ++ (if hidden then [] else token ∷ [])) }
{
    if !hidden {
        found.push(token)?;
    }
    Ok(())
}

// One more name that was seen.
fn see(alloc: Global, seen: &mut BTreeSet<String>, name: &str) -> Result<(), AllocError>
    ensures { OnOk result ((w : List ℕ) → contains_text seen.new w ≡ (if bytes_eq name.now w then true else contains_text seen.old w)) }
{
    let key = String::from_str(alloc, name)?;
    seen.insert(key)?;
    Ok(())
}

fn each_once(alloc: Global, tokens: &[Token], found: &[usize]) -> Result<Vec<usize>, AllocError>
    ensures is { IfOk result (λ v. v.items ≡ each_once tokens.now found.now) }
    ensures apart { IfOk result (λ v. AreApart tokens.now v.items) }
{
    let mut once = Vec::new(alloc);
    let mut seen = BTreeSet::new(alloc);
    let mut left = found.len();
    while left > 0 {
        left -= 1;
        let token = found[left];
        let name = name_at(tokens, token);
        let hidden = seen.contains(name);
        push_unless(&mut once, token, hidden)?;
        see(alloc, &mut seen, name)?;
    }
    once.reverse();
    Ok(once)
}

fn in_scope(alloc: Global, found: &[Scoped]) -> Result<Vec<usize>, AllocError>
    ensures { IfOk result (λ v. v.items ≡ map (λ x. x.token) (filter (λ x. is_variable x.what) found.now)) }
{
    found
        .iter()
        .filter(|x| is_variable(x.what))
        .map(|x| x.token)
        .collect(alloc)
}

fn variables_of(alloc: Global, tokens: &[Token]) -> Result<Vec<usize>, AllocError>
    requires { length tokens.now ≤ 1048576 }
    ensures is { IfOk result (λ v. v.items ≡ variables_of tokens.now) }
    ensures apart { IfOk result (λ v. AreApart tokens.now v.items) }
{
    let found = scopes(alloc, tokens)?;
    let found = in_scope(alloc, &found)?;
    each_once(alloc, tokens, &found)
}

fn functions_of(alloc: Global, tokens: &[Token]) -> Result<Vec<usize>, AllocError>
    requires { length tokens.now ≤ 1048576 }
    ensures is { IfOk result (λ v. v.items ≡ functions_of tokens.now) }
    ensures apart { IfOk result (λ v. AreApart tokens.now v.items) }
{
    let found = functions(alloc, tokens)?;
    each_once(alloc, tokens, &found)
}

fn few(tokens: &Tokens) -> &[Token]
    ensures is { result.now ≡ tokens.now.items }
    ensures short { length result.now ≤ 1048576 }
{
    token_laws();
    tokens.as_slice()
}

/// The names at a place: the variables in scope there, by the tokens of the text before it, and the functions, by those of the whole text.
pub fn names_before(alloc: Global, before: &Tokens, all: &Tokens) -> Result<Names, AllocError>
    ensures variables { IfOk result (λ n. n.variables.items ≡ variables_of before.now.items) }
    ensures functions { IfOk result (λ n. n.functions.items ≡ functions_of all.now.items) }
    ensures once { IfOk result (λ n. AreApart before.now.items n.variables.items × AreApart all.now.items n.functions.items) }
{
    let variables = variables_of(alloc, few(before))?;
    let functions = functions_of(alloc, few(all))?;
    Ok(Names {
        variables,
        functions,
    })
}
