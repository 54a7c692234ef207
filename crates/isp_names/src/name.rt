//! Whether a text is a name that may be given.
ghost use Rattle.std.specs.Prelude.{◌≡◌, ◌≢◌, ◌∷◌, [], IfErr, None, OnOk};
ghost use Rattle.isp_exprs.specs.Callees.{library_named};
ghost use Rattle.isp_lex.specs.declared.token.Token.{Token};
ghost use Rattle.isp_lex.specs.declared.token.TokenKind.TheVariants as kind;
ghost use Rattle.isp_names.specs.Renames.{IsName, MayBeGiven};
ghost use Rattle.isp_names.specs.reader.Naming.{RefusesBy};

use crate::fault::RenameFault;
use isp_base::Name;
use isp_exprs::library_named;
use isp_lex::{SourceFault, Token, TokenKind, lex};
use std::alloc::Global;

fn unless_of_library(word: &Name) -> Result<(), RenameFault>
    ensures ok { OnOk result (library_named word.now ≡ None) }
    ensures err { IfErr result (RefusesBy ⊥ word.now) }
{
    match library_named(word) {
        Some(_) => Err(RenameFault::OfLibrary),
        None => Ok(()),
    }
}

fn unless_another(found: &TokenKind, name: &str) -> Result<(), RenameFault>
    ensures ok { OnOk result ((found.now ≡ kind.Word name.now) × (library_named name.now ≡ None)) }
    ensures err { IfErr result (RefusesBy (found.now ≢ kind.Word name.now) name.now) }
{
    match found {
        TokenKind::Word(word) if word.is(name) => unless_of_library(word),
        _ => Err(RenameFault::NotAName),
    }
}

fn one_word(tokens: &[Token], name: &str) -> Result<(), RenameFault>
    ensures ok { OnOk result ((t : Token) × (tokens.now ≡ t ∷ []) × (t.kind ≡ kind.Word name.now) × (library_named name.now ≡ None)) }
    ensures err { IfErr result (RefusesBy ((t : Token) → tokens.now ≡ t ∷ [] → t.kind ≢ kind.Word name.now) name.now) }
{
    match tokens {
        [token] => unless_another(&token.kind, name),
        _ => Err(RenameFault::NotAName),
    }
}

/// Refuses a new name that is no word, or is reserved, and one that is a function of the library.
pub(crate) fn new_name(alloc: Global, name: &str) -> Result<(), RenameFault>
    ensures ok { OnOk result (MayBeGiven name.now) }
    ensures err { IfErr result (RefusesBy (¬ (IsName name.now)) name.now) }
{
    match lex(alloc, name) {
        Ok(tokens) => one_word(tokens.as_slice(), name),
        Err(SourceFault::Memory) => Err(RenameFault::Memory),
        Err(SourceFault::Refused(_)) => Err(RenameFault::NotAName),
    }
}
