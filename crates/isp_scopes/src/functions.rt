//! The functions of a text.
ghost use Rattle.std.specs.Prelude.{◌≡◌, ◌≤◌, ◌++◌, ◌∷◌, [], false, if◌then◌else◌, IfOk, OnOk, length};
ghost use Rattle.isp_scopes.specs.Scopes.{heads, is_type, is_word};

use crate::scopes::starts_with;
use crate::sign::{Sign, sign_of};
use isp_lex::{Mark, Token};
use std::alloc::{AllocError, Global};

fn is_type(sign: Sign) -> bool
    ensures { result ≡ is_type sign }
{
    match sign {
        Sign::TypeWord => true,
        _ => false,
    }
}

fn is_word(sign: Sign) -> bool
    ensures { result ≡ is_word sign }
{
    match sign {
        Sign::Word => true,
        _ => false,
    }
}

fn push_if(found: &mut Vec<usize>, token: usize, wanted: bool) -> Result<(), AllocError>
    ensures { OnOk result (found.new.items ≡ found.old.items ++ (if wanted then token ∷ [] else [])) }
{
    if wanted {
        found.push(token)?;
    }
    Ok(())
}

/// The functions whose heads stand among some tokens.
pub fn functions(alloc: Global, tokens: &[Token]) -> Result<Vec<usize>, AllocError>
    requires { length tokens.now ≤ 1048576 }
    ensures { IfOk result (λ v. v.items ≡ heads 0 false tokens.now) }
{
    let mut found = Vec::new(alloc);
    let mut typed = false;
    for (i, token) in tokens.iter().enumerate() {
        let sign = sign_of(&token.kind);
        let is_head = typed && is_word(sign) && starts_with(Mark::ParenOpen, &tokens[i + 1..]);
        push_if(&mut found, i, is_head)?;
        typed = is_type(sign);
    }
    Ok(found)
}
