//! Where one stands in a text after some of its tokens.
ghost use Rattle.std.specs.Prelude.{◌≡◌, ◌≤◌, ◌<◌, ◌+◌, ◌^◌};
ghost use Rattle.isp_scopes.specs.Scopes.{after_paren, declares, ends, goes_on, moved, start, still};

use crate::sign::Sign;

/// What the next token may declare.
#[derive(Clone, Copy)]
pub enum Next {
    Nothing,
    /// A bracket that comes next begins with a name that is declared.
    Heading,
    /// A word that comes next is declared.
    Name,
}

/// Where one stands in a text after some of its tokens.
#[derive(Clone, Copy)]
pub struct Standing {
    /// How many blocks are open.
    pub depth: usize,
    /// How many brackets of the statement are open.
    pub brackets: usize,
    pub next: Next,
    /// At how many open brackets a comma goes on with a declaration.
    pub commas: Option<usize>,
}

/// Before the first token.
pub fn start() -> Standing
    ensures { result ≡ start }
{
    Standing {
        depth: 0,
        brackets: 0,
        next: Next::Nothing,
        commas: None,
    }
}

/// Whether a token declares a variable.
pub fn declares(sign: Sign, at: Standing) -> bool
    ensures { result ≡ declares sign at }
{
    match (sign, at.next) {
        (Sign::Word, Next::Name) => !(at.depth == 0 && at.brackets == 0),
        _ => false,
    }
}

/// Whether a statement ends with a token.
pub fn ends(sign: Sign, at: Standing) -> bool
    ensures { result ≡ ends sign at }
{
    match sign {
        Sign::Semicolon => at.brackets == 0,
        Sign::BlockClose => true,
        _ => false,
    }
}

fn after_paren(next: Next) -> Next
    ensures { result ≡ after_paren next }
{
    match next {
        Next::Heading => Next::Name,
        Next::Nothing | Next::Name => Next::Nothing,
    }
}

fn goes_on(brackets: usize, commas: Option<usize>) -> bool
    ensures { result ≡ goes_on brackets commas }
{
    match commas {
        Some(count) => count == brackets,
        None => false,
    }
}

fn still(brackets: usize, commas: Option<usize>) -> Option<usize>
    ensures { result ≡ still brackets commas }
{
    match commas {
        Some(count) if count <= brackets => commas,
        _ => None,
    }
}

fn after_word(at: Standing) -> Standing
    ensures { result ≡ moved Sign.Word at }
{
    let commas = if declares(Sign::Word, at) {
        Some(at.brackets)
    } else {
        at.commas
    };
    Standing {
        next: Next::Nothing,
        commas,
        ..at
    }
}

fn after_comma(at: Standing) -> Standing
    ensures { result ≡ moved Sign.Comma at }
{
    let next = if goes_on(at.brackets, at.commas) {
        Next::Name
    } else {
        Next::Nothing
    };
    Standing { next, ..at }
}

fn after_close(at: Standing) -> Standing
    ensures { result ≡ moved Sign.Close at }
{
    let brackets = at.brackets.saturating_sub(1);
    Standing {
        brackets,
        next: Next::Nothing,
        commas: still(brackets, at.commas),
        ..at
    }
}

fn in_block(depth: usize) -> Standing
    ensures { result ≡ record start { depth = depth } }
{
    Standing { depth, ..start() }
}

/// Where one stands after one more token.
pub fn moved(sign: Sign, at: Standing) -> Standing
    requires depth { at.depth + 1 < 2 ^ 64 }
    requires brackets { at.brackets + 1 < 2 ^ 64 }
    ensures is { result ≡ moved sign at }
    ensures depth { result.depth ≤ at.depth + 1 }
    ensures brackets { result.brackets ≤ at.brackets + 1 }
{
    match sign {
        Sign::Word => after_word(at),
        Sign::TypeWord => Standing {
            next: Next::Name,
            ..at
        },
        Sign::Foreach => Standing {
            next: Next::Heading,
            ..at
        },
        Sign::Paren => Standing {
            brackets: at.brackets + 1,
            next: after_paren(at.next),
            ..at
        },
        Sign::Bracket => Standing {
            brackets: at.brackets + 1,
            next: Next::Nothing,
            ..at
        },
        Sign::Close => after_close(at),
        Sign::Comma => after_comma(at),
        Sign::Semicolon => Standing {
            next: Next::Nothing,
            commas: None,
            ..at
        },
        Sign::BlockOpen => in_block(at.depth + 1),
        Sign::BlockClose => in_block(at.depth.saturating_sub(1)),
        Sign::If | Sign::Do | Sign::Body | Sign::Other => Standing {
            next: Next::Nothing,
            ..at
        },
    }
}
