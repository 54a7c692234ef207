//! What a token is to scopes.
ghost use Rattle.std.specs.Prelude.{◌≡◌};
ghost use Rattle.isp_scopes.specs.Signs.{of_mark, sign_of};

use isp_lex::{Mark, TokenKind};

/// What a token is to scopes.
#[derive(Clone, Copy)]
pub enum Sign {
    Word,
    /// A word of a type, as `uniform`.
    TypeWord,
    /// A loop whose brackets begin with a name, as `foreach`.
    Foreach,
    If,
    Do,
    /// Any other word after which a statement is the body of another, as `while`.
    Body,
    Paren,
    Bracket,
    /// `)` or `]`.
    Close,
    Comma,
    Semicolon,
    BlockOpen,
    BlockClose,
    Other,
}

pub fn sign_of(kind: &TokenKind) -> Sign
    ensures { result ≡ sign_of kind.now }
{
    match kind {
        TokenKind::Word(_) => Sign::Word,
        TokenKind::Mark(mark) => of_mark(*mark),
        TokenKind::Number(_) | TokenKind::Text(_) | TokenKind::LeftOut => Sign::Other,
    }
}

fn of_mark(mark: Mark) -> Sign
    ensures { result ≡ of_mark mark }
{
    match mark {
        Mark::Const
        | Mark::Uniform
        | Mark::Varying
        | Mark::Signed
        | Mark::Unsigned
        | Mark::Void
        | Mark::Bool
        | Mark::Int
        | Mark::Int8
        | Mark::Int16
        | Mark::Int32
        | Mark::Int64
        | Mark::Uint
        | Mark::Uint8
        | Mark::Uint16
        | Mark::Uint32
        | Mark::Uint64 => Sign::TypeWord,
        Mark::Foreach | Mark::ForeachTiled | Mark::ForeachActive | Mark::ForeachUnique =>
            Sign::Foreach,
        Mark::If | Mark::Cif => Sign::If,
        Mark::Do | Mark::Cdo => Sign::Do,
        Mark::While | Mark::Cwhile | Mark::For | Mark::Cfor | Mark::Else => Sign::Body,
        Mark::ParenOpen => Sign::Paren,
        Mark::BracketOpen => Sign::Bracket,
        Mark::ParenClose | Mark::BracketClose => Sign::Close,
        Mark::Comma => Sign::Comma,
        Mark::Semicolon => Sign::Semicolon,
        Mark::BraceOpen => Sign::BlockOpen,
        Mark::BraceClose => Sign::BlockClose,
        _ => Sign::Other,
    }
}
