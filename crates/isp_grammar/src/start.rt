//! How statements begin.
ghost use Rattle.std.specs.Prelude.{◌≡◌};
ghost use Rattle.isp_grammar.specs.reader.Starts.{start_of_mark, start_of};

use isp_lex::{Mark, TokenKind};
use isp_tree::{Form, Jump, Tiling};

/// What a first token says of its statement.
#[derive(Clone, Copy)]
pub enum Start {
    Block,
    Empty,
    Declare,
    Simple,
    If(Form),
    While(Form),
    Do(Form),
    For(Form),
    Foreach(Tiling),
    ForeachActive,
    ForeachUnique,
    Unmasked,
    Jump(Jump),
    Return,
    Print,
    Assert,
    Nothing,
}

/// What a token of this kind says of a statement that begins with it.
pub fn stmt_start(kind: &TokenKind) -> Start
    ensures { result ≡ start_of kind.now }
{
    match kind {
        TokenKind::Word(_) | TokenKind::Number(_) => Start::Simple,
        TokenKind::Text(_) | TokenKind::LeftOut => Start::Nothing,
        TokenKind::Mark(mark) => start_of_mark(*mark),
    }
}

fn start_of_mark(mark: Mark) -> Start
    ensures { result ≡ start_of_mark mark }
{
    match mark {
        Mark::BraceOpen => Start::Block,
        Mark::Semicolon => Start::Empty,
        Mark::Void
        | Mark::Bool
        | Mark::Int
        | Mark::Int8
        | Mark::Int16
        | Mark::Int32
        | Mark::Int64
        | Mark::Uint
        | Mark::Uint8
        | Mark::Uint16
        | Mark::Uint32
        | Mark::Uint64
        | Mark::Signed
        | Mark::Unsigned
        | Mark::Const
        | Mark::Uniform
        | Mark::Varying => Start::Declare,
        Mark::ParenOpen
        | Mark::Increment
        | Mark::Minus
        | Mark::Decrement
        | Mark::Inverse
        | Mark::Not
        | Mark::True
        | Mark::False
        | Mark::ProgramIndex
        | Mark::ProgramCount => Start::Simple,
        Mark::If => Start::If(Form::Plain),
        Mark::Cif => Start::If(Form::Coherent),
        Mark::While => Start::While(Form::Plain),
        Mark::Cwhile => Start::While(Form::Coherent),
        Mark::Do => Start::Do(Form::Plain),
        Mark::Cdo => Start::Do(Form::Coherent),
        Mark::For => Start::For(Form::Plain),
        Mark::Cfor => Start::For(Form::Coherent),
        Mark::Foreach => Start::Foreach(Tiling::Plain),
        Mark::ForeachTiled => Start::Foreach(Tiling::Tiled),
        Mark::ForeachActive => Start::ForeachActive,
        Mark::ForeachUnique => Start::ForeachUnique,
        Mark::Unmasked => Start::Unmasked,
        Mark::Break => Start::Jump(Jump::Break),
        Mark::Continue => Start::Jump(Jump::Continue),
        Mark::Return => Start::Return,
        Mark::Print => Start::Print,
        Mark::Assert => Start::Assert,
        _ => Start::Nothing,
    }
}
