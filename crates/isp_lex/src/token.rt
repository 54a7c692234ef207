//! Tokens.
ghost use Rattle.std.specs.Prelude.{◌≡◌, ◌↔◌, IsTrue};
ghost use Rattle.isp_lex.specs.Listed.{IsListed};
ghost use Rattle.isp_lex.specs.Tokens.{is_mark};
ghost use Rattle.isp_lex.specs.declared.token.TokenKind.TheVariants as kind;

use crate::text::Text;
use isp_base::{Name, Span, Value};
use std::marker::Model;

/// A token of one spelling: a sign, or a word that the language reserves and uses.
#[derive(Clone, Copy)]
pub enum Mark {
    ParenOpen,
    ParenClose,
    BraceOpen,
    BraceClose,
    BracketOpen,
    BracketClose,
    Semicolon,
    Comma,
    Question,
    Colon,
    Ellipsis,
    Assign,
    Equal,
    NotEqual,
    Less,
    LessEqual,
    Greater,
    GreaterEqual,
    ShiftLeft,
    ShiftRight,
    ShiftLeftAssign,
    ShiftRightAssign,
    Plus,
    Increment,
    PlusAssign,
    Minus,
    Decrement,
    MinusAssign,
    Star,
    StarAssign,
    Slash,
    SlashAssign,
    Percent,
    PercentAssign,
    And,
    AndAnd,
    AndAssign,
    Or,
    OrOr,
    OrAssign,
    Xor,
    XorAssign,
    Inverse,
    Not,
    Void,
    Bool,
    Int,
    Int8,
    Int16,
    Int32,
    Int64,
    Uint,
    Uint8,
    Uint16,
    Uint32,
    Uint64,
    Signed,
    Unsigned,
    Const,
    Uniform,
    Varying,
    Export,
    Static,
    Inline,
    If,
    Cif,
    Else,
    While,
    Cwhile,
    Do,
    Cdo,
    For,
    Cfor,
    Foreach,
    ForeachTiled,
    ForeachActive,
    ForeachUnique,
    Unmasked,
    Break,
    Continue,
    Return,
    Print,
    Assert,
    True,
    False,
    ProgramIndex,
    ProgramCount,
}

/// What a token is.
#[derive(Drop)]
pub enum TokenKind {
    /// A name.
    Word(Name),
    /// A number, with its type.
    Number(Value),
    /// A text in quotes.
    Text(Text),
    /// A sign or a reserved word.
    Mark(Mark),
    /// A word that the language leaves out.
    LeftOut,
}

/// A token, and where it stands: byte places in the source.
#[derive(Drop)]
pub struct Token {
    pub kind: TokenKind,
    pub span: Span,
}

impl TokenKind {
    /// Whether this is the sign or reserved word.
    pub fn is(&self, mark: Mark) -> bool
        ensures exact { IsTrue result ↔ (self.now ≡ kind.Mark mark) }
        ensures value { result ≡ is_mark mark self.now }
    {
        match self {
            TokenKind::Mark(other) => mark as u8 == *other as u8,
            _ => false,
        }
    }
}

/// The tokens of a source text in their order, and the length of the text in bytes. Every list of
/// this type is that of some text of at most 1,048,576 bytes.
#[derive(Drop)]
pub struct Tokens {
    pub(crate) items: Vec<Token>,
    pub(crate) end: usize,
}

impl Model for Tokens {
    ghost use Rattle.isp_lex.specs.Tokens.{TokenList};

    ghost Value = { TokenList };

    ghost use Rattle.isp_lex.specs.Listed.{IsListed};

    ghost view = { λ t. record { items = t.items.items; end = t.end } };

    ghost invariant = { λ t. IsListed (record { items = t.items.items; end = t.end }) };
}

impl Tokens {
    /// The tokens.
    pub fn as_slice(&self) -> &[Token]
        ensures items { result.now ≡ self.now.items }
        ensures listed { IsListed self.now }
    {
        self.items.as_slice()
    }

    /// The length of the source text in bytes.
    pub fn end(&self) -> usize
        ensures { result ≡ self.now.end }
    {
        self.end
    }
}
