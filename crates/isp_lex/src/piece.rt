//! What a text begins with.
ghost use Rattle.std.specs.Prelude.{◌≡◌, ◌+◌, ◌<◌, ◌^◌, IfErr, OnOk};
ghost use Rattle.isp_lex.specs.reader.Pieces.{with_piece};
ghost use Rattle.isp_lex.specs.Faults.{fault};
ghost use Rattle.isp_lex.specs.declared.fault.SourceFault.TheVariants.{Memory, Refused};

use crate::fault::{Fault, Rule, SourceFault};
use crate::token::{Token, TokenKind};
use isp_base::Span;

/// What a text begins with, and its length in bytes.
#[derive(Drop)]
pub(crate) struct Piece {
    /// `None` for what is passed over.
    pub(crate) token: Option<TokenKind>,
    pub(crate) len: usize,
}

/// The refusal of the bytes from a place to another.
pub(crate) fn refused(rule: Rule, start: usize, end: usize) -> SourceFault
    ensures { result ≡ Refused (fault rule (record { start = start; end = end })) }
{
    SourceFault::Refused(Fault {
        rule,
        span: Span { start, end },
    })
}

/// Adds a piece that is a token, which stands at a place.
pub(crate) fn keep(tokens: &mut Vec<Token>, piece: Piece, place: usize) -> Result<(), SourceFault>
    requires { place + piece.len < 2 ^ 64 }
    ensures ok { OnOk result (tokens.new.items ≡ with_piece tokens.old.items place piece) }
    ensures err { IfErr result (λ e. e ≡ Memory) }
{
    let len = piece.len;
    if let Some(kind) = piece.token {
        tokens.push(Token {
            kind,
            span: Span {
                start: place,
                end: place + len,
            },
        })?;
    }
    Ok(())
}
