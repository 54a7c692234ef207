//! Texts in quotes.
ghost use Rattle.std.specs.Prelude.{◌≡◌, ◌+◌, ◌<◌, ◌^◌, length, IfOk, IfErr, true};
ghost use Rattle.isp_lex.specs.Bytes.{next_is};
ghost use Rattle.isp_lex.specs.reader.Pieces.{Front, StopsAt};
ghost use Rattle.isp_lex.specs.reader.Quotes.{escape_at, said_at};
ghost use Rattle.isp_lex.specs.Texts as class;

use crate::bytes::{has, rest};
use crate::fault::{Rule, SourceFault};
use crate::piece::{Piece, refused};
use crate::text::Text;
use crate::token::TokenKind;
use std::alloc::Global;

/// What a character or an escape of a text says.
#[derive(Clone, Copy)]
pub(crate) enum Said {
    /// A byte, and how many bytes of the source say it.
    Byte(u8, usize),
    /// Nothing: the text goes on for so many bytes and then stops.
    Stops(usize),
}

fn is_plain(byte: u8) -> bool
    ensures { result ≡ class.is_plain byte }
{
    byte >= 32 && byte != 127 && byte != b'"' && byte != b'\\'
}

/// What a backslash with this byte after it says.
fn escaped(byte: u8) -> Option<u8>
    ensures { result ≡ class.escaped byte }
{
    match byte {
        b'n' => Some(b'\n'),
        b't' => Some(b'\t'),
        b'r' => Some(b'\r'),
        b'\\' => Some(b'\\'),
        b'"' => Some(b'"'),
        _ => None,
    }
}

/// What stands after a backslash.
fn escape(more: &[u8]) -> Said
    ensures { result ≡ escape_at more.now }
{
    match more.first() {
        Some(byte) => match escaped(*byte) {
            Some(says) => Said::Byte(says, 2),
            None => Said::Stops(1),
        },
        None => Said::Stops(1),
    }
}

/// What the first character or escape of the bytes says.
fn next_said(more: &[u8]) -> Said
    ensures { result ≡ said_at more.now }
{
    match more.split_first() {
        Some((b'\\', behind)) => escape(behind),
        Some((byte, _)) if is_plain(*byte) => Said::Byte(*byte, 1),
        _ => Said::Stops(0),
    }
}

/// The text in quotes that a source begins with, where it stands at a place.
pub(crate) fn quoted(alloc: Global, text: &[u8], place: usize) -> Result<Piece, SourceFault>
    requires room { place + length text.now < 2 ^ 64 }
    requires quote { next_is 34 text.now ≡ true }
    ensures ok { IfOk result (λ p. Front text.now p) }
    ensures err { IfErr result (λ e. StopsAt place e text.now) }
{
    let mut bytes = Vec::new(alloc);
    let mut at = 1;
    while !has(text, at, b'"') {
        match next_said(rest(text, at)) {
            Said::Byte(byte, len) => {
                bytes.push(byte)?;
                at += len;
            }
            Said::Stops(len) => return Err(refused(Rule::BadText, place, place + at + len)),
        }
    }
    Ok(Piece {
        token: Some(TokenKind::Text(Text::new(bytes))),
        len: at + 1,
    })
}
