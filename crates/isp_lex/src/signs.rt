//! Signs.
ghost use Rattle.std.specs.Prelude.{◌≡◌};
ghost use Rattle.isp_lex.specs.reader.Signs.{assigned, dots, doubled, of_one, shifted, sign_of, single};

use crate::bytes::has;
use crate::token::Mark;

/// A sign of one byte, or the longer one with `=`, and its length.
fn assigned(rest: &[u8], short: Mark, long: Mark) -> (Mark, usize)
    ensures { result ≡ assigned rest.now short long }
{
    if has(rest, 0, b'=') {
        (long, 2)
    } else {
        (short, 1)
    }
}

/// The same, or the sign that has the byte twice.
fn doubled(byte: u8, rest: &[u8], short: Mark, long: Mark, double: Mark) -> (Mark, usize)
    ensures { result ≡ doubled byte rest.now short long double }
{
    if has(rest, 0, byte) {
        (double, 2)
    } else {
        assigned(rest, short, long)
    }
}

/// The same, or the sign that has the byte twice and then `=`.
fn shifted(
    byte: u8,
    rest: &[u8],
    short: Mark,
    long: Mark,
    double: Mark,
    longest: Mark,
) -> (Mark, usize)
    ensures { result ≡ shifted byte rest.now short long double longest }
{
    if !has(rest, 0, byte) {
        return assigned(rest, short, long);
    }
    if has(rest, 1, b'=') {
        (longest, 3)
    } else {
        (double, 2)
    }
}

/// Three dots.
fn dots(rest: &[u8]) -> Option<(Mark, usize)>
    ensures { result ≡ dots rest.now }
{
    if has(rest, 0, b'.') && has(rest, 1, b'.') {
        Some((Mark::Ellipsis, 3))
    } else {
        None
    }
}

/// The sign of one byte that no other sign begins with.
fn single(byte: u8) -> Option<Mark>
    ensures { result ≡ single byte }
{
    Some(match byte {
        b'(' => Mark::ParenOpen,
        b')' => Mark::ParenClose,
        b'{' => Mark::BraceOpen,
        b'}' => Mark::BraceClose,
        b'[' => Mark::BracketOpen,
        b']' => Mark::BracketClose,
        b';' => Mark::Semicolon,
        b',' => Mark::Comma,
        b'?' => Mark::Question,
        b':' => Mark::Colon,
        b'~' => Mark::Inverse,
        _ => return None,
    })
}

/// The longest sign that begins with this byte and goes on with the rest, and its length.
pub(crate) fn sign(byte: u8, rest: &[u8]) -> Option<(Mark, usize)>
    ensures { result ≡ sign_of byte rest.now }
{
    Some(match byte {
        b'=' => assigned(rest, Mark::Assign, Mark::Equal),
        b'!' => assigned(rest, Mark::Not, Mark::NotEqual),
        b'*' => assigned(rest, Mark::Star, Mark::StarAssign),
        b'/' => assigned(rest, Mark::Slash, Mark::SlashAssign),
        b'%' => assigned(rest, Mark::Percent, Mark::PercentAssign),
        b'^' => assigned(rest, Mark::Xor, Mark::XorAssign),
        b'+' => doubled(b'+', rest, Mark::Plus, Mark::PlusAssign, Mark::Increment),
        b'-' => doubled(b'-', rest, Mark::Minus, Mark::MinusAssign, Mark::Decrement),
        b'&' => doubled(b'&', rest, Mark::And, Mark::AndAssign, Mark::AndAnd),
        b'|' => doubled(b'|', rest, Mark::Or, Mark::OrAssign, Mark::OrOr),
        b'<' => shifted(
            b'<',
            rest,
            Mark::Less,
            Mark::LessEqual,
            Mark::ShiftLeft,
            Mark::ShiftLeftAssign,
        ),
        b'>' => shifted(
            b'>',
            rest,
            Mark::Greater,
            Mark::GreaterEqual,
            Mark::ShiftRight,
            Mark::ShiftRightAssign,
        ),
        b'.' => return dots(rest),
        _ => return Some((single(byte)?, 1)),
    })
}
