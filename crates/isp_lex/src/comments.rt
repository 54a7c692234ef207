//! Comments.
ghost use Rattle.std.specs.Prelude.{◌≡◌, ◌+◌, ◌<◌, ◌^◌, length, IfOk, IfErr, MatchOption, true};
ghost use Rattle.isp_lex.specs.Bytes.{next_is};
ghost use Rattle.isp_lex.specs.reader.Pieces.{NoComment, Skips, StopsAt};

use crate::bytes::{has, line_len, rest};
use crate::fault::{Rule, SourceFault};
use crate::piece::refused;

/// The length of the comment that a text begins with, where the text stands at a place of the
/// source; `None` where it begins with none.
pub(crate) fn comment(text: &str, place: usize) -> Result<Option<usize>, SourceFault>
    requires room { place + length text.now < 2 ^ 64 }
    requires slash { next_is 47 text.now ≡ true }
    ensures ok { IfOk result (λ o. MatchOption o (NoComment text.now) (Skips text.now)) }
    ensures err { IfErr result (λ e. StopsAt place e text.now) }
{
    if has(text.as_bytes(), 1, b'/') {
        return Ok(Some(2 + line_len(rest(text.as_bytes(), 2))));
    }
    if !has(text.as_bytes(), 1, b'*') {
        return Ok(None);
    }
    match text[2..].find("*/") {
        Some(at) => Ok(Some(at + 4)),
        None => Err(refused(Rule::OpenComment, place, place + text.len())),
    }
}
