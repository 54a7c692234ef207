//! Messages of hints: where a program is slow.
ghost use Rattle.std.specs.Prelude.{◌≡◌, IfOk};
ghost use Rattle.isp_messages.specs.Sayings.{Says, slow_words};

use crate::message::Message;
use crate::page::Source;
use isp_hints::{Hint, Slow};
use std::alloc::{AllocError, Global};

/// Where a program is slow, why, and what helps.
pub fn hint_message<'n, 't>(
    alloc: Global,
    source: Source<'n, 't>,
    hint: Hint,
) -> Result<Message<'n, 't>, AllocError>
    ensures { IfOk result (λ m. Says source.entry.name.now source.entry.text.now hint.place (slow_words hint.slow) m) }
{
    let mut message = Message::new(alloc, String::from_str(alloc, what(hint.slow))?);
    message.source = Some(source);
    message.span = Some(hint.place);
    message.sentence.push_str(sentence(hint.slow))?;
    message.fix.push_str(fix(hint.slow))?;
    Ok(message)
}

fn what(slow: Slow) -> &'static str
    ensures { result.now ≡ slow_words slow }
{
    match slow {
        Slow::Gathered => "note: gathered",
        Slow::Scattered => "note: scattered",
        Slow::Parted => "note: instances part",
        Slow::LeftOff => "note: lanes left off",
    }
}

// Why that is slow.
fn sentence(slow: Slow) -> &'static str {
    match slow {
        Slow::Gathered => {
            "Each lane reads its element by itself. They are read in one step where all instances share the\narray and the index is `programIndex` or the last index of a `foreach`, with nothing around it."
        }
        Slow::Scattered => {
            "Each lane writes its element by itself. They are written in one step where all instances share the\narray and the index is `programIndex` or the last index of a `foreach`, with nothing around it."
        }
        Slow::Parted => {
            "The test is varying: instances leave the loop one by one, and wait there until the last has left."
        }
        Slow::LeftOff => {
            "For each step of the ranges before it this range ends with a run that leaves lanes off, where its\nlength is no multiple of the gang."
        }
    }
}

// What to write instead.
fn fix(slow: Slow) -> &'static str {
    match slow {
        Slow::Gathered => {
            "index by it alone, so that the lanes read side by side; take a uniform index where all read\none element; read a row by `packed_load_active`."
        }
        Slow::Scattered => {
            "index by it alone, so that the lanes write side by side; write what is kept in a row by\n`packed_store_active`."
        }
        Slow::Parted => {
            "make the test uniform where it is one for all, as in `for (uniform int k = 0; k < n; k++)`; or put\nside by side what takes as long."
        }
        Slow::LeftOff => {
            "make the longest range the last, or go over the whole array by one range."
        }
    }
}
