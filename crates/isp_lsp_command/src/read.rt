//! More of the input.
ghost use Rattle.isp_lsp_command.specs.reader.Turns.{Gives};

use crate::end::LspEnd;
use std::io::{ErrorKind, Read};

/// The most bytes of one read.
const STEP: usize = 8192;

/// Puts what one read gives after the bytes that were read. A read that a signal broke off gives nothing.
pub(crate) fn read_more<R: Read>(input: &mut R, unread: &mut Vec<u8>) -> Result<(), LspEnd>
    ensures { Gives (R.remaining input.old) (R.remaining input.new) unread.old.items unread.new.items result }
{
    let mut buffer = [0; STEP];
    match input.read(&mut buffer) {
        Ok(0) => Err(LspEnd::InputEnd),
        Ok(count) => match unread.extend_from_slice(&buffer[..count]) {
            Ok(()) => Ok(()),
            Err(_) => Err(LspEnd::Memory),
        },
        Err(error) => {
            if error.kind() == ErrorKind::Interrupted {
                Ok(())
            } else {
                Err(LspEnd::CannotRead)
            }
        }
    }
}
