//! One connection, from its first byte to its end.
ghost use Rattle.std.specs.Prelude.{List, Option, ℕ, drop, false, length, ◌≡◌, ◌≤◌};
ghost use Rattle.std.specs.Io.KnownBytes.{Consumes, IsAtEnd};
ghost use Rattle.isp_server.specs.Connections.{Connection, connection_of};
ghost use Rattle.isp_lsp_command.specs.Ends.{Serves};
ghost use Rattle.isp_lsp_command.specs.reader.Turns.{Stands, Turned};

use crate::answer::answer;
use crate::end::LspEnd;
use crate::read::read_more;
use isp_base::Gang;
use isp_output::Sink;
use isp_rpc_frames::{Framed, first_message};
use isp_server::{Next, Server};
use std::alloc::Global;
use std::io::Read;

/// Serves one connection of the language server protocol 3.17, which begins anew: reads messages from `input`, and writes to `out` what
/// isp_server's `answer` sends after each, until the connection ends. Texts are judged for a gang of this size, and `initialize`
/// is told this version. An answer is written before more is read.
///
/// A read that a signal broke off is made again. After 2^64 reads and messages the input counts as one that cannot be read.
pub fn serve<R: Read, O: Sink>(
    alloc: Global,
    gang: Gang,
    version: &'static str,
    input: &mut R,
    out: &mut O,
) -> LspEnd
    requires { O.has_failed out.old ≡ false }
    ensures { (read : List ℕ) × Consumes (R.remaining input.old) (R.remaining input.new) read
        × Serves gang version.now read (IsAtEnd (R.remaining input.new)) (O.written out.old) (O.written out.new) (O.has_failed out.new) result }
{
    let mut server = Server::new(alloc, gang, version);
    let mut unread = Vec::new(alloc);
    for _ in 0..u64::MAX {
        match turn(alloc, &mut server, &mut unread, input, out) {
            Ok(()) => {}
            Err(end) => return end,
        }
    }
    LspEnd::CannotRead
}

// Answers the first message of the bytes that were read, or reads more of it.
fn turn<R: Read, O: Sink>(
    alloc: Global,
    server: &mut Server,
    unread: &mut Vec<u8>,
    input: &mut R,
    out: &mut O,
) -> Result<(), LspEnd>
    requires { O.has_failed out.old ≡ false }
    ensures { (first : Connection) (had held : Option (List ℕ))
        → Stands first had held (connection_of server.old) unread.old.items (R.remaining input.old) (O.written out.old) (O.has_failed out.old)
        → Turned first had held (connection_of server.new) unread.new.items (R.remaining input.new) (O.written out.new) (O.has_failed out.new) result }
{
    match first_message(unread.as_slice()) {
        Ok(Framed::Message { start, end }) => {
            let next = answer(alloc, server, &unread[start..end], out)?;
            drop_front(unread, end);
            match next {
                Next::GoOn => Ok(()),
                Next::End(status) => Err(LspEnd::Exit(status)),
            }
        }
        Ok(Framed::Part) => read_more(input, unread),
        Err(fault) => Err(LspEnd::Broken(fault)),
    }
}

// Takes the first bytes away.
fn drop_front(bytes: &mut Vec<u8>, count: usize)
    requires { count ≤ length bytes.old.items }
    ensures { bytes.new.items ≡ drop count bytes.old.items }
{
    drop(bytes.drain(..count));
}
