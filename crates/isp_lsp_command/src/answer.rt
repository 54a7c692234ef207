//! One message, answered.
ghost use Rattle.std.specs.Prelude.{IfErr, IfOk, false, map, string_bytes, ◌≡◌};
ghost use Rattle.serde_json.specs.View.{view};
ghost use Rattle.isp_server.specs.Connections.{connection_of};
ghost use Rattle.isp_lsp_command.specs.Sessions.{AllFramed};
ghost use Rattle.isp_lsp_command.specs.reader.Turns.{Answers, Fails};

use crate::end::LspEnd;
use isp_output::{Sink, write_all};
use isp_server::{Next, Server, framed};
use serde_json::Value;
use std::alloc::{AllocError, Global};

/// Answers the content of one message on `out`. Where memory is refused nothing was written.
pub(crate) fn answer<O: Sink>(
    alloc: Global,
    server: &mut Server,
    content: &[u8],
    out: &mut O,
) -> Result<Next, LspEnd>
    requires { O.has_failed out.old ≡ false }
    ensures ok { IfOk result (Answers (connection_of server.old) content.now (connection_of server.new) (O.written out.old) (O.written out.new) (O.has_failed out.new)) }
    ensures err { IfErr result (Fails (connection_of server.old) content.now (O.written out.old) (O.written out.new) (O.has_failed out.new)) }
{
    let Ok(reply) = server.answer(alloc, content) else {
        return Err(LspEnd::Memory);
    };
    let Ok(bytes) = all_framed(alloc, reply.messages.as_slice()) else {
        return Err(LspEnd::Memory);
    };
    match write_all(out, bytes.as_bytes()) {
        Ok(()) => Ok(reply.next),
        Err(_) => Err(LspEnd::CannotWrite),
    }
}

// The bytes of messages, one after the other.
fn all_framed(alloc: Global, messages: &[Value]) -> Result<String, AllocError>
    ensures { IfOk result (λ bytes. AllFramed (map view messages.now) (string_bytes bytes)) }
{
    let mut bytes = String::new(alloc);
    for message in messages {
        let one = framed(alloc, message)?;
        bytes.push_str(one.as_str())?;
    }
    Ok(bytes)
}
