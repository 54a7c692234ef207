//! The command, from standard input to the exit status.
ghost use Rattle.std.specs.Prelude.{◌≡◌, false};
ghost use Rattle.std.specs.Io.KnownBytes.{Consumes, IsAtEnd};
ghost use Rattle.isp_lsp_command.specs.Ends.{LspAnswered, Told};

use crate::connection::serve;
use crate::end::tell_end;
use isp_base::Gang;
use isp_output::Sink;
use std::alloc::Global;
use std::io::Read;

/// Serves one connection by `serve`, says on `err` why it has ended where `exit` did not end it, and answers the exit status.
pub fn lsp<R: Read, O: Sink, E: Sink>(
    alloc: Global,
    gang: Gang,
    version: &'static str,
    input: &mut R,
    out: &mut O,
    err: &mut E,
) -> u8
    requires { O.has_failed out.old ≡ false }
    ensures { LspAnswered gang version.now (Consumes (R.remaining input.old) (R.remaining input.new)) (IsAtEnd (R.remaining input.new))
        (O.written out.old) (O.written out.new) (O.has_failed out.new) (λ line. Told line (E.written err.old) (E.written err.new) (E.has_failed err.new)) result }
{
    let end = serve(alloc, gang, version, input, out);
    tell_end(end, err)
}
