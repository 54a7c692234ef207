//! Each exported function of a source is tried for independence.
ghost use Rattle.std.specs.Prelude.{◌≡◌, false, string_bytes, IfOk, IfErr};
ghost use Rattle.isp_engine.specs.Checking.{Judged, WroteVerdicts};
ghost use Rattle.isp_engine.specs.Stories.{SourceFails};

use isp_command_line::CheckRequest;
use isp_engine::{Failure, SourceFiles, read_file, write_text};
use isp_front::front;
use isp_output::Sink;
use isp_verdicts::verdicts;
use std::alloc::Global;

/// Writes `ok`, and a line for each exported function of a source.
pub(crate) fn check<'a, F: SourceFiles, O: Sink>(
    alloc: Global,
    request: &CheckRequest<'a>,
    files: &F,
    out: &mut O,
) -> Result<(), Failure<'a>>
    requires { O.has_failed out.old ≡ false }
    ensures { WroteVerdicts (F.holds files.now) request.now (O.written out.old) (O.written out.new) (O.has_failed out.new) result }
{
    let text = judged(alloc, request, files)?;
    write_text(text.as_str(), out)
}

// What is said of the exported functions of a source.
fn judged<'a, F: SourceFiles>(
    alloc: Global,
    request: &CheckRequest<'a>,
    files: &F,
) -> Result<String, Failure<'a>>
    ensures ok { IfOk result (λ s. Judged (F.holds files.now) request.now (string_bytes s)) }
    ensures err { IfErr result (SourceFails (F.holds files.now) request.now.gang request.now.source.now) }
{
    let source = read_file(alloc, files, request.source)?;
    let checked = front(alloc, source.as_str(), request.gang)?;
    let text = verdicts(alloc, &checked)?;
    Ok(text)
}
