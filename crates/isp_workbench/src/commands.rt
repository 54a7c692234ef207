//! The whole program, over what it is handed.
ghost use Rattle.std.specs.Prelude.{◌≡◌, ℕ, List, false};
ghost use Rattle.std.specs.Io.KnownBytes.{Consumes, IsAtEnd};
ghost use Rattle.clap.specs.Values.{kind_of};
ghost use Rattle.isp_engine.specs.Told.{Told};
ghost use Rattle.isp_workbench.specs.Requests.{Answered, Commands, WordsRefused};

use clap::Error;
use clap::error::ErrorKind;
use isp_case_command::test;
use isp_check_command::check;
use isp_code_commands::{c_file, count, trace, wasm_file};
use isp_command_line::VERSION;
use isp_engine::{Failure, Sink, SourceFiles, tell_end, write_text};
use isp_explain_command::explain;
use isp_lsp_command::lsp;
use isp_run_command::{run, show};
use isp_run_words::DataFiles;
use ispx_command_line::{Request, read_words};
use std::alloc::{AllocError, Global};
use std::io::Read;

/// Does what `words` ask for, the first of which is the program's name, and answers the exit status: that of the command (`Request` of
/// ispx_command_line names them with their words). `lsp` alone reads `input`. Of `count`, `trace`, `c`, `wasm` and `lsp` a line goes to `err`
/// where the status is not 0, but that of a connection which `exit` ends.
///
/// Help and the version go to `out`, with status 0. Other words that are no request are refused on `err`, with status 2.
/// Where `err` fails, or has failed before, the rest of it is lost.
pub fn command<F: SourceFiles + DataFiles, I: Read, O: Sink, E: Sink>(
    alloc: Global,
    words: &[String],
    files: &F,
    input: &mut I,
    out: &mut O,
    err: &mut E,
) -> u8
    requires { O.has_failed out.old ≡ false }
    ensures { Commands (F.holds files.now) (F.has_bytes files.now) (Consumes (I.remaining input.old) (I.remaining input.new)) (IsAtEnd (I.remaining input.new)) (O.written out.old) (O.written out.new) (O.has_failed out.new)
        (λ line. Told line (E.written err.old) (E.written err.new) (E.has_failed err.new)) result }
{
    match read_words(alloc, words) {
        Ok(request) => answer(alloc, &request, files, input, out, err),
        Err(error) => refuse(alloc, &error, out, err),
    }
}

fn answer<F: SourceFiles + DataFiles, I: Read, O: Sink, E: Sink>(
    alloc: Global,
    request: &Request<'_>,
    files: &F,
    input: &mut I,
    out: &mut O,
    err: &mut E,
) -> u8
    requires { O.has_failed out.old ≡ false }
    ensures { Answered (F.holds files.now) (F.has_bytes files.now) (Consumes (I.remaining input.old) (I.remaining input.new)) (IsAtEnd (I.remaining input.new)) request.now (O.written out.old) (O.written out.new) (O.has_failed out.new)
        (λ line. Told line (E.written err.old) (E.written err.new) (E.has_failed err.new)) result }
{
    match request {
        Request::Run(wanted) => run(alloc, wanted, files, out, err),
        Request::Test(wanted) => test(alloc, wanted, files, out, err),
        Request::Check(wanted) => check(alloc, wanted, files, out, err),
        Request::Explain(wanted) => explain(alloc, wanted, files, out, err),
        Request::Count(wanted) => tell_end(count(alloc, wanted, files, out), err),
        Request::Trace(wanted) => tell_end(trace(alloc, wanted, files, out), err),
        Request::C(wanted) => tell_end(c_file(alloc, wanted, files, out), err),
        Request::Wasm(wanted) => wasm_file(alloc, wanted, files, out, err),
        Request::Lsp(wanted) => lsp(alloc, wanted.gang, VERSION, input, out, err),
    }
}

// Shows help, or the text of refused words, and answers the exit status.
fn refuse<O: Sink, E: Sink>(alloc: Global, error: &Error, out: &mut O, err: &mut E) -> u8
    requires { O.has_failed out.old ≡ false }
    ensures { WordsRefused (kind_of error.now) (O.written out.old) (O.written out.new) (O.has_failed out.new)
        (λ line. Told line (E.written err.old) (E.written err.new) (E.has_failed err.new)) result }
{
    if error.kind() == ErrorKind::OutOfMemory {
        return tell_end(Err(Failure::Memory), err);
    }
    match format!(in alloc; "{error}") {
        Ok(text) if error.use_stderr() => {
            show(text.as_str(), err);
            2
        }
        Ok(text) => tell_end(write_text(text.as_str(), out), err),
        Err(AllocError) => tell_end(Err(Failure::Memory), err),
    }
}
