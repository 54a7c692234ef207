//! Code as a module of WebAssembly.
ghost use Rattle.std.specs.Prelude.{◌≡◌, false};
ghost use Rattle.isp_code_commands.specs.Requests.{ToldWhy, WroteModule, WroteWasm};
ghost use Rattle.isp_engine.specs.Told.{Told};

use crate::native::code_of;
use isp_engine::{Failure, Sink, SourceFiles, tell_end, write_bytes, write_text};
use isp_verify::Verified;
use isp_wasm_file::{Refusal, file, refusal_line};
use ispx_command_line::WasmRequest;
use std::alloc::{AllocError, Global};

/// The exit status where code has no module: that of code that is refused.
const NO_MODULE: u8 = 8;

/// Writes the module of a code text, or where the request has a gang that of the code of a source, and answers the exit status: 0, or one of
/// `c_file`. 8 also: the code has no module. Where it is not 0 a line on `err` says why.
pub fn wasm_file<F: SourceFiles, O: Sink, E: Sink>(
    alloc: Global,
    request: &WasmRequest<'_>,
    files: &F,
    out: &mut O,
    err: &mut E,
) -> u8
    requires { O.has_failed out.old ≡ false }
    ensures { WroteWasm (F.holds files.now) request.now (O.written out.old) (O.written out.new) (O.has_failed out.new)
        (λ line. Told line (E.written err.old) (E.written err.new) (E.has_failed err.new)) result }
{
    match code_of(alloc, request.gang, request.file, files) {
        Ok(image) => write_module(alloc, image.verified(), out, err),
        Err(failure) => tell_end(Err(failure), err),
    }
}

// Writes the file of the code's module, or on `err` why there is none, and answers the exit status.
fn write_module<O: Sink, E: Sink>(alloc: Global, code: &Verified, out: &mut O, err: &mut E) -> u8
    requires { O.has_failed out.old ≡ false }
    ensures { WroteModule code.now (O.written out.old) (O.written out.new) (O.has_failed out.new)
        (λ line. Told line (E.written err.old) (E.written err.new) (E.has_failed err.new)) result }
{
    match file(alloc, code) {
        Ok(bytes) => tell_end(write_bytes(bytes.as_slice(), out), err),
        Err(refusal) => tell_why(alloc, code, refusal, err),
    }
}

// Writes why code has no module, and answers the exit status.
fn tell_why<E: Sink>(alloc: Global, code: &Verified, refusal: Refusal, err: &mut E) -> u8
    ensures { ToldWhy code.now refusal (λ line. Told line (E.written err.old) (E.written err.new) (E.has_failed err.new)) result }
{
    if refusal == Refusal::Memory {
        return tell_end(Err(Failure::Memory), err);
    }
    match refusal_line(alloc, refusal, code.code()) {
        Ok(line) => {
            tell(line.as_str(), err);
            NO_MODULE
        }
        Err(AllocError) => tell_end(Err(Failure::Memory), err),
    }
}

// Writes a line, as far as the sink takes it; nothing where it has failed before.
#[tactic(auto, using(crate::proofs::Stories::writes_told, crate::proofs::Stories::untold))]
fn tell<E: Sink>(line: &str, err: &mut E)
    ensures { Told line.now (E.written err.old) (E.written err.new) (E.has_failed err.new) }
{
    if err.failed() {
        return;
    }
    let _ = write_text(line, err);
}
