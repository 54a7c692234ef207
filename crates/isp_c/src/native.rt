//! Code text becomes a C file.
ghost use Rattle.std.specs.Prelude.{◌≡◌, IfErr, IfOk, string_bytes};
ghost use Rattle.isp_c_laws.specs.Running.{NoCode};
ghost use Rattle.isp_c_laws.specs.Translating.{IsCFile, Translates};

use crate::run::coded;
use isp_engine::Failure;
use isp_native::write;
use isp_reports::{Refusal, Report, give, refuse};
use std::alloc::Global;

/// Reads code text, and writes its C file, a line for each instruction, at the front of `file`, its length to
/// `report.used`. The bytes after it stay. A C compiler makes native code of it with `include/isp_machine.h`
/// (docs/EMBEDDING.md). The result is the status:
///
/// - 0: the file is that of the code.
/// - 6: the code text is no UTF-8.
/// - 7: memory was refused.
/// - 8: the code is refused: 60 to 63 with the line, 40 to 45 with the function and the instruction.
/// - 10: `file` has fewer bytes than the C file, which are as many as `report.used` says.
///
/// With a status other than 0 `file` stays as it was, and `report.used` is 0 but with 10.
#[unsafe(no_mangle)]
pub extern "C" fn isp_native(alloc: Global, code: &[u8], file: &mut [u8], report: &mut Report) -> u8
    ensures { Translates code.now file.old file.new report.new result }
{
    match c_file(alloc, code) {
        Ok(text) => give(text.as_bytes(), file, report),
        Err(refusal) => refuse(&refusal, 0, report),
    }
}

// The C file of code text.
fn c_file(alloc: Global, code: &[u8]) -> Result<String, Refusal<'static>>
    ensures ok { IfOk result (λ s. IsCFile code.now (string_bytes s)) }
    ensures err { IfErr result (NoCode code.now) }
{
    let image = coded(alloc, code)?;
    match write(alloc, image.code()) {
        Ok(file) => Ok(file),
        Err(_) => Err(Refusal::Failed(Failure::Memory)),
    }
}
