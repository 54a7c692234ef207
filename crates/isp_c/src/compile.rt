//! A source text is compiled to code text.
ghost use Rattle.std.specs.Prelude.{◌≡◌, IfErr, IfOk, string_bytes};
ghost use Rattle.isp_base.specs.Types.{gang_width};
ghost use Rattle.isp_runs.specs.Compilation.{IsCompilation};
ghost use Rattle.isp_c_laws.specs.Compiling.{Compiles, IsCodeText, NoCodeText};

use isp_base::Gang;
use isp_engine::{Failure, Image, compile};
use isp_lex::SourceFault;
use isp_reports::{Refusal, Report, give, refuse};
use std::alloc::Global;

/// Compiles the source for a gang of so many instances, and writes the code text at the front of `code`, its length to
/// `report.used`. The bytes after it stay. The result is the status:
///
/// - 0: the code text is that of a program that does what the source means.
/// - 1: the source is refused; the numbers of `front`, and the place.
/// - 2: `gang` is not 4, 8, 16 or 32.
/// - 6: the source is no UTF-8.
/// - 7: memory was refused.
/// - 10: `code` has fewer bytes than the code text, which are as many as `report.used` says.
///
/// With a status other than 0 `code` stays as it was, and `report.used` is 0 but with 10.
#[unsafe(no_mangle)]
pub extern "C" fn isp_compile(
    alloc: Global,
    source: &[u8],
    gang: u32,
    code: &mut [u8],
    report: &mut Report,
) -> u8
    ensures { Compiles gang source.now code.old code.new report.new result }
{
    match code_text(alloc, source, gang) {
        Ok(text) => give(text.as_bytes(), code, report),
        Err(refusal) => refuse(&refusal, 0, report),
    }
}

// The code text of a source.
fn code_text(alloc: Global, source: &[u8], gang: u32) -> Result<String, Refusal<'static>>
    ensures ok { IfOk result (λ s. IsCodeText gang source.now (string_bytes s)) }
    ensures err { IfErr result (NoCodeText gang source.now) }
{
    let Ok(text) = std::str::from_utf8(source) else {
        return Err(Refusal::Failed(Failure::CannotRead("source")));
    };
    let Some(gang) = Gang::of_width(gang as usize) else {
        return Err(Refusal::NoGang);
    };
    let image = compiled(alloc, text, gang)?;
    match image.text(alloc) {
        Ok(text) => Ok(text),
        Err(_) => Err(Refusal::Failed(Failure::Memory)),
    }
}

fn compiled(alloc: Global, text: &str, gang: Gang) -> Result<Image, Refusal<'static>>
    ensures ok { IfOk result (IsCompilation gang text.now) }
    ensures err { IfErr result (NoCodeText (gang_width gang) text.now) }
{
    match compile(alloc, text, gang) {
        Ok(image) => Ok(image),
        Err(SourceFault::Memory) => Err(Refusal::Failed(Failure::Memory)),
        Err(SourceFault::Refused(fault)) => Err(Refusal::Failed(Failure::Source(fault))),
    }
}
