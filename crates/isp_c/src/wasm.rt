//! Code text becomes a module of WebAssembly.
ghost use Rattle.std.specs.Prelude.{◌≡◌, IfErr, IfOk};
ghost use Rattle.isp_wasm_module.specs.Refused.{explains, module_refusal};
ghost use Rattle.isp_c_laws.specs.Modules.{HasNoModule, IsModuleFile, MakesModule, NoModuleFile};

use crate::run::coded;
use isp_engine::Failure;
use isp_reports::{Refusal, Report, give, refuse};
use isp_verify::Verified;
use isp_wasm_file::{Refusal as NoModule, file, refusal_line};
use std::alloc::{AllocError, Global};

/// Reads code text, and writes its module of WebAssembly at the front of `file`, its length to `report.used`: what `ispx wasm`
/// writes, with the code text in a section of its own after it, where a host reads what each function takes. The bytes after
/// it stay. The result is the status:
///
/// - 0: the bytes are those of the code's module.
/// - 6: the code text is no UTF-8.
/// - 7: memory was refused.
/// - 8: the code is refused: 60 to 63 with the line, 40 to 45 with the function and the instruction. Or no module is made of
///   it: the number is 0, and the line says of which function and why, as far as its 127 bytes go.
/// - 10: `file` has fewer bytes than the module, which are as many as `report.used` says.
///
/// With a status other than 0 `file` stays as it was, and `report.used` is 0 but with 10.
#[unsafe(no_mangle)]
pub extern "C" fn isp_wasm(alloc: Global, code: &[u8], file: &mut [u8], report: &mut Report) -> u8
    ensures { MakesModule code.now file.old file.new report.new result }
{
    match module_file(alloc, code) {
        Ok(bytes) => give(bytes.as_slice(), file, report),
        Err(refusal) => refuse(&refusal, 0, report),
    }
}

// The file of the module of code text.
fn module_file(alloc: Global, code: &[u8]) -> Result<Vec<u8>, Refusal<'static>>
    ensures ok { IfOk result (λ v. IsModuleFile code.now v.items) }
    ensures err { IfErr result (NoModuleFile code.now) }
{
    let image = coded(alloc, code)?;
    match file(alloc, image.verified()) {
        Ok(bytes) => Ok(bytes),
        Err(why) => Err(no_module(alloc, image.verified(), why)),
    }
}

// How a call tells why code has no module.
fn no_module(alloc: Global, code: &Verified, why: NoModule) -> Refusal<'static>
    requires { explains why (module_refusal code.now) }
    ensures { HasNoModule code.now result }
{
    if why == NoModule::Memory {
        return Refusal::Failed(Failure::Memory);
    }
    match refusal_line(alloc, why, code.code()) {
        Ok(line) => Refusal::NoModule(line),
        Err(AllocError) => Refusal::Failed(Failure::Memory),
    }
}
