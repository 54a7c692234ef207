//! Code as a C file.
ghost use Rattle.std.specs.Prelude.{◌≡◌, false, string_bytes, IfOk, IfErr};
ghost use Rattle.isp_code_commands.specs.Requests.{HasCode, HasNoCode, WroteC};
ghost use Rattle.isp_code_commands.specs.Texts.{GivesCode, GivesNone, IsCPage};

use isp_base::Gang;
use isp_engine::{Failure, Image, Sink, SourceFiles, compile, load_code, read_file, write_text};
use isp_native::{header, write};
use ispx_command_line::CRequest;
use std::alloc::{AllocError, Global};

/// Writes the C file of a code text, or where the request has a gang that of the code of a source; or its prototypes alone.
///
/// 6: the file cannot be read. 1: the source is refused. 8: the code text is refused. 7: memory was refused. Then nothing goes out.
/// 6 also: the output cannot be written; then the first bytes of the page have gone out.
pub fn c_file<'a, F: SourceFiles, O: Sink>(
    alloc: Global,
    request: &CRequest<'a>,
    files: &F,
    out: &mut O,
) -> Result<(), Failure<'a>>
    requires { O.has_failed out.old ≡ false }
    ensures { WroteC (F.holds files.now) request.now (O.written out.old) (O.written out.new) (O.has_failed out.new) result }
{
    let image = code_of(alloc, request.gang, request.file, files)?;
    let page = page_of(alloc, &image, request.is_header)?;
    write_text(page.as_str(), out)
}

/// The code of a file, which has it as text, or where there is a gang a source.
pub(crate) fn code_of<'a, F: SourceFiles>(
    alloc: Global,
    gang: Option<Gang>,
    file: &'a str,
    files: &F,
) -> Result<Image, Failure<'a>>
    ensures ok { IfOk result (HasCode (F.holds files.now) gang file.now) }
    ensures err { IfErr result (HasNoCode (F.holds files.now) gang file.now) }
{
    let text = read_file(alloc, files, file)?;
    let image = image_of(alloc, gang, text.as_str())?;
    Ok(image)
}

/// The code that a text gives.
pub(crate) fn image_of(
    alloc: Global,
    gang: Option<Gang>,
    text: &str,
) -> Result<Image, Failure<'static>>
    ensures ok { IfOk result (GivesCode gang text.now) }
    ensures err { IfErr result (GivesNone gang text.now) }
{
    match gang {
        Some(gang) => Ok(compile(alloc, text, gang)?),
        None => Ok(load_code(alloc, text)?),
    }
}

fn page_of(alloc: Global, image: &Image, is_header: bool) -> Result<String, AllocError>
    ensures { IfOk result (λ s. IsCPage is_header image.now (string_bytes s)) }
{
    if is_header {
        header(alloc, image.code())
    } else {
        write(alloc, image.code())
    }
}
