//! What is said of a source without a fault: of its exported functions, and of what is slow.
ghost use Rattle.std.specs.Prelude.{◌≡◌, string_bytes, IfOk, IfErr};
ghost use Rattle.isp_check_command.specs.Notes.{IsNotes};
ghost use Rattle.isp_front.specs.Front.{IsSource};
ghost use Rattle.isp_runs.specs.Compilation.{IsCompilation};
ghost use Rattle.isp_typed.specs.Typed.{Program};
ghost use Rattle.isp_typed.specs.Views.{program_of};

use crate::exports::export_lines;
use crate::page::hint_page;
use isp_engine::{Image, compile, front};
use isp_hints::hints;
use isp_lex::SourceFault;
use isp_rates::Checked;
use ispx_command_line::CheckRequest;
use std::alloc::{AllocError, Global};

/// The messages of a text that is the source of a program. Memory: memory was refused.
pub(crate) fn notes(
    alloc: Global,
    request: &CheckRequest<'_>,
    text: &str,
) -> Result<String, SourceFault>
    requires { (program : Program) × IsSource request.now.gang text.now program }
    ensures told { IfOk result (λ s. IsNotes request.now text.now (string_bytes s)) }
    ensures memory { IfErr result (λ e. e ≡ SourceFault.Memory) }
{
    let checked = front(alloc, text, request.gang)?;
    let image = compile(alloc, text, request.gang)?;
    Ok(program_notes(alloc, request, text, &checked, &image)?)
}

// Those of its program, by the code that it is compiled to.
fn program_notes(
    alloc: Global,
    request: &CheckRequest<'_>,
    text: &str,
    checked: &Checked,
    image: &Image,
) -> Result<String, AllocError>
    requires source { IsSource request.now.gang text.now (program_of checked.now) }
    requires compiled { IsCompilation request.now.gang text.now image.now }
    ensures { IfOk result (λ s. IsNotes request.now text.now (string_bytes s)) }
{
    let slow = hints(alloc, image.code(), checked.program())?;
    let mut page = export_lines(alloc, request, text, checked)?;
    let rest = hint_page(alloc, request, text, slow.as_slice())?;
    page.push_str(rest.as_str())?;
    Ok(page)
}
