//! The messages of faults, and of what is slow, one after the other.
ghost use Rattle.std.specs.Prelude.{◌≡◌, string_bytes, IfOk};
ghost use Rattle.isp_check_command.specs.Pages.{FaultMessage, HintMessage, IsShown, PageOf};

use isp_hints::Hint;
use isp_lex::Fault;
use isp_messages::{Message, Source, hint_message, source_message};
use ispx_command_line::CheckRequest;
use std::alloc::{AllocError, Global};

/// The message of each fault: for people, or as a line of JSON.
pub(crate) fn fault_page(
    alloc: Global,
    request: &CheckRequest<'_>,
    text: &str,
    faults: &[Fault],
) -> Result<String, AllocError>
    ensures { IfOk result (λ s. PageOf (FaultMessage request.now text.now) faults.now (string_bytes s)) }
{
    let mut page = String::new(alloc);
    for fault in faults {
        let piece = fault_piece(alloc, request, text, *fault)?;
        page.push_str(piece.as_str())?;
    }
    Ok(page)
}

fn fault_piece(
    alloc: Global,
    request: &CheckRequest<'_>,
    text: &str,
    fault: Fault,
) -> Result<String, AllocError>
    ensures { IfOk result (λ s. FaultMessage request.now text.now fault (string_bytes s)) }
{
    let message = source_message(alloc, source_of(request, text), fault)?;
    shown(alloc, &message, request.is_json, 1)
}

/// The message of each hint: for people, or as a line of JSON.
pub(crate) fn hint_page(
    alloc: Global,
    request: &CheckRequest<'_>,
    text: &str,
    hints: &[Hint],
) -> Result<String, AllocError>
    ensures { IfOk result (λ s. PageOf (HintMessage request.now text.now) hints.now (string_bytes s)) }
{
    let mut page = String::new(alloc);
    for hint in hints {
        let piece = hint_piece(alloc, request, text, *hint)?;
        page.push_str(piece.as_str())?;
    }
    Ok(page)
}

fn hint_piece(
    alloc: Global,
    request: &CheckRequest<'_>,
    text: &str,
    hint: Hint,
) -> Result<String, AllocError>
    ensures { IfOk result (λ s. HintMessage request.now text.now hint (string_bytes s)) }
{
    let message = hint_message(alloc, source_of(request, text), hint)?;
    shown(alloc, &message, request.is_json, 0)
}

/// The text that a request names.
pub(crate) fn source_of<'n, 't>(request: &CheckRequest<'n>, text: &'t str) -> Source<'n, 't>
    ensures name { result.name.now ≡ request.now.source.now }
    ensures text { result.text.now ≡ text.now }
{
    Source {
        name: request.source,
        text,
    }
}

// A message, where it is a line of JSON with the exit status.
fn shown(
    alloc: Global,
    message: &Message<'_, '_>,
    is_json: bool,
    status: u8,
) -> Result<String, AllocError>
    ensures { IfOk result (λ s. IsShown is_json status message.now (string_bytes s)) }
{
    if is_json {
        message.json(alloc, status)
    } else {
        message.text(alloc)
    }
}
