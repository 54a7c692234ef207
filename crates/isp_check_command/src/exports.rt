//! A line for each exported function: whether it is an independent entry.
ghost use Rattle.std.specs.Prelude.{◌≡◌, ◌∷◌, [], true, filter, find, string_bytes, IfOk};
ghost use Rattle.std.specs.Option.{IsSome};
ghost use Rattle.isp_check_command.specs.Pages.{ExportMessage, IsNoted, PageOf, exported};
ghost use Rattle.isp_rates.specs.Exports.{is_entry};
ghost use Rattle.isp_typed.specs.Views.{function_of, program_of};
ghost use Rattle.isp_verdicts.specs.Verdicts.{IsVerdict};

use crate::page::source_of;
use isp_independence::Dependence;
use isp_messages::{Message, export_message};
use isp_rates::Checked;
use isp_typed::TypedFunction;
use ispx_command_line::CheckRequest;
use std::alloc::{AllocError, Global};

/// The line of each exported function, in the order of the text: for people, or as JSON.
pub(crate) fn export_lines(
    alloc: Global,
    request: &CheckRequest<'_>,
    text: &str,
    checked: &Checked,
) -> Result<String, AllocError>
    ensures { IfOk result (λ s. PageOf (ExportMessage request.now text.now (program_of checked.now)) (exported (program_of checked.now)) (string_bytes s)) }
{
    let program = checked.program();
    let mut page = String::new(alloc);
    for function in &program.functions {
        let piece = export_piece(alloc, request, text, checked, function)?;
        page.push_str(piece.as_str())?;
    }
    Ok(page)
}

// The line of a function, if it is exported.
fn export_piece(
    alloc: Global,
    request: &CheckRequest<'_>,
    text: &str,
    checked: &Checked,
    function: &TypedFunction,
) -> Result<String, AllocError>
    requires { function.now.exported ≡ true → IsSome (find (is_entry function.now.name) checked.now.functions.items) }
    ensures { IfOk result (λ s. PageOf (ExportMessage request.now text.now (program_of checked.now)) (filter (λ g. g.exported) (function_of function.now ∷ [])) (string_bytes s)) }
{
    if function.exported {
        export_line(alloc, request, text, checked, function)
    } else {
        Ok(String::new(alloc))
    }
}

fn export_line(
    alloc: Global,
    request: &CheckRequest<'_>,
    text: &str,
    checked: &Checked,
    function: &TypedFunction,
) -> Result<String, AllocError>
    requires { IsSome (find (is_entry function.now.name) checked.now.functions.items) }
    ensures { IfOk result (λ s. ExportMessage request.now text.now (program_of checked.now) (function_of function.now) (string_bytes s)) }
{
    let name = function.name.as_str();
    let source = source_of(request, text);
    let breach = verdict(checked, name);
    let message = export_message(alloc, source, function.span, name, breach)?;
    noted(alloc, &message, request.is_json)
}

// The first breach of an exported function as an independent entry.
fn verdict(checked: &Checked, name: &str) -> Option<Dependence>
    requires { IsSome (find (is_entry name.now) checked.now.functions.items) }
    ensures { IsVerdict (program_of checked.now) name.now result }
{
    match checked.independent(name) {
        Ok(()) => None,
        Err(dependence) => Some(dependence),
    }
}

fn noted(alloc: Global, message: &Message<'_, '_>, is_json: bool) -> Result<String, AllocError>
    ensures { IfOk result (λ s. IsNoted is_json message.now (string_bytes s)) }
{
    if is_json {
        message.json(alloc, 0)
    } else {
        message.line(alloc)
    }
}
