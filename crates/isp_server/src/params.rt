//! What the notifications of documents say.
ghost use Rattle.std.specs.Prelude.{◌≡◌, Some, option_map, ℕ};
ghost use Rattle.serde_json.specs.View.{view};
ghost use Rattle.isp_server.specs.Deeds.{changed, changed_text, count_at, opened, declaration_said, new_name, place, uri_of, whole_text, with_declaration};
ghost use Rattle.isp_server.specs.reader.Views.{document_view, place_view};

use crate::deed::{Document, Place};
use serde_json::Value;

/// The URI of the document, by `textDocument`.
pub(crate) fn uri_of<'v>(params: Option<&'v Value>) -> Option<&'v str>
    ensures { option_map (λ uri. uri.now) result ≡ uri_of (option_map (λ v. view v.now) params.entry) }
{
    params?.get("textDocument")?.get("uri")?.as_str()
}

/// The document of `textDocument/didOpen`.
pub(crate) fn opened<'v>(params: Option<&'v Value>) -> Option<Document<'v>>
    ensures { option_map document_view result ≡ opened (option_map (λ v. view v.now) params.entry) }
{
    let uri = uri_of(params)?;
    let text = params?.get("textDocument")?.get("text")?.as_str()?;
    Some(Document { uri, text })
}

/// The document of `textDocument/didChange`, with its new text.
pub(crate) fn changed<'v>(params: Option<&'v Value>) -> Option<Document<'v>>
    ensures { option_map document_view result ≡ changed (option_map (λ v. view v.now) params.entry) }
{
    let uri = uri_of(params)?;
    let text = changed_text(params)?;
    Some(Document { uri, text })
}

// The text that the last change gives.
#[tactic(auto, using(crate::proofs::Lasts::last_is))]
fn changed_text<'v>(params: Option<&'v Value>) -> Option<&'v str>
    ensures { option_map (λ text. text.now) result ≡ changed_text (option_map (λ v. view v.now) params.entry) }
{
    let changes = params?.get("contentChanges")?.as_array()?;
    whole_text(changes.last()?)
}

// The text of a change that gives it whole.
fn whole_text(change: &Value) -> Option<&str>
    ensures { option_map (λ text. text.now) result ≡ whole_text (Some (view change.now)) }
{
    if change.get("range").is_some() {
        return None;
    }
    change.get("text")?.as_str()
}

/// The place that a request names.
pub(crate) fn place<'v>(params: Option<&'v Value>) -> Option<Place<'v>>
    ensures { option_map place_view result ≡ place (option_map (λ v. view v.now) params.entry) }
{
    let uri = uri_of(params)?;
    let position = params?.get("position")?;
    let line = count_at(position, "line")?;
    let character = count_at(position, "character")?;
    Some(Place {
        uri,
        line,
        character,
    })
}

// A member that is a whole number.
fn count_at(value: &Value, name: &str) -> Option<usize>
    ensures { result ≡ count_at name.now (view value.now) }
{
    let count = value.get(name)?.as_u64()?;
    Some(count as usize)
}

/// The new name that a request gives.
pub(crate) fn new_name<'v>(params: Option<&'v Value>) -> Option<&'v str>
    ensures { option_map (λ name. name.now) result ≡ new_name (option_map (λ v. view v.now) params.entry) }
{
    params?.get("newName")?.as_str()
}

/// Whether a request asks for the declaration too.
pub(crate) fn with_declaration(params: Option<&Value>) -> bool
    ensures { result ≡ with_declaration (option_map (λ v. view v.now) params.entry) }
{
    match declaration_said(params) {
        Some(said) => said,
        None => false,
    }
}

fn declaration_said(params: Option<&Value>) -> Option<bool>
    ensures { result ≡ declaration_said (option_map (λ v. view v.now) params.entry) }
{
    params?.get("context")?.get("includeDeclaration")?.as_bool()
}
