//! What is answered to a request to give what stands at a place of a document another name.
ghost use Rattle.std.specs.Prelude.{◌≡◌, IfOk, Some, codes, map, option_map};
ghost use Rattle.serde_json.specs.Data.{array, member, no_members, object};
ghost use Rattle.serde_json.specs.View.{view};
ghost use Rattle.isp_server.specs.Sent.{answer, refused};
ghost use Rattle.isp_server.specs.Told.{items_of};
ghost use Rattle.isp_server.specs.declared.refusal.Refusal.{Refusal};
ghost use Rattle.isp_server.specs.Renaming.{Renames, TextRenames, refusal_of, text_edit, workspace_edit};
ghost use Rattle.isp_server.specs.reader.Views.{place_view};

use crate::deed::Place;
use crate::diagnostics::range;
use crate::refusal::Refusal;
use crate::sent::{answer, refused};
use crate::told::byte_of;
use isp_base::{Gang, Span};
use isp_names::{RenameFault, renamed};
use serde_json::{Value, json};
use std::alloc::{AllocError, Global};

/// The answer to the request of an id, to give what stands at a place another name, where its document has this text, if it is open.
pub(crate) fn renaming(
    alloc: Global,
    gang: Gang,
    id: &Value,
    text: Option<&str>,
    at: Place<'_>,
    name: &str,
) -> Result<Value, AllocError>
    ensures { IfOk result (λ v. Renames gang (option_map (λ t. t.now) text.entry) (place_view at.entry) name.now (view id.now) (view v)) }
{
    match text {
        Some(text) => of_text(alloc, gang, id, text, at, name),
        None => refused(alloc, Some(id), Refusal::NoProgram),
    }
}

fn of_text(
    alloc: Global,
    gang: Gang,
    id: &Value,
    text: &str,
    at: Place<'_>,
    name: &str,
) -> Result<Value, AllocError>
    ensures { IfOk result (λ v. TextRenames gang text.now (place_view at.entry) name.now (view id.now) (view v)) }
{
    match renamed(alloc, gang, text, byte_of(text, at), name) {
        Ok(spans) => edited(alloc, id, at.uri, text, name, &spans),
        Err(why) => not_renamed(alloc, id, why),
    }
}

fn edited(
    alloc: Global,
    id: &Value,
    uri: &str,
    text: &str,
    name: &str,
    spans: &[Span],
) -> Result<Value, AllocError>
    ensures { IfOk result (λ v. view v ≡ answer (view id.now) (workspace_edit uri.now text.now name.now spans.now)) }
{
    let edits = text_edits(alloc, text, name, spans)?;
    let changes = workspace_edit(alloc, uri, edits)?;
    answer(alloc, id, changes)
}

#[tactic(auto, using(crate::proofs::Items::items_are))]
fn workspace_edit(alloc: Global, uri: &str, edits: Vec<Value>) -> Result<Value, AllocError>
    ensures { IfOk result (λ v. view v ≡ object (member (codes "changes") (object (member uri.now (array (items_of (map view edits.items))) no_members)) no_members)) }
{
    let changes = json!(in alloc; {uri: edits})?;
    json!(in alloc; {"changes": changes})
}

fn text_edits(
    alloc: Global,
    text: &str,
    name: &str,
    spans: &[Span],
) -> Result<Vec<Value>, AllocError>
    ensures { IfOk result (λ v. map view v.items ≡ map (text_edit text.now name.now) spans.now) }
{
    let mut edits = Vec::new(alloc);
    for span in spans {
        edits.push(text_edit(alloc, text, name, *span)?)?;
    }
    Ok(edits)
}

fn text_edit(alloc: Global, text: &str, name: &str, span: Span) -> Result<Value, AllocError>
    ensures { IfOk result (λ v. view v ≡ text_edit text.now name.now span) }
{
    let range = range(alloc, text, span)?;
    json!(in alloc; {"newText": name, "range": range})
}

fn refusal_of(why: RenameFault) -> Option<Refusal>
    ensures { result ≡ refusal_of why }
{
    match why {
        RenameFault::Memory => None,
        RenameFault::NoProgram(_) => Some(Refusal::NoProgram),
        RenameFault::NoName => Some(Refusal::NoName),
        RenameFault::NotAName => Some(Refusal::NotAName),
        RenameFault::OfLibrary => Some(Refusal::OfLibrary),
        RenameFault::Clash(_) => Some(Refusal::Clash),
        RenameFault::Captured => Some(Refusal::Captured),
    }
}

fn not_renamed(alloc: Global, id: &Value, why: RenameFault) -> Result<Value, AllocError>
    ensures { IfOk result (λ v. (refusal : Refusal) × (refusal_of why ≡ Some refusal) × (view v ≡ refused (view id.now) refusal)) }
{
    match refusal_of(why) {
        Some(refusal) => refused(alloc, Some(id), refusal),
        None => Err(AllocError),
    }
}
