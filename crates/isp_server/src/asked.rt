//! Which deed a message asks for.
ghost use Rattle.std.specs.Prelude.{◌≡◌, option_map};
ghost use Rattle.serde_json.specs.View.{view};
ghost use Rattle.isp_server.specs.Connections.{connection_of, is_open};
ghost use Rattle.isp_server.specs.Deeds.{Asks, asked, completing, edit, held, held_open, introduced, is_id, notification, released_open, renaming, request, running, told};
ghost use Rattle.isp_server.specs.reader.Views.{deed_view, document_view, place_view};

use crate::deed::{Deed, Document, Place};
use crate::params::{changed, new_name, opened, place, uri_of, with_declaration};
use crate::phase::Phase;
use crate::question::Question;
use crate::refusal::Refusal;
use crate::server::Server;
use isp_rpc::{Call, read_call};
use serde_json::Value;

/// The deed that a message asks a server for.
pub(crate) fn deed_of<'v>(server: &Server, message: &'v Value) -> Deed<'v>
    ensures { Asks server.now.phase (is_open (connection_of server.now)) (view message.now) (deed_view result) }
{
    match read_call(message) {
        Some(call) => asked(server, &call),
        None => Deed::Refuse(None, Refusal::InvalidRequest),
    }
}

// The deed that a call asks for.
fn asked<'v>(server: &Server, call: &Call<'v>) -> Deed<'v>
    ensures { deed_view result ≡ asked server.now.phase (is_open (connection_of server.now)) (option_map (λ v. view v.now) call.now.id) call.now.method.now (option_map (λ v. view v.now) call.now.params) }
{
    match call.id {
        None => notification(server, call.method, call.params),
        Some(id) if is_id(id) => request(server.phase, id, call.method, call.params),
        Some(_) => Deed::Refuse(None, Refusal::InvalidRequest),
    }
}

#[tactic(auto, using(crate::proofs::Ids::id_tests))]
fn is_id(id: &Value) -> bool
    ensures { result ≡ is_id (view id.now) }
{
    id.is_number() || id.is_string() || id.is_null()
}

fn request<'v>(phase: Phase, id: &'v Value, method: &str, params: Option<&'v Value>) -> Deed<'v>
    ensures { deed_view result ≡ request phase (view id.now) method.now (option_map (λ v. view v.now) params.entry) }
{
    match phase {
        Phase::Fresh => match method {
            "initialize" => introduced(id, params),
            _ => Deed::Refuse(Some(id), Refusal::ServerNotInitialized),
        },
        Phase::Running => running(id, method, params),
        Phase::ShutDown => Deed::Refuse(Some(id), Refusal::InvalidRequest),
    }
}

fn running<'v>(id: &'v Value, method: &str, params: Option<&'v Value>) -> Deed<'v>
    ensures { deed_view result ≡ running (view id.now) method.now (option_map (λ v. view v.now) params.entry) }
{
    match method {
        "shutdown" => Deed::ShutDown(id),
        "initialize" => Deed::Refuse(Some(id), Refusal::InvalidRequest),
        "textDocument/hover" => told(id, Question::Hover, place(params)),
        "textDocument/definition" => told(id, Question::Definition, place(params)),
        "textDocument/references" => {
            let declared = with_declaration(params);
            told(id, Question::References { declared }, place(params))
        }
        "textDocument/completion" => completing(id, place(params)),
        "textDocument/rename" => renaming(id, place(params), new_name(params)),
        _ => Deed::Refuse(Some(id), Refusal::MethodNotFound),
    }
}

fn told<'v>(id: &'v Value, question: Question, place: Option<Place<'v>>) -> Deed<'v>
    ensures { deed_view result ≡ told (view id.now) question (option_map place_view place.entry) }
{
    match place {
        Some(place) => Deed::Tell(id, question, place),
        None => Deed::Refuse(Some(id), Refusal::InvalidParams),
    }
}

fn completing<'v>(id: &'v Value, place: Option<Place<'v>>) -> Deed<'v>
    ensures { deed_view result ≡ completing (view id.now) (option_map place_view place.entry) }
{
    match place {
        Some(place) => Deed::Complete(id, place),
        None => Deed::Refuse(Some(id), Refusal::InvalidParams),
    }
}

fn renaming<'v>(id: &'v Value, place: Option<Place<'v>>, name: Option<&'v str>) -> Deed<'v>
    ensures { deed_view result ≡ renaming (view id.now) (option_map place_view place.entry) (option_map (λ n. n.now) name.entry) }
{
    match (place, name) {
        (Some(place), Some(name)) => Deed::Rename(id, place, name),
        _ => Deed::Refuse(Some(id), Refusal::InvalidParams),
    }
}

fn introduced<'v>(id: &'v Value, params: Option<&'v Value>) -> Deed<'v>
    ensures { deed_view result ≡ introduced (view id.now) (option_map (λ v. view v.now) params.entry) }
{
    match params.and_then(Value::as_object) {
        Some(_) => Deed::Introduce(id),
        None => Deed::Refuse(Some(id), Refusal::InvalidParams),
    }
}

fn notification<'v>(server: &Server, method: &str, params: Option<&'v Value>) -> Deed<'v>
    ensures { deed_view result ≡ notification server.now.phase (is_open (connection_of server.now)) method.now (option_map (λ v. view v.now) params.entry) }
{
    if method == "exit" {
        return Deed::Leave;
    }
    match server.phase {
        Phase::Running => edit(server, method, params),
        Phase::Fresh | Phase::ShutDown => Deed::Ignore,
    }
}

fn edit<'v>(server: &Server, method: &str, params: Option<&'v Value>) -> Deed<'v>
    ensures { deed_view result ≡ edit (is_open (connection_of server.now)) method.now (option_map (λ v. view v.now) params.entry) }
{
    match method {
        "textDocument/didOpen" => held(opened(params)),
        "textDocument/didChange" => held_open(server, changed(params)),
        "textDocument/didClose" => released_open(server, uri_of(params)),
        _ => Deed::Ignore,
    }
}

fn held(document: Option<Document<'_>>) -> Deed<'_>
    ensures { deed_view result ≡ held (option_map document_view document.entry) }
{
    match document {
        Some(document) => Deed::Hold(document),
        None => Deed::Ignore,
    }
}

fn held_open<'v>(server: &Server, document: Option<Document<'v>>) -> Deed<'v>
    ensures { deed_view result ≡ held_open (is_open (connection_of server.now)) (option_map document_view document.entry) }
{
    match document {
        Some(document) if server.is_open(document.uri) => Deed::Hold(document),
        _ => Deed::Ignore,
    }
}

fn released_open<'v>(server: &Server, uri: Option<&'v str>) -> Deed<'v>
    ensures { deed_view result ≡ released_open (is_open (connection_of server.now)) (option_map (λ u. u.now) uri.entry) }
{
    match uri {
        Some(uri) if server.is_open(uri) => Deed::Release(uri),
        _ => Deed::Ignore,
    }
}
