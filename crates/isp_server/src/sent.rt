//! What the server sends, as values of JSON.
ghost use Rattle.std.specs.Prelude.{◌≡◌, IfOk};
ghost use Rattle.serde_json.specs.View.{items_view, view};
ghost use Rattle.isp_server.specs.Sent.{answer, capabilities, introduction, published, refused};
ghost use Rattle.isp_server.specs.reader.Views.{id_view};

use crate::refusal::Refusal;
use serde_json::{Value, json};
use std::alloc::{AllocError, Global};

/// The answer to the request of an id.
pub(crate) fn answer(alloc: Global, id: &Value, value: Value) -> Result<Value, AllocError>
    ensures { IfOk result (λ v. view v ≡ answer (view id.now) (view value)) }
{
    json!(in alloc; {"jsonrpc": "2.0", "id": id, "result": value})
}

/// The answer to the request of an id that is refused.
pub(crate) fn refused(alloc: Global, id: Option<&Value>, why: Refusal) -> Result<Value, AllocError>
    ensures { IfOk result (λ v. view v ≡ refused (id_view id.entry) why) }
{
    let id = id_value(id)?;
    let error = json!(in alloc; {"code": why.code(), "message": why.name()})?;
    json!(in alloc; {"jsonrpc": "2.0", "id": id, "error": error})
}

fn id_value(id: Option<&Value>) -> Result<Value, AllocError>
    ensures { IfOk result (λ v. view v ≡ id_view id.entry) }
{
    match id {
        Some(id) => id.clone(),
        None => Ok(Value::Null),
    }
}

/// What `initialize` is answered.
pub(crate) fn introduction(alloc: Global, version: &str) -> Result<Value, AllocError>
    ensures { IfOk result (λ v. view v ≡ introduction version.now) }
{
    let capabilities = capabilities(alloc)?;
    let server = json!(in alloc; {"name": "isp", "version": version})?;
    json!(in alloc; {"capabilities": capabilities, "serverInfo": server})
}

fn capabilities(alloc: Global) -> Result<Value, AllocError>
    ensures { IfOk result (λ v. view v ≡ capabilities) }
{
    let sync = json!(in alloc; {"openClose": true, "change": 1u8})?;
    json!(in alloc; {
        "positionEncoding": "utf-16",
        "completionProvider": {},
        "textDocumentSync": sync,
        "hoverProvider": true,
        "definitionProvider": true,
        "referencesProvider": true,
        "renameProvider": true
    })
}

/// The diagnostics of a document, as a notification.
pub(crate) fn published(
    alloc: Global,
    uri: &str,
    diagnostics: Vec<Value>,
) -> Result<Value, AllocError>
    ensures { IfOk result (λ v. view v ≡ published uri.now (items_view diagnostics.items)) }
{
    let params = json!(in alloc; {"uri": uri, "diagnostics": diagnostics})?;
    json!(in alloc; {"jsonrpc": "2.0", "method": "textDocument/publishDiagnostics", "params": params})
}
