//! What a message asks for.
ghost use Rattle.std.specs.Prelude.{◌≡◌, IfNone, IfSome, option_map};
ghost use Rattle.serde_json.specs.View.{view};
ghost use Rattle.isp_rpc.specs.Calls.{IsCall, IsNoCall};

use serde_json::Value;

/// A request, which has an id, or a notification.
#[derive(Clone, Copy)]
pub struct Call<'v> {
    pub id: Option<&'v Value>,
    pub method: &'v str,
    pub params: Option<&'v Value>,
}

/// What a message asks for, by section 4 of JSON-RPC 2.0: `jsonrpc` is `"2.0"` and `method` a string. None where it is no such
/// object, as an answer is none.
pub fn read_call(message: &Value) -> Option<Call<'_>>
    ensures some { IfSome result (λ c. IsCall (view message.now) (option_map (λ v. view v.now) c.id) c.method.now (option_map (λ v. view v.now) c.params)) }
    ensures none { IfNone result (IsNoCall (view message.now)) }
{
    let version = message.get("jsonrpc").and_then(Value::as_str)?;
    if version != "2.0" {
        return None;
    }
    let method = message.get("method").and_then(Value::as_str)?;
    Some(Call {
        id: message.get("id"),
        method,
        params: message.get("params"),
    })
}
