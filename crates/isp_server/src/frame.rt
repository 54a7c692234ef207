//! The bytes of a message.
ghost use Rattle.std.specs.Prelude.{◌≡◌, ◌++◌, IfOk, codes, decimal, length, string_bytes};
ghost use Rattle.serde_json.specs.View.{view};
ghost use Rattle.isp_server.specs.Sent.{Frames};

use serde_json::Value;
use std::alloc::{AllocError, Global};

/// The header and the content of a message, as they go out.
pub fn framed(alloc: Global, message: &Value) -> Result<String, AllocError>
    ensures { IfOk result (λ bytes. Frames (view message.now) (string_bytes bytes)) }
{
    let content = message.to_string(alloc)?;
    with_header(alloc, content.as_str())
}

// A content after its header.
fn with_header(alloc: Global, content: &str) -> Result<String, AllocError>
    ensures { IfOk result (λ bytes. string_bytes bytes
        ≡ codes "Content-Length: " ++ decimal (length content.now) ++ codes "\r\n\r\n" ++ content.now) }
{
    let mut bytes = length_field(alloc, content.len())?;
    bytes.push_str("\r\n\r\n")?;
    bytes.push_str(content)?;
    Ok(bytes)
}

fn length_field(alloc: Global, length: usize) -> Result<String, AllocError>
    ensures { IfOk result (λ bytes. string_bytes bytes ≡ codes "Content-Length: " ++ decimal length) }
{
    format!(in alloc; "Content-Length: {length}")
}
