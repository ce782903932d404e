//! Replies, and their bytes.

ghost use Rattle.std.specs.Prelude.{◌≡◌, false, IfOk};
ghost use Rattle.std.specs.String.{string_bytes};
ghost use Rattle.serde_json.specs.View.{view};
ghost use Rattle.serde_json.specs.Written.{has_float};
ghost use Rattle.relay_query.specs.Replies.{bad_request, head_text, not_found, ok, reply_text};
ghost use Rattle.relay_query.specs.Seen.{seen};

use crate::reply::Reply;
use at_cid::{Memory, Octets};
use json_text::bytes_of;
use serde_json::{Value, json};
use std::alloc::Global;

/// The reply with what was asked for.
pub(crate) fn ok(body: Value) -> Reply
    requires { has_float (view body) ≡ false }
    ensures { seen result ≡ ok (view body) }
{
    Reply {
        code: "200 OK",
        body,
    }
}

/// The reply that refuses a request with an error of this name.
pub(crate) fn bad_request(alloc: Global, name: &str) -> Result<Reply, Memory>
    ensures { IfOk result (λ reply. seen reply ≡ bad_request name.now) }
{
    let body = json!(in alloc; {"error": name})?;
    Ok(Reply {
        code: "400 Bad Request",
        body,
    })
}

/// The reply where no query stands at the path.
pub(crate) fn not_found(alloc: Global) -> Result<Reply, Memory>
    ensures { IfOk result (λ reply. seen reply ≡ not_found) }
{
    let body = json!(in alloc; {"error": "NotFound"})?;
    Ok(Reply {
        code: "404 Not Found",
        body,
    })
}

// The head of a reply whose body has so many bytes.
fn head_text(alloc: Global, code: &str, size: usize) -> Result<String, Memory>
    ensures { IfOk result (λ head. string_bytes head ≡ head_text code.now size) }
{
    let head = format!(in alloc;
        "HTTP/1.1 {code}\r\nContent-Type: application/json\r\nContent-Length: {size}\r\nConnection: close\r\n\r\n"
    )?;
    Ok(head)
}

/// The bytes of a reply: its head, and the JSON text of its body.
pub(crate) fn reply_text(alloc: Global, reply: &Reply) -> Result<Octets, Memory>
    ensures { IfOk result (λ bytes. bytes ≡ reply_text (seen reply.now)) }
{
    let body = bytes_of(alloc, &reply.body)?;
    let head = head_text(alloc, reply.code, body.len())?;
    let mut bytes = Octets::from_slice(alloc, head.as_bytes())?;
    bytes.extend(body.as_slice())?;
    Ok(bytes)
}
