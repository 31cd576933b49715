//! Replies as they are put together: field lines, and bodies of JSON (RFC 8259).
ghost use Rattle.std.specs.Prelude.{◌≡◌, IfOk, Some, false};
ghost use Rattle.serde_json.specs.View.{view};
ghost use Rattle.serde_json.specs.Written.{compact_text, has_float};
ghost use Rattle.hr_rest.specs.Replying.{empty_reply, line, list_reply, location_of, made_reply};

use hr_base::{Bytes, ExecNo, List, Memory};
use hr_frame::Head;
use hr_http1::Reply;
use serde_json::Value;
use std::alloc::Global;

/// A reply with no body. It takes no memory.
pub(crate) fn empty_reply(alloc: Global, status: u16) -> Reply
    ensures { result ≡ empty_reply status }
{
    Reply {
        status,
        heads: List::new(alloc),
        body: Bytes::from(Vec::new(alloc)),
    }
}

/// A list, with the number of all items that it is a page of.
pub(crate) fn list_reply(alloc: Global, total: usize, list: &Value) -> Result<Reply, Memory>
    requires { has_float (view list.now) ≡ false }
    ensures { IfOk result (λ reply. reply ≡ list_reply total (view list.now)) }
{
    let number = total.to_string(alloc)?;
    let mut heads = List::new(alloc);
    heads.push(line(alloc, b"X-Total-Count", Bytes::from(number.into_bytes()))?)?;
    Ok(Reply {
        status: 200,
        heads,
        body: text_of(alloc, list)?,
    })
}

/// An execution that was made, with its place.
pub(crate) fn created_reply(alloc: Global, exec: ExecNo) -> Result<Reply, Memory>
    ensures { IfOk result (λ reply. reply ≡ made_reply (Some exec)) }
{
    let mut heads = List::new(alloc);
    heads.push(line(alloc, b"Location", location_of(alloc, exec)?)?)?;
    Ok(Reply {
        status: 201,
        heads,
        body: Bytes::from(Vec::new(alloc)),
    })
}

// Where an execution is found.
fn location_of(alloc: Global, exec: ExecNo) -> Result<Bytes, Memory>
    ensures { IfOk result (λ at. at ≡ location_of exec.0) }
{
    let mut at = Vec::new(alloc);
    at.extend_from_slice(b"/api/v2.0/replication/executions/")?;
    let number = exec.0.to_string(alloc)?;
    at.extend_from_slice(number.as_bytes())?;
    Ok(Bytes::from(at))
}

fn line(alloc: Global, name: &[u8], value: Bytes) -> Result<Head, Memory>
    ensures { IfOk result (λ head. head ≡ line name.now value) }
{
    Ok(Head {
        name: Bytes::of(alloc, name)?,
        value,
    })
}

/// The text of a value that has no float, without blanks.
pub(crate) fn text_of(alloc: Global, value: &Value) -> Result<Bytes, Memory>
    requires { has_float (view value.now) ≡ false }
    ensures { IfOk result (λ text. text ≡ compact_text (view value.now)) }
{
    let text = value.to_string(alloc)?;
    Ok(Bytes::from(text.into_bytes()))
}
