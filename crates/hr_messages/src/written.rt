//! The text that is written for a message that was read.
use crate::case::{Case, Kind};
use crate::outcome::{Came, hex, read};
use hr_base::{List, Memory};
use hr_cause::MemSink;
use hr_http1::{Head, Reply, Request, Verb, write_request, write_response};
use std::alloc::Global;

/// The text, in hexadecimal and behind `writes`, where the message is read and its verb is known;
/// the lines that frame the body are left out of those that are given.
pub fn written(alloc: Global, case: &Case) -> Result<String, Memory> {
    let mut out = MemSink::new(alloc, List::new(alloc))?;
    let head_only = matches!(case.kind, Kind::Head);
    let done = match read(alloc, case, case.bytes.view(), 0)? {
        Came::Reply(reply, _) => write_reply(alloc, &mut out, reply, head_only)?,
        Came::Request(request, _) => write_known(alloc, &mut out, request)?,
        Came::Nothing | Came::Fault(_) => false,
    };
    if !done {
        return Ok(String::new(alloc));
    }
    let text = hex(alloc, out.sent())?;
    Ok(format!(in alloc; "writes {text}\n")?)
}

fn write_reply(
    alloc: Global,
    out: &mut MemSink,
    reply: Reply,
    head_only: bool,
) -> Result<bool, Memory> {
    let reply = Reply {
        status: reply.status,
        heads: others(alloc, reply.heads)?,
        body: reply.body,
    };
    Ok(write_response(alloc, out, &reply, head_only).is_ok())
}

// Writes a request whose verb is known, and without a body where it is written without the length.
fn write_known(alloc: Global, out: &mut MemSink, request: Request) -> Result<bool, Memory> {
    let verb = request.verb;
    if matches!(verb, Verb::Get | Verb::Head | Verb::Delete) && !request.body.view().is_empty() {
        return Ok(false);
    }
    let request = Request {
        verb,
        target: request.target,
        heads: others(alloc, request.heads)?,
        body: request.body,
    };
    match request.verb {
        Verb::Other => Ok(false),
        _ => Ok(write_request(alloc, out, &request).is_ok()),
    }
}

// The lines that don't frame the body.
fn others(alloc: Global, heads: List<Head>) -> Result<List<Head>, Memory> {
    let mut kept = List::new(alloc);
    let heads: Vec<Head> = Vec::from(heads);
    for head in heads {
        if !frames_body(&head) {
            kept.push(head)?;
        }
    }
    Ok(kept)
}

fn frames_body(head: &Head) -> bool {
    let name = head.name.view();
    name.eq_ignore_ascii_case(b"content-length") || name.eq_ignore_ascii_case(b"transfer-encoding")
}
