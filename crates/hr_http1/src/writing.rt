//! Messages written to a device (RFC 9112, sections 3 to 6).
ghost use Rattle.std.specs.Prelude.{◌≡◌, ◌≢◌, ◌⊎◌, ◌+◌, ◌%◌, ◌++◌, IfOk, IfErr, OnOk, OnErr};
ghost use Rattle.http1.specs.Head.{print_header};
ghost use Rattle.hr_body.specs.Fault.{FailsByDevice};
ghost use Rattle.hr_cause.specs.Stream.{FailsByFault, Took, TookFront};
ghost use Rattle.hr_http1.specs.Written.{has_length, length_lines, method_of, print_lines, reason_of};
ghost use Rattle.hr_http1.specs.Written.{reply_head, reply_text, request_head, request_line};
ghost use Rattle.hr_http1.specs.Written.{request_text_of, sent_body, status_line};

use crate::{Reply, Request};
use hr_base::Bytes;
use hr_body::WireFault;
use hr_cause::{Failed, Sink, send};
use hr_frame::{Head, has_no_body};
use hr_head::Verb;
use http::StatusCode;
use std::alloc::{AllocError, Global};

// Puts a field line behind the text.
fn put_line(text: &mut Vec<u8>, name: &[u8], value: &[u8]) -> Result<(), AllocError>
    ensures { OnOk result
        (text.new.items ≡ text.old.items ++ print_header (name.now, value.now)) }
{
    text.extend_from_slice(name)?;
    text.extend_from_slice(b": ")?;
    text.extend_from_slice(value)?;
    text.extend_from_slice(b"\r\n")
}

fn put_lines(text: &mut Vec<u8>, heads: &[Head]) -> Result<(), AllocError>
    ensures { OnOk result
        (text.new.items ≡ text.old.items ++ print_lines heads.now) }
{
    for head in heads {
        put_line(text, head.name.view(), head.value.view())?;
    }
    Ok(())
}

// Puts the line with the length of the body behind the text, where one is written.
fn put_length(
    alloc: Global,
    text: &mut Vec<u8>,
    written: bool,
    len: usize,
) -> Result<(), AllocError>
    ensures { OnOk result
        (text.new.items ≡ text.old.items ++ print_lines (length_lines written len)) }
{
    if !written {
        return Ok(());
    }
    let number = len.to_string(alloc)?;
    put_line(text, b"Content-Length", number.as_bytes())
}

fn digit(n: u16) -> u8
    ensures { result ≡ 48 + n % 10 }
{
    b'0' + (n % 10) as u8
}

// The reason of a status, which is empty where it has none (RFC 9110, section 15).
fn reason(status: u16) -> &'static str
    ensures { result.now ≡ reason_of status }
{
    let Ok(code) = StatusCode::from_u16(status) else {
        return "";
    };
    match code.canonical_reason() {
        Some(reason) => reason,
        None => "",
    }
}

fn put_status_line(text: &mut Vec<u8>, status: u16) -> Result<(), AllocError>
    ensures { OnOk result (text.new.items ≡ text.old.items ++ status_line status) }
{
    text.extend_from_slice(b"HTTP/1.1 ")?;
    text.extend_from_slice(&[digit(status / 100), digit(status / 10), digit(status), b' '])?;
    text.extend_from_slice(reason(status).as_bytes())?;
    text.extend_from_slice(b"\r\n")?;
    Ok(())
}

fn method(verb: Verb) -> &'static [u8]
    ensures { result.now ≡ method_of verb }
{
    match verb {
        Verb::Get => b"GET",
        Verb::Head => b"HEAD",
        Verb::Post => b"POST",
        Verb::Put => b"PUT",
        Verb::Patch => b"PATCH",
        Verb::Delete => b"DELETE",
        Verb::Other => b"",
    }
}

fn put_request_line(text: &mut Vec<u8>, verb: Verb, target: &[u8]) -> Result<(), AllocError>
    ensures { OnOk result (text.new.items ≡ text.old.items ++ request_line verb target.now) }
{
    text.extend_from_slice(method(verb))?;
    text.extend_from_slice(b" ")?;
    text.extend_from_slice(target)?;
    text.extend_from_slice(b" HTTP/1.1\r\n")
}

// The head of a reply, with the length of its body where that is written.
fn reply_head(alloc: Global, reply: &Reply, content: bool) -> Result<Vec<u8>, AllocError>
    ensures { IfOk result (λ text. text.items ≡ reply_head content reply.now) }
{
    let mut text = Vec::new(alloc);
    put_status_line(&mut text, reply.status)?;
    put_lines(&mut text, reply.heads.view())?;
    put_length(alloc, &mut text, content, reply.body.view().len())?;
    text.extend_from_slice(b"\r\n")?;
    Ok(text)
}

// Whether the length of the body is written with this verb.
fn has_length(verb: Verb) -> bool
    ensures { result ≡ has_length verb }
{
    !matches!(verb, Verb::Get | Verb::Head | Verb::Delete)
}

fn request_head(alloc: Global, request: &Request) -> Result<Vec<u8>, AllocError>
    ensures { IfOk result (λ text. text.items ≡ request_head request.now) }
{
    let mut text = Vec::new(alloc);
    put_request_line(&mut text, request.verb, request.target.view())?;
    put_lines(&mut text, request.heads.view())?;
    put_length(
        alloc,
        &mut text,
        has_length(request.verb),
        request.body.view().len(),
    )?;
    text.extend_from_slice(b"\r\n")?;
    Ok(text)
}

// The bytes of a body, where it is written.
fn content_of(content: bool, body: &Bytes) -> &[u8]
    ensures { result.now ≡ sent_body content body.now }
{
    if content { body.view() } else { b"" }
}

// Sends a head, and the body behind it.
fn send_message<K: Sink>(out: &mut K, head: &[u8], body: &[u8]) -> Result<(), Failed>
    ensures ok { OnOk result (Took (K.sent out.old) (head.now ++ body.now) (K.sent out.new)) }
    ensures err { OnErr result
        (TookFront (K.sent out.old) (head.now ++ body.now) (K.sent out.new)) }
    ensures left { K.left out.new ≡ K.left out.old }
    ensures cause { FailsByFault (K.faults out.old) (K.faults out.new) result }
{
    send(out, head)?;
    send(out, body)
}

/// Writes a reply: its first line, the given field lines, the line with the length of its body, an
/// empty line, and the body; `head_only` where it answers a `HEAD` request. Neither length nor body
/// is written then, nor with status 100 to 199, 204 or 304. Where the device fails, a front of this
/// was sent; where memory is wanting, nothing was.
pub fn write_response<K: Sink>(
    alloc: Global,
    out: &mut K,
    reply: &Reply,
    head_only: bool,
) -> Result<(), WireFault>
    ensures ok { OnOk result
        (Took (K.sent out.old) (reply_text head_only reply.now) (K.sent out.new)) }
    ensures err { OnErr result
        (TookFront (K.sent out.old) (reply_text head_only reply.now) (K.sent out.new)) }
    ensures kinds { IfErr result (λ why. (why ≡ WireFault.Failed) ⊎ (why ≡ WireFault.Memory)) }
    ensures left { K.left out.new ≡ K.left out.old }
    ensures cause { FailsByDevice (K.faults out.old) (K.faults out.new) result }
{
    let content = !has_no_body(head_only, reply.status);
    let head = reply_head(alloc, reply, content)?;
    send_message(out, &head, content_of(content, &reply.body))?;
    Ok(())
}

/// Writes a request, whose verb is known: its first line, the given field lines, the line with the
/// length of its body, an empty line, and the body. The length is not written with `GET`, `HEAD`
/// and `DELETE`. Where the device fails, a front of this was sent; where memory is wanting,
/// nothing was.
pub fn write_request<K: Sink>(
    alloc: Global,
    out: &mut K,
    request: &Request,
) -> Result<(), WireFault>
    requires { request.now.verb ≢ Verb.Other }
    ensures ok { OnOk result
        (Took (K.sent out.old) (request_text_of request.now) (K.sent out.new)) }
    ensures err { OnErr result
        (TookFront (K.sent out.old) (request_text_of request.now) (K.sent out.new)) }
    ensures kinds { IfErr result (λ why. (why ≡ WireFault.Failed) ⊎ (why ≡ WireFault.Memory)) }
    ensures left { K.left out.new ≡ K.left out.old }
    ensures cause { FailsByDevice (K.faults out.old) (K.faults out.new) result }
{
    let head = request_head(alloc, request)?;
    send_message(out, &head, request.body.view())?;
    Ok(())
}
