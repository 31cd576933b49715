//! The requests of calls (OCI Distribution 1.1, "Endpoints").
ghost use Rattle.std.specs.Prelude.{◌≡◌, ◌++◌, IfOk, OnOk};
ghost use Rattle.hr_wire.specs.Range.{FitsRange};
ghost use Rattle.hr_wire.specs.Request.{CanBeSent, accepted, body_of, own_lines, range_lines, request_value};

use crate::lines::put_line;
use crate::ranges::range_text;
use hr_base::{Bytes, List, Memory};
use hr_call::Call;
use hr_http1::{Head, Request};
use hr_manifest::{DOCKER_IMAGE, DOCKER_INDEX, OCI_IMAGE, OCI_INDEX};
use hr_route::{target_of, verb_of};
use std::alloc::Global;

/// The request of a call to a host, as `example.org:5000`. A chunk whose place is told has bytes, and
/// the place behind it is below `2^63`.
pub fn request_of(alloc: Global, call: &Call, host: &[u8]) -> Result<Request, Memory>
    requires { CanBeSent call.now }
    ensures { IfOk result (λ request. request ≡ request_value host.now call.now) }
{
    let mut heads = List::new(alloc);
    put_line(alloc, &mut heads, b"Host", host)?;
    put_own(alloc, &mut heads, call)?;
    put_line(alloc, &mut heads, b"Connection", b"close")?;
    let target = target_of(alloc, call)?;
    let body = body_of(alloc, call)?;
    Ok(Request {
        verb: verb_of(call),
        target,
        heads,
        body,
    })
}

// Puts the lines of a call that others don't have behind others.
fn put_own(alloc: Global, heads: &mut List<Head>, call: &Call) -> Result<(), Memory>
    requires { CanBeSent call.now }
    ensures { OnOk result (heads.new ≡ heads.old ++ own_lines call.now) }
{
    match call {
        Call::HeadManifest { .. } | Call::GetManifest { .. } => {
            let accepted = accepted(alloc)?;
            put_line(alloc, heads, b"Accept", accepted.view())
        }
        Call::PutManifest { media, .. } => { put_line(alloc, heads, b"Content-Type", media.view()) }
        Call::Chunk { from, bytes, .. } => {
            put_line(alloc, heads, b"Content-Type", b"application/octet-stream")?;
            put_range(alloc, heads, *from, bytes.view())?;
            Ok(())
        }
        Call::Ping
        | Call::Catalog { .. }
        | Call::Tags { .. }
        | Call::HeadBlob { .. }
        | Call::GetBlob { .. }
        | Call::BeginUpload { .. }
        | Call::EndUpload { .. }
        | Call::Progress { .. } => Ok(()),
    }
}

// The media types of manifests that are read here.
fn accepted(alloc: Global) -> Result<Bytes, Memory>
    ensures { IfOk result (λ text. text ≡ accepted) }
{
    let mut text = Vec::new(alloc);
    text.extend_from_slice(OCI_IMAGE)?;
    text.extend_from_slice(b", ")?;
    text.extend_from_slice(OCI_INDEX)?;
    text.extend_from_slice(b", ")?;
    text.extend_from_slice(DOCKER_IMAGE)?;
    text.extend_from_slice(b", ")?;
    text.extend_from_slice(DOCKER_INDEX)?;
    Ok(Bytes::from(text))
}

// Puts the line of the place of a chunk behind others, where that is told.
fn put_range(
    alloc: Global,
    heads: &mut List<Head>,
    from: Option<u64>,
    bytes: &[u8],
) -> Result<(), Memory>
    requires { FitsRange from bytes.now }
    ensures { OnOk result (heads.new ≡ heads.old ++ range_lines from bytes.now) }
{
    let Some(from) = from else {
        return Ok(());
    };
    let range = range_text(alloc, from, from + bytes.len() as u64 - 1)?;
    put_line(alloc, heads, b"Content-Range", range.view())?;
    Ok(())
}

// The bytes that a call sends.
fn body_of(alloc: Global, call: &Call) -> Result<Bytes, Memory>
    ensures { IfOk result (λ bytes. bytes ≡ body_of call.now) }
{
    match call {
        Call::EndUpload { bytes, .. }
        | Call::PutManifest { bytes, .. }
        | Call::Chunk { bytes, .. } => bytes.copy(alloc),
        Call::Ping
        | Call::Catalog { .. }
        | Call::Tags { .. }
        | Call::HeadManifest { .. }
        | Call::GetManifest { .. }
        | Call::HeadBlob { .. }
        | Call::GetBlob { .. }
        | Call::BeginUpload { .. }
        | Call::Progress { .. } => Bytes::of(alloc, b""),
    }
}
