//! Requests as they are written and as they are read, where there is ample memory.

mod replies;

use crate::{call_of, request_of};
use hr_base::{Bytes, List};
use hr_call::{Call, read_name, read_reference};
use hr_http1::{Head, Request, Verb};
use hr_route::NoRoute;
use std::alloc::Global;
use std::test::Fail;

// A request with one field line.
fn request(
    alloc: Global,
    verb: Verb,
    target: &str,
    line: (&str, &str),
    body: &[u8],
) -> Result<Request, Fail> {
    let mut heads = List::new(alloc);
    let name = Bytes::of(alloc, line.0.as_bytes())?;
    let value = Bytes::of(alloc, line.1.as_bytes())?;
    heads.push(Head { name, value })?;
    Ok(Request {
        verb,
        target: Bytes::of(alloc, target.as_bytes())?,
        heads,
        body: Bytes::of(alloc, body)?,
    })
}

// The status with which a request is refused, or 0 where it is a call.
fn status_of(alloc: Global, request: &Request) -> u16 {
    match call_of(alloc, request) {
        Ok(_) => 0,
        Err(NoRoute::Status { status }) => status,
        Err(NoRoute::Memory) => 1,
    }
}

// A chunk of three bytes behind ten others.
fn chunk(alloc: Global) -> Result<Call, Fail> {
    Ok(Call::Chunk {
        at: Bytes::of(alloc, b"/v2/a/blobs/uploads/1?x=y")?,
        from: Some(10),
        bytes: Bytes::of(alloc, b"abc")?,
    })
}

// The request of that chunk.
fn chunk_request(alloc: Global) -> Result<Request, Fail> {
    let call = Call::Chunk {
        at: Bytes::of(alloc, b"/v2/a/blobs/uploads/1?x=y")?,
        from: Some(10),
        bytes: Bytes::of(alloc, b"abc")?,
    };
    Ok(request_of(alloc, &call, b"r.example:5000")?)
}

// The request of a look at a manifest.
fn look_request(alloc: Global) -> Result<Request, Fail> {
    let call = Call::HeadManifest {
        repo: read_name(alloc, b"a")?.ok_or("a name")?,
        reference: read_reference(alloc, b"v1")?.ok_or("a tag")?,
    };
    Ok(request_of(alloc, &call, b"r.example:5000")?)
}

// The field lines of a request, each with a line end.
fn lines_of(alloc: Global, request: &Request) -> Result<Bytes, Fail> {
    let mut text = Vec::new(alloc);
    for head in request.heads.view() {
        text.extend_from_slice(head.name.view())?;
        text.extend_from_slice(b": ")?;
        text.extend_from_slice(head.value.view())?;
        text.push(b'\n')?;
    }
    Ok(Bytes::from(text))
}

const CHUNK_LINES: &str =
    "Host: r.example:5000\nContent-Type: application/octet-stream\nContent-Range: 10-12\nConnection: close\n";

const LOOK_LINES: &str =
    "Host: r.example:5000\nAccept: application/vnd.oci.image.manifest.v1+json, application/vnd.oci.image.index.v1+json, application/vnd.docker.distribution.manifest.v2+json, application/vnd.docker.distribution.manifest.list.v2+json\nConnection: close\n";

// The lines that RFC 9110 and OCI Distribution 1.1 give.
#[test]
fn calls_have_their_lines(rt: HostRuntime) -> Result<(), Fail> {
    let alloc = rt.alloc();
    let chunk = lines_of(alloc, &chunk_request(alloc)?)?;
    assert_eq!(rt; chunk.view(), CHUNK_LINES.as_bytes());
    let look = lines_of(alloc, &look_request(alloc)?)?;
    assert_eq!(rt; look.view(), LOOK_LINES.as_bytes());
    Ok(())
}

#[test]
fn a_chunk_is_read_back(rt: HostRuntime) -> Result<(), Fail> {
    let alloc = rt.alloc();
    let request = chunk_request(alloc)?;
    assert_eq!(rt; call_of(alloc, &request).ok(), Some(chunk(alloc)?));
    Ok(())
}

#[test]
fn puts_and_chunks_are_taken_or_refused_by_their_lines(rt: HostRuntime) -> Result<(), Fail> {
    let alloc = rt.alloc();
    let rows: [(Verb, &str, &str, &str, &str, u16); 14] = [
        (
            Verb::Put,
            "/v2/a/manifests/v1",
            "content-type",
            "application/json; charset=utf-8",
            "{}",
            0,
        ),
        (
            Verb::Put,
            "/v2/a/manifests/v1",
            "Content-Type",
            " text/plain ",
            "{}",
            0,
        ),
        (
            Verb::Put,
            "/v2/a/manifests/v1",
            "Content-Type",
            "; charset=utf-8",
            "{}",
            400,
        ),
        (
            Verb::Put,
            "/v2/a/manifests/v1",
            "Content-Type",
            "text plain",
            "{}",
            400,
        ),
        (
            Verb::Put,
            "/v2/a/manifests/v1",
            "Accept",
            "text/plain",
            "{}",
            400,
        ),
        (
            Verb::Put,
            "/v2/a/manifests/-",
            "Content-Type",
            "text/plain",
            "{}",
            400,
        ),
        (
            Verb::Patch,
            "/v2/a/blobs/uploads/1",
            "Content-Range",
            "5-7",
            "abc",
            0,
        ),
        (
            Verb::Patch,
            "/v2/a/blobs/uploads/1",
            "Content-Range",
            "5-8",
            "abc",
            400,
        ),
        (
            Verb::Patch,
            "/v2/a/blobs/uploads/1",
            "Content-Range",
            "5-6",
            "abc",
            400,
        ),
        (
            Verb::Patch,
            "/v2/a/blobs/uploads/1",
            "Content-Range",
            "5-4",
            "",
            400,
        ),
        (
            Verb::Patch,
            "/v2/a/blobs/uploads/1",
            "Content-Range",
            "bytes 5-7/8",
            "abc",
            400,
        ),
        (
            Verb::Patch,
            "/v2/a/blobs/uploads/1",
            "Content-Range",
            "0-9223372036854775808",
            "a",
            400,
        ),
        (
            Verb::Patch,
            "/v2/a/blobs/uploads/1",
            "Content-Type",
            "text/plain",
            "",
            0,
        ),
        (Verb::Get, "/v2/a/other/1", "Accept", "*/*", "", 404),
    ];
    for (verb, target, name, value, body, status) in rows {
        let request = request(alloc, verb, target, (name, value), body.as_bytes())?;
        assert_eq!(rt; status_of(alloc, &request), status, "{target} {value}");
    }
    Ok(())
}
