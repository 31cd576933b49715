//! The replies of answers (OCI Distribution 1.1, "Endpoints").
ghost use Rattle.std.specs.Prelude.{◌≡◌, ◌∷◌, ◌++◌, [], IfOk, OnOk, codes, decimal};
ghost use Rattle.hr_wire.specs.Line.{line};
ghost use Rattle.hr_wire.specs.Reply.{digest_lines, digest_named, digest_or, digest_told, error_value};
ghost use Rattle.hr_wire.specs.Reply.{held_lines, last_of, link_lines, link_text, next_target, replied, repo_of};
ghost use Rattle.hr_wire.specs.Reply.{reply_value, type_line};

use crate::lines::put_line;
use crate::listings::{repos_body, tags_body};
use crate::ranges::range_text;
use hr_base::{Bytes, List, Memory};
use hr_call::{Answer, Call};
use hr_digest::Digest;
use hr_event::Reference;
use hr_http1::{Head, Reply};
use hr_name::{Name, Tag};
use hr_route::target_of;
use std::alloc::Global;

/// The reply of an answer to a call. A page behind which more remain has a link to the next one, of
/// `hr_route::PAGE` items; manifests and blobs have their digest.
pub fn reply_of(alloc: Global, call: &Call, answer: &Answer) -> Result<Reply, Memory>
    ensures { IfOk result (λ reply. reply ≡ reply_value call.now answer.now) }
{
    match answer {
        Answer::Pong | Answer::Unnamed => digest_reply(alloc, 200, None),
        Answer::Repos { list, more } => repos_reply(alloc, call, list.view(), *more),
        Answer::Tags { list, more } => tags_reply(alloc, call, list.view(), *more),
        Answer::Named { digest } => digest_reply(alloc, 200, Some(*digest)),
        Answer::Missing => error_reply(alloc, 404),
        Answer::Manifest { fetched } => {
            let bytes = fetched.bytes.view();
            let digest = digest_or(digest_told(call), bytes);
            content_reply(alloc, fetched.media.view(), Some(digest), bytes)
        }
        Answer::Size { len } => size_reply(alloc, *len, digest_told(call)),
        Answer::Blob { bytes } => content_reply(
            alloc,
            b"application/octet-stream",
            digest_told(call),
            bytes.view(),
        ),
        Answer::Upload { at } => upload_reply(alloc, at.view()),
        Answer::Stored => digest_reply(alloc, 201, digest_told(call)),
        Answer::Held { at, count } => held_reply(alloc, at.view(), *count),
    }
}

/// The reply of an error with this status, which tells no causes.
pub fn error_reply(alloc: Global, status: u16) -> Result<Reply, Memory>
    ensures { IfOk result (λ reply. reply ≡ error_value status) }
{
    let mut heads = List::new(alloc);
    put_line(alloc, &mut heads, b"Content-Type", b"application/json")?;
    let body = Bytes::of(alloc, b"{\"errors\":[]}")?;
    Ok(Reply {
        status,
        heads,
        body,
    })
}

// A reply without a body, and with the line of a digest, where there is one.
fn digest_reply(alloc: Global, status: u16, digest: Option<Digest>) -> Result<Reply, Memory>
    ensures { IfOk result (λ reply. reply ≡ replied status (digest_lines digest) []) }
{
    let mut heads = List::new(alloc);
    put_digest(alloc, &mut heads, digest)?;
    let body = Bytes::of(alloc, b"")?;
    Ok(Reply {
        status,
        heads,
        body,
    })
}

// A reply with some bytes of a media type.
fn content_reply(
    alloc: Global,
    media: &[u8],
    digest: Option<Digest>,
    bytes: &[u8],
) -> Result<Reply, Memory>
    ensures { IfOk result (λ reply.
        reply ≡ replied 200 (type_line media.now ∷ digest_lines digest) bytes.now) }
{
    let mut heads = List::new(alloc);
    put_line(alloc, &mut heads, b"Content-Type", media)?;
    put_digest(alloc, &mut heads, digest)?;
    let body = Bytes::of(alloc, bytes)?;
    Ok(Reply {
        status: 200,
        heads,
        body,
    })
}

// A reply with the length of a blob.
fn size_reply(alloc: Global, len: u64, digest: Option<Digest>) -> Result<Reply, Memory>
    ensures { IfOk result (λ reply. reply
        ≡ replied 200 (line (codes "Content-Length") (decimal len) ∷ digest_lines digest) []) }
{
    let mut heads = List::new(alloc);
    let number = len.to_string(alloc)?;
    put_line(alloc, &mut heads, b"Content-Length", number.as_bytes())?;
    put_digest(alloc, &mut heads, digest)?;
    let body = Bytes::of(alloc, b"")?;
    Ok(Reply {
        status: 200,
        heads,
        body,
    })
}

// A reply with the place of an upload session.
fn upload_reply(alloc: Global, at: &[u8]) -> Result<Reply, Memory>
    ensures { IfOk result (λ reply.
        reply ≡ replied 202 (line (codes "Location") at.now ∷ []) []) }
{
    let mut heads = List::new(alloc);
    put_line(alloc, &mut heads, b"Location", at)?;
    let body = Bytes::of(alloc, b"")?;
    Ok(Reply {
        status: 202,
        heads,
        body,
    })
}

// A reply with the place of an upload session, and the range of its bytes.
fn held_reply(alloc: Global, at: &[u8], count: u64) -> Result<Reply, Memory>
    ensures { IfOk result (λ reply.
        reply ≡ replied 204 (line (codes "Location") at.now ∷ held_lines count) []) }
{
    let mut heads = List::new(alloc);
    put_line(alloc, &mut heads, b"Location", at)?;
    put_held(alloc, &mut heads, count)?;
    let body = Bytes::of(alloc, b"")?;
    Ok(Reply {
        status: 204,
        heads,
        body,
    })
}

// Puts the line of the bytes that an upload session has behind others, where it has some.
fn put_held(alloc: Global, heads: &mut List<Head>, count: u64) -> Result<(), Memory>
    ensures { OnOk result (heads.new ≡ heads.old ++ held_lines count) }
{
    if count == 0 {
        return Ok(());
    }
    let range = range_text(alloc, 0, count - 1)?;
    put_line(alloc, heads, b"Range", range.view())?;
    Ok(())
}

// Puts the line of a digest behind others, where there is one.
fn put_digest(alloc: Global, heads: &mut List<Head>, digest: Option<Digest>) -> Result<(), Memory>
    ensures { OnOk result (heads.new ≡ heads.old ++ digest_lines digest) }
{
    let Some(digest) = digest else {
        return Ok(());
    };
    let text = digest.text(alloc)?;
    put_line(alloc, heads, b"Docker-Content-Digest", text.view())?;
    Ok(())
}

// A page of repositories.
fn repos_reply(alloc: Global, call: &Call, list: &[Name], more: bool) -> Result<Reply, Memory>
    ensures { IfOk result (λ reply. reply ≡ reply_value call.now (Answer.Repos list.now more)) }
{
    let last = last_name(alloc, list)?;
    let heads = page_lines(alloc, call, last, more)?;
    let body = repos_body(alloc, list)?;
    Ok(Reply {
        status: 200,
        heads,
        body,
    })
}

// A page of tags.
fn tags_reply(alloc: Global, call: &Call, list: &[Tag], more: bool) -> Result<Reply, Memory>
    ensures { IfOk result (λ reply. reply ≡ reply_value call.now (Answer.Tags list.now more)) }
{
    let last = last_tag(alloc, list)?;
    let heads = page_lines(alloc, call, last, more)?;
    let body = tags_body(alloc, repo_of(call), list)?;
    Ok(Reply {
        status: 200,
        heads,
        body,
    })
}

// The lines of a page with this last item.
fn page_lines(
    alloc: Global,
    call: &Call,
    last: Option<Bytes>,
    more: bool,
) -> Result<List<Head>, Memory>
    ensures { IfOk result (λ heads. heads
        ≡ type_line (codes "application/json") ∷ link_lines more (next_target call.now last)) }
{
    let mut heads = List::new(alloc);
    put_line(alloc, &mut heads, b"Content-Type", b"application/json")?;
    let target = next_target(alloc, call, last)?;
    put_link(alloc, &mut heads, more, target.view())?;
    Ok(heads)
}

// Puts the line of the next page behind others, where more items remain.
fn put_link(alloc: Global, heads: &mut List<Head>, more: bool, target: &[u8]) -> Result<(), Memory>
    ensures { OnOk result (heads.new ≡ heads.old ++ link_lines more target.now) }
{
    if !more {
        return Ok(());
    }
    let link = link_text(alloc, target)?;
    put_line(alloc, heads, b"Link", link.view())?;
    Ok(())
}

// The text of a link to the page behind this one (RFC 8288, section 3).
fn link_text(alloc: Global, target: &[u8]) -> Result<Bytes, Memory>
    ensures { IfOk result (λ text. text ≡ link_text target.now) }
{
    let mut text = Vec::new(alloc);
    text.extend_from_slice(b"<")?;
    text.extend_from_slice(target)?;
    text.extend_from_slice(b">; rel=\"next\"")?;
    Ok(Bytes::from(text))
}

// The target of the page behind an item.
fn next_target(alloc: Global, call: &Call, behind: Option<Bytes>) -> Result<Bytes, Memory>
    ensures { IfOk result (λ target. target ≡ next_target call.now behind) }
{
    match call {
        Call::Catalog { .. } => target_of(alloc, &Call::Catalog { last: behind }),
        Call::Tags { repo, .. } => {
            let repo = repo.copy(alloc)?;
            target_of(alloc, &Call::Tags { repo, last: behind })
        }
        Call::Ping
        | Call::HeadManifest { .. }
        | Call::GetManifest { .. }
        | Call::HeadBlob { .. }
        | Call::GetBlob { .. }
        | Call::BeginUpload { .. }
        | Call::EndUpload { .. }
        | Call::PutManifest { .. }
        | Call::Chunk { .. }
        | Call::Progress { .. } => target_of(alloc, call),
    }
}

// The last repository of a page.
fn last_name(alloc: Global, list: &[Name]) -> Result<Option<Bytes>, Memory>
    ensures { IfOk result (λ last. last ≡ last_of list.now) }
{
    match list.last() {
        Some(name) => Ok(Some(Bytes::of(alloc, name.view())?)),
        None => Ok(None),
    }
}

// The last tag of a page.
fn last_tag(alloc: Global, list: &[Tag]) -> Result<Option<Bytes>, Memory>
    ensures { IfOk result (λ last. last ≡ last_of list.now) }
{
    match list.last() {
        Some(tag) => Ok(Some(Bytes::of(alloc, tag.view())?)),
        None => Ok(None),
    }
}

// The repository that a call names, which is empty where it names none.
fn repo_of(call: &Call) -> &[u8]
    ensures { result.now ≡ repo_of call.now }
{
    match call {
        Call::Tags { repo, .. }
        | Call::HeadManifest { repo, .. }
        | Call::GetManifest { repo, .. }
        | Call::HeadBlob { repo, .. }
        | Call::GetBlob { repo, .. }
        | Call::BeginUpload { repo }
        | Call::PutManifest { repo, .. } => repo.view(),
        Call::Ping
        | Call::Catalog { .. }
        | Call::EndUpload { .. }
        | Call::Chunk { .. }
        | Call::Progress { .. } => b"",
    }
}

// The digest of what a call looks up, fetches or puts, where the call tells it.
fn digest_told(call: &Call) -> Option<Digest>
    ensures { result ≡ digest_told call.now }
{
    match call {
        Call::HeadManifest { reference, .. } | Call::GetManifest { reference, .. } => {
            digest_named(reference)
        }
        Call::PutManifest {
            reference,
            bytes,
            ..
        } => Some(digest_or(digest_named(reference), bytes.view())),
        Call::HeadBlob { digest, .. }
        | Call::GetBlob { digest, .. }
        | Call::EndUpload { digest, .. } => Some(*digest),
        Call::Ping
        | Call::Catalog { .. }
        | Call::Tags { .. }
        | Call::BeginUpload { .. }
        | Call::Chunk { .. }
        | Call::Progress { .. } => None,
    }
}

// The digest that a reference is.
fn digest_named(reference: &Reference) -> Option<Digest>
    ensures { result ≡ digest_named reference.now }
{
    match reference {
        Reference::Tag(_) => None,
        Reference::Digest(digest) => Some(*digest),
    }
}

// A digest, or else that of some bytes.
fn digest_or(digest: Option<Digest>, bytes: &[u8]) -> Digest
    ensures { result ≡ digest_or digest bytes.now }
{
    match digest {
        Some(digest) => digest,
        None => Digest::of(bytes),
    }
}
