//! Which answer a reply is to a call (OCI Distribution 1.1, "Endpoints").
ghost use Rattle.std.specs.Prelude.{◌≡◌, ◌<◌, ◌^◌, [], false, IfOk, IfSome, Some, codes, option_map};
ghost use Rattle.std.specs.Option.{option_copied};
ghost use Rattle.hr_frame.specs.Named.{values_named};
ghost use Rattle.hr_wire.specs.Answer.{IsAnswerOf, answer_said, count_by, count_of, has_some, held_by};
ghost use Rattle.hr_wire.specs.Answer.{is_uncoded, manifest_said, named_by, place_by, repos_page};
ghost use Rattle.hr_wire.specs.Answer.{size_by, tags_page, there_or, upload_said, with_status};
ghost use Rattle.hr_wire.specs.Line.{only};
ghost use Rattle.hr_wire.specs.Listing.{repos_in, tags_in};

use crate::lines::{find_line, only_line};
use crate::listings::{repos_in, tags_in};
use crate::media::type_said;
use crate::ranges::read_range;
use hr_base::{Bytes, List, Memory};
use hr_call::{Answer, Call, read_digest};
use hr_event::Fetched;
use hr_frame::read_length;
use hr_http1::{Head, Reply};
use hr_route::Found;
use std::alloc::Global;

/// Why a reply is no answer.
#[derive(Clone, Copy, Debug, PartialEq, Eq)]
pub enum NotAnswer {
    /// It has this status. That is another than the call's answers have; or a line or the body can't
    /// be read, a name or a tag in it is none, or it has a coding.
    Status { status: u16 },
    /// There was no memory for the answer.
    Memory,
}

impl From<Memory> for NotAnswer {
    ghost use Rattle.hr_wire.specs.declared.answers.NotAnswer.TheVariants.{Memory as no_memory};

    ghost from_gives = { λ _ e. e ≡ no_memory };

    fn from(_: Memory) -> NotAnswer {
        NotAnswer::Memory
    }
}

/// The answer to a call that a reply is. A page has `more` exactly where there is a line `Link`.
pub fn answer_of(alloc: Global, call: &Call, reply: &Reply) -> Result<Answer, NotAnswer>
    ensures { IsAnswerOf call.now reply.now result }
{
    let none = NotAnswer::Status {
        status: reply.status,
    };
    if !is_uncoded(reply.heads.view()) {
        return Err(none);
    }
    match answer_said(alloc, call, reply)? {
        Some(answer) => Ok(answer),
        None => Err(none),
    }
}

// Whether a reply has no coding but `identity`.
fn is_uncoded(heads: &[Head]) -> bool
    ensures { result ≡ is_uncoded (values_named (codes "content-encoding") heads.now) }
{
    match find_line(heads, b"content-encoding") {
        Found::Absent => true,
        Found::One(value) => value.eq_ignore_ascii_case(b"identity"),
        Found::Many => false,
    }
}

// The answer to a call that a reply without a coding is.
fn answer_said(alloc: Global, call: &Call, reply: &Reply) -> Result<Option<Answer>, Memory>
    ensures { IfOk result (λ said. said ≡ answer_said call.now reply.now) }
{
    let heads = reply.heads.view();
    match call {
        Call::Ping => Ok(with_status(200, reply.status, Answer::Pong)),
        Call::Catalog { .. } => repos_said(alloc, reply),
        Call::Tags { .. } => tags_said(alloc, reply),
        Call::HeadManifest { .. } => Ok(there_or_missing(reply.status, named_by(heads))),
        Call::GetManifest { .. } => {
            let said = manifest_said(alloc, reply.body.view(), heads)?;
            Ok(there_or_missing(reply.status, said))
        }
        Call::HeadBlob { .. } => Ok(there_or_missing(reply.status, size_by(heads))),
        Call::GetBlob { .. } => {
            let bytes = reply.body.copy(alloc)?;
            Ok(there_or_missing(reply.status, Some(Answer::Blob { bytes })))
        }
        Call::BeginUpload { .. } | Call::Chunk { .. } => upload_said(alloc, reply),
        Call::EndUpload { .. } | Call::PutManifest { .. } => {
            Ok(with_status(201, reply.status, Answer::Stored))
        }
        Call::Progress { at } => held_said(alloc, at.view(), reply),
    }
}

// An answer, where a reply has this status.
fn with_status(wanted: u16, status: u16, answer: Answer) -> Option<Answer>
    ensures { result ≡ with_status wanted status (Some answer) }
{
    if status == wanted { Some(answer) } else { None }
}

// What a reply with status 200 says; one with 404 says that it is missing.
fn there_or_missing(status: u16, said: Option<Answer>) -> Option<Answer>
    ensures { result ≡ there_or status said Answer.Missing }
{
    if status == 200 {
        said
    } else {
        with_status(404, status, Answer::Missing)
    }
}

// A page of repositories.
fn repos_said(alloc: Global, reply: &Reply) -> Result<Option<Answer>, Memory>
    ensures { IfOk result (λ said. said ≡ with_status 200 reply.now.status
        (option_map (repos_page (has_some (values_named (codes "link") reply.now.heads)))
        (repos_in reply.now.body))) }
{
    if reply.status != 200 {
        return Ok(None);
    }
    match repos_in(alloc, reply.body.view())? {
        Some(list) => {
            let more = has_link(reply.heads.view());
            Ok(Some(Answer::Repos { list, more }))
        }
        None => Ok(None),
    }
}

// A page of tags. A repository that isn't there has none.
fn tags_said(alloc: Global, reply: &Reply) -> Result<Option<Answer>, Memory>
    ensures { IfOk result (λ said. said ≡ there_or reply.now.status
        (option_map (tags_page (has_some (values_named (codes "link") reply.now.heads)))
        (tags_in reply.now.body)) (Answer.Tags [] false)) }
{
    if reply.status != 200 {
        let none = Answer::Tags {
            list: List::new(alloc),
            more: false,
        };
        return Ok(with_status(404, reply.status, none));
    }
    match tags_in(alloc, reply.body.view())? {
        Some(list) => {
            let more = has_link(reply.heads.view());
            Ok(Some(Answer::Tags { list, more }))
        }
        None => Ok(None),
    }
}

// Whether a page has a link to the next one.
fn has_link(heads: &[Head]) -> bool
    ensures { result ≡ has_some (values_named (codes "link") heads.now) }
{
    match find_line(heads, b"link") {
        Found::Absent => false,
        Found::One(_) | Found::Many => true,
    }
}

// The digest of a manifest, where it is told.
fn named_by(heads: &[Head]) -> Option<Answer>
    ensures { result ≡ named_by (values_named (codes "docker-content-digest") heads.now) }
{
    match find_line(heads, b"docker-content-digest") {
        Found::Absent => Some(Answer::Unnamed),
        Found::One(value) => {
            let digest = read_digest(value)?;
            Some(Answer::Named { digest })
        }
        Found::Many => None,
    }
}

// A manifest with these bytes, where its media type is told.
fn manifest_said(alloc: Global, bytes: &[u8], heads: &[Head]) -> Result<Option<Answer>, Memory>
    ensures { IfOk result (λ said. said
        ≡ manifest_said bytes.now (only (values_named (codes "content-type") heads.now))) }
{
    let Some(value) = only_line(heads, b"content-type") else {
        return Ok(None);
    };
    let media = Bytes::of(alloc, type_said(value))?;
    let bytes = Bytes::of(alloc, bytes)?;
    Ok(Some(Answer::Manifest {
        fetched: Fetched { media, bytes },
    }))
}

// The length of a blob, where it is told.
fn size_by(heads: &[Head]) -> Option<Answer>
    ensures { result ≡ size_by (values_named (codes "content-length") heads.now) }
{
    match find_line(heads, b"content-length") {
        Found::Absent => Some(Answer::Unnamed),
        Found::One(value) => {
            let len = read_length(value)?;
            Some(Answer::Size { len })
        }
        Found::Many => None,
    }
}

// The place of an upload session that has begun or goes on.
fn upload_said(alloc: Global, reply: &Reply) -> Result<Option<Answer>, Memory>
    ensures { IfOk result (λ said. said ≡ with_status 202 reply.now.status
        (upload_said (only (values_named (codes "location") reply.now.heads)))) }
{
    if reply.status != 202 {
        return Ok(None);
    }
    let Some(at) = only_line(reply.heads.view(), b"location") else {
        return Ok(None);
    };
    let at = Bytes::of(alloc, at)?;
    Ok(Some(Answer::Upload { at }))
}

// How far an upload session is that was asked for at this place.
fn held_said(alloc: Global, at: &[u8], reply: &Reply) -> Result<Option<Answer>, Memory>
    ensures { IfOk result (λ said. said ≡ with_status 204 reply.now.status
        (held_by (place_by at.now (values_named (codes "location") reply.now.heads))
        (count_by (values_named (codes "range") reply.now.heads)))) }
{
    if reply.status != 204 {
        return Ok(None);
    }
    let Some(at) = place_by(at, reply.heads.view()) else {
        return Ok(None);
    };
    let Some(count) = count_by(reply.heads.view()) else {
        return Ok(None);
    };
    Ok(Some(Answer::Held {
        at: Bytes::of(alloc, at)?,
        count,
    }))
}

// The place of an upload session that was asked for at this one.
fn place_by<'a>(at: &'a [u8], heads: &'a [Head]) -> Option<&'a [u8]>
    ensures { option_copied result ≡ place_by at.now (values_named (codes "location") heads.now) }
{
    match find_line(heads, b"location") {
        Found::Absent => Some(at),
        Found::One(value) => Some(value),
        Found::Many => None,
    }
}

// How many bytes an upload session has.
fn count_by(heads: &[Head]) -> Option<u64>
    ensures { result ≡ count_by (values_named (codes "range") heads.now) }
{
    match find_line(heads, b"range") {
        Found::Absent => Some(0),
        Found::One(value) => count_of(read_range(value)),
        Found::Many => None,
    }
}

// How many bytes there are up to the end of a range from 0.
fn count_of(range: Option<(u64, u64)>) -> Option<u64>
    requires { IfSome range (λ places. places.1 < 2 ^ 63) }
    ensures { result ≡ count_of range }
{
    let (first, last) = range?;
    if first == 0 { Some(last + 1) } else { None }
}
