//! The verbs and the targets of calls (OCI Distribution 1.1, "Endpoints").
ghost use Rattle.std.specs.Prelude.{◌≡◌, ◌++◌, IfOk, OnOk, codes};
ghost use Rattle.form_urlencoded.specs.Form.{byte_serialize};
ghost use Rattle.hr_route.specs.declared.route.Route.TheVariants as route;
ghost use Rattle.hr_route.specs.Path.{path_text, within};
ghost use Rattle.hr_route.specs.Target.{ending_text, last_text, mark_of, route_asked, target_text, verb_of};

use crate::Kind;
use form_urlencoded::byte_serialize;
use hr_base::{Bytes, Memory};
use hr_call::{Call, reference_text};
use hr_digest::Digest;
use hr_head::Verb;
use hr_text::cut;
use std::alloc::{AllocError, Global};

/// The verb of a call.
pub fn verb_of(call: &Call) -> Verb
    ensures { result ≡ verb_of (route_asked call.now) }
{
    match call {
        Call::Ping => Verb::Get,
        Call::Catalog { .. } => Verb::Get,
        Call::Tags { .. } => Verb::Get,
        Call::HeadManifest { .. } => Verb::Head,
        Call::GetManifest { .. } => Verb::Get,
        Call::HeadBlob { .. } => Verb::Head,
        Call::GetBlob { .. } => Verb::Get,
        Call::BeginUpload { .. } => Verb::Post,
        Call::EndUpload { .. } => Verb::Put,
        Call::PutManifest { .. } => Verb::Put,
        Call::Chunk { .. } => Verb::Patch,
        Call::Progress { .. } => Verb::Get,
    }
}

/// The target of a call. A listing asks for pages of `PAGE` items; the end of an upload session has
/// the digest behind a `?`, or behind a `&` where the session's place has a query.
pub fn target_of(alloc: Global, call: &Call) -> Result<Bytes, Memory>
    ensures { IfOk result (λ target. target ≡ target_text (route_asked call.now)) }
{
    match call {
        Call::Ping => Bytes::of(alloc, b"/v2/"),
        Call::Catalog { last } => catalog_target(alloc, last),
        Call::Tags { repo, last } => tags_target(alloc, repo.view(), last),
        Call::HeadManifest { repo, reference }
        | Call::GetManifest { repo, reference }
        | Call::PutManifest {
            repo,
            reference,
            ..
        } => {
            let text = reference_text(alloc, reference)?;
            path_target(alloc, repo.view(), Kind::Manifests, text.view())
        }
        Call::HeadBlob { repo, digest } | Call::GetBlob { repo, digest } => {
            let text = digest.text(alloc)?;
            path_target(alloc, repo.view(), Kind::Blobs, text.view())
        }
        Call::BeginUpload { repo } => path_target(alloc, repo.view(), Kind::Uploads, b""),
        Call::EndUpload { at, digest, .. } => ending_target(alloc, at.view(), digest),
        Call::Chunk { at, .. } | Call::Progress { at } => at.copy(alloc),
    }
}

// A path within a repository.
fn path_target(alloc: Global, repo: &[u8], kind: Kind, last: &[u8]) -> Result<Bytes, Memory>
    ensures { IfOk result (λ target. target ≡ path_text (within repo.now kind last.now)) }
{
    let mut target = Vec::new(alloc);
    put_path(&mut target, repo, kind, last)?;
    Ok(Bytes::from(target))
}

// Puts a path within a repository behind a text.
fn put_path(out: &mut Vec<u8>, repo: &[u8], kind: Kind, last: &[u8]) -> Result<(), AllocError>
    ensures { OnOk result
        (out.new.items ≡ out.old.items ++ path_text (within repo.now kind last.now)) }
{
    out.extend_from_slice(b"/v2/")?;
    out.extend_from_slice(repo)?;
    out.extend_from_slice(kind.text())?;
    out.push(b'/')?;
    out.extend_from_slice(last)
}

fn catalog_target(alloc: Global, last: &Option<Bytes>) -> Result<Bytes, Memory>
    ensures { IfOk result (λ target. target ≡ codes "/v2/_catalog?n=1000" ++ last_text last.now) }
{
    let mut target = Vec::new(alloc);
    target.extend_from_slice(b"/v2/_catalog?n=1000")?;
    put_last(&mut target, last)?;
    Ok(Bytes::from(target))
}

fn tags_target(alloc: Global, repo: &[u8], last: &Option<Bytes>) -> Result<Bytes, Memory>
    ensures { IfOk result (λ target.
        target ≡ target_text (route.Tags repo.now last.now)) }
{
    let mut target = Vec::new(alloc);
    put_path(&mut target, repo, Kind::Tags, b"list")?;
    target.extend_from_slice(b"?n=1000")?;
    put_last(&mut target, last)?;
    Ok(Bytes::from(target))
}

// Puts the key `last` behind a text, where a page begins behind an item.
fn put_last(out: &mut Vec<u8>, last: &Option<Bytes>) -> Result<(), AllocError>
    ensures { OnOk result (out.new.items ≡ out.old.items ++ last_text last.now) }
{
    let Some(last) = last else {
        return Ok(());
    };
    out.extend_from_slice(b"&last=")?;
    put_escaped(out, last.view())
}

// Puts a value behind a text, with its escapes.
fn put_escaped(out: &mut Vec<u8>, value: &[u8]) -> Result<(), AllocError>
    ensures { OnOk result (out.new.items ≡ out.old.items ++ byte_serialize value.now) }
{
    for piece in byte_serialize(value) {
        out.extend_from_slice(piece.as_bytes())?;
    }
    Ok(())
}

fn ending_target(alloc: Global, at: &[u8], digest: &Digest) -> Result<Bytes, Memory>
    ensures { IfOk result (λ target. target ≡ ending_text at.now digest.now) }
{
    let text = digest.text(alloc)?;
    let mut target = Vec::new(alloc);
    target.extend_from_slice(at)?;
    target.push(mark_of(at))?;
    target.extend_from_slice(b"digest=")?;
    put_escaped(&mut target, text.view())?;
    Ok(Bytes::from(target))
}

// What stands before a further key: `?`, or `&` behind a query.
fn mark_of(at: &[u8]) -> u8
    ensures { result ≡ mark_of at.now }
{
    if cut(at, b'?').1.is_some() {
        b'&'
    } else {
        b'?'
    }
}
