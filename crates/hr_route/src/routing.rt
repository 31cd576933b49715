//! Which call a verb and a target ask for (OCI Distribution 1.1, "Endpoints"), by this table. A query
//! is passed over but for the keys that are named.
//!
//! | Path | Verbs | Keys |
//! |---|---|---|
//! | `/v2/` | `GET` | |
//! | `/v2/_catalog` | `GET` | `n`, `last` |
//! | `/v2/NAME/tags/list` | `GET` | `n`, `last` |
//! | `/v2/NAME/manifests/REFERENCE` | `HEAD`, `GET`, `PUT` | |
//! | `/v2/NAME/blobs/DIGEST` | `HEAD`, `GET` | |
//! | `/v2/NAME/blobs/uploads/` | `POST` | |
//! | `/v2/NAME/blobs/uploads/KEY` | `GET`, `PATCH`, `PUT` | `digest`, of `PUT` |
//!
//! The verb is looked at before the names, the digests and the query.
ghost use Rattle.std.specs.Prelude.{◌≡◌, IfOk, codes};
ghost use Rattle.hr_route.specs.Part.{repo_named};
ghost use Rattle.hr_route.specs.Path.{way_in};
ghost use Rattle.hr_route.specs.Query.{listing_asked, query_of, without};
ghost use Rattle.hr_route.specs.Routing.{Answers, IsRouteOf, asked, blob_asked, ending_asked, is_get};
ghost use Rattle.hr_route.specs.Routing.{is_post, manifest_asked, place_within, session_asked};
ghost use Rattle.hr_route.specs.Routing.{tags_asked, top_asked, upload_asked};

use crate::part::{blob_in, manifest_in, repo_in};
use crate::path::{Kind, Parts, parts_of};
use crate::query::{digest_in, last_in, put_others, query_in};
use crate::{NoRoute, Route, page_size};
use hr_base::{Bytes, Memory};
use hr_digest::Digest;
use hr_head::Verb;
use hr_text::cut;
use std::alloc::{AllocError, Global};

const BAD: NoRoute = NoRoute::Status { status: 400 };

const UNKNOWN: NoRoute = NoRoute::Status { status: 404 };

const OTHER_VERB: NoRoute = NoRoute::Status { status: 405 };

/// What the verb and the target of a request ask for.
pub fn route_of(alloc: Global, verb: Verb, target: &[u8]) -> Result<Route, NoRoute>
    ensures { IsRouteOf verb target.now result }
{
    let (path, _) = cut(target, b'?');
    match parts_of(path) {
        Some(parts) => asked(alloc, verb, parts, target),
        None => Err(UNKNOWN),
    }
}

// What is asked of a path.
fn asked(alloc: Global, verb: Verb, parts: Parts<'_>, target: &[u8]) -> Result<Route, NoRoute>
    ensures { Answers (asked verb (way_in parts.entry) target.now) result }
{
    match parts {
        Parts::Top { last } => top_asked(alloc, verb, last, target),
        Parts::Within { repo, kind, last } => match kind {
            Kind::Tags => tags_asked(alloc, verb, repo, last, target),
            Kind::Manifests => manifest_asked(alloc, verb, repo, last),
            Kind::Blobs => blob_asked(alloc, verb, repo, last),
            Kind::Uploads => upload_asked(alloc, verb, repo, last, target),
        },
    }
}

// Whether a verb is `GET`.
fn is_get(verb: Verb) -> bool
    ensures { result ≡ is_get verb }
{
    matches!(verb, Verb::Get)
}

// What is asked of the registry as a whole.
fn top_asked(alloc: Global, verb: Verb, last: &[u8], target: &[u8]) -> Result<Route, NoRoute>
    ensures { Answers (top_asked verb last.now target.now) result }
{
    if last.is_empty() {
        return if is_get(verb) {
            Ok(Route::Ping)
        } else {
            Err(OTHER_VERB)
        };
    }
    if last != b"_catalog".as_slice() {
        return Err(UNKNOWN);
    }
    if !is_get(verb) {
        return Err(OTHER_VERB);
    }
    match listing_in(alloc, target)? {
        Some(last) => Ok(Route::Catalog { last }),
        None => Err(BAD),
    }
}

// The item behind which a page is to begin, where a target has one; `None` where its query is bad.
fn listing_in(alloc: Global, target: &[u8]) -> Result<Option<Option<Bytes>>, Memory>
    ensures { IfOk result (λ last. last ≡ listing_asked (query_of target.now)) }
{
    if page_size(target).is_none() {
        return Ok(None);
    }
    last_in(alloc, query_in(target))
}

// What is asked of the tags of a repository.
fn tags_asked(
    alloc: Global,
    verb: Verb,
    repo: &[u8],
    last: &[u8],
    target: &[u8],
) -> Result<Route, NoRoute>
    ensures { Answers (tags_asked verb repo.now last.now target.now) result }
{
    if last != b"list".as_slice() {
        return Err(UNKNOWN);
    }
    if !is_get(verb) {
        return Err(OTHER_VERB);
    }
    let Some(repo) = repo_in(alloc, repo)? else {
        return Err(BAD);
    };
    match listing_in(alloc, target)? {
        Some(last) => Ok(Route::Tags { repo, last }),
        None => Err(BAD),
    }
}

// What is asked of a manifest.
fn manifest_asked(alloc: Global, verb: Verb, repo: &[u8], last: &[u8]) -> Result<Route, NoRoute>
    ensures { Answers (manifest_asked verb repo.now last.now) result }
{
    match verb {
        Verb::Get => match manifest_in(alloc, repo, last)? {
            Some((repo, reference)) => Ok(Route::GetManifest { repo, reference }),
            None => Err(BAD),
        },
        Verb::Head => match manifest_in(alloc, repo, last)? {
            Some((repo, reference)) => Ok(Route::HeadManifest { repo, reference }),
            None => Err(BAD),
        },
        Verb::Put => match manifest_in(alloc, repo, last)? {
            Some((repo, reference)) => Ok(Route::PutManifest { repo, reference }),
            None => Err(BAD),
        },
        Verb::Post | Verb::Patch | Verb::Delete | Verb::Other => Err(OTHER_VERB),
    }
}

// What is asked of a blob.
fn blob_asked(alloc: Global, verb: Verb, repo: &[u8], last: &[u8]) -> Result<Route, NoRoute>
    ensures { Answers (blob_asked verb repo.now last.now) result }
{
    match verb {
        Verb::Get => match blob_in(alloc, repo, last)? {
            Some((repo, digest)) => Ok(Route::GetBlob { repo, digest }),
            None => Err(BAD),
        },
        Verb::Head => match blob_in(alloc, repo, last)? {
            Some((repo, digest)) => Ok(Route::HeadBlob { repo, digest }),
            None => Err(BAD),
        },
        Verb::Post | Verb::Put | Verb::Patch | Verb::Delete | Verb::Other => Err(OTHER_VERB),
    }
}

// What is asked of the upload sessions of a repository, or of one of them.
fn upload_asked(
    alloc: Global,
    verb: Verb,
    repo: &[u8],
    last: &[u8],
    target: &[u8],
) -> Result<Route, NoRoute>
    ensures { Answers (upload_asked verb repo.now last.now target.now) result }
{
    if !last.is_empty() {
        return session_asked(alloc, verb, repo, target);
    }
    if !is_post(verb) {
        return Err(OTHER_VERB);
    }
    match repo_in(alloc, repo)? {
        Some(repo) => Ok(Route::BeginUpload { repo }),
        None => Err(BAD),
    }
}

// Whether a verb is `POST`.
fn is_post(verb: Verb) -> bool
    ensures { result ≡ is_post verb }
{
    matches!(verb, Verb::Post)
}

// What is asked of an upload session.
fn session_asked(alloc: Global, verb: Verb, repo: &[u8], target: &[u8]) -> Result<Route, NoRoute>
    ensures { Answers (session_asked verb repo.now target.now) result }
{
    match verb {
        Verb::Get => match place_in(alloc, repo, target)? {
            Some(at) => Ok(Route::Progress { at }),
            None => Err(BAD),
        },
        Verb::Patch => match place_in(alloc, repo, target)? {
            Some(at) => Ok(Route::Chunk { at }),
            None => Err(BAD),
        },
        Verb::Put => match ending_in(alloc, repo, target)? {
            Some((at, digest)) => Ok(Route::EndUpload { at, digest }),
            None => Err(BAD),
        },
        Verb::Head | Verb::Post | Verb::Delete | Verb::Other => Err(OTHER_VERB),
    }
}

// A place within a repository, or `None` where that has no name.
fn place_in(alloc: Global, repo: &[u8], at: &[u8]) -> Result<Option<Bytes>, Memory>
    ensures { IfOk result (λ place. place ≡ place_within (repo_named repo.now) at.now) }
{
    match repo_in(alloc, repo)? {
        Some(_) => Ok(Some(Bytes::of(alloc, at)?)),
        None => Ok(None),
    }
}

// The place and the digest of a target that ends an upload session, or `None` where one is bad.
fn ending_in(alloc: Global, repo: &[u8], target: &[u8]) -> Result<Option<(Bytes, Digest)>, Memory>
    ensures { IfOk result (λ ending. ending ≡ ending_asked repo.now target.now) }
{
    let at = without_digest(alloc, target)?;
    let Some(at) = place_in(alloc, repo, &at)? else {
        return Ok(None);
    };
    match digest_in(alloc, query_in(target))? {
        Some(digest) => Ok(Some((at, digest))),
        None => Ok(None),
    }
}

// A target without its pieces of the key `digest`.
fn without_digest(alloc: Global, target: &[u8]) -> Result<Vec<u8>, AllocError>
    ensures { IfOk result (λ at. at.items ≡ without (codes "digest") target.now) }
{
    let (path, _) = cut(target, b'?');
    let mut at = Vec::new(alloc);
    at.extend_from_slice(path)?;
    put_others(&mut at, query_in(target), b"digest")?;
    Ok(at)
}
