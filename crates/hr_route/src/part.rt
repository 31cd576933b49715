//! Components of paths, with their escapes read (RFC 3986, section 2.1). An escaped slash stands for a
//! slash.
ghost use Rattle.std.specs.Prelude.{◌≡◌, IfOk};
ghost use Rattle.percent_encoding.specs.Percent.{percent_decode};
ghost use Rattle.hr_route.specs.Part.{blob_named, both, manifest_named, repo_named};

use hr_base::Memory;
use hr_call::{read_digest, read_name, read_reference};
use hr_digest::Digest;
use hr_event::Reference;
use hr_name::Name;
use percent_encoding as percent;
use std::alloc::{AllocError, Global};

/// The bytes that a text stands for, each escape for one.
pub(crate) fn unescaped(alloc: Global, text: &[u8]) -> Result<Vec<u8>, AllocError>
    ensures { IfOk result (λ bytes. bytes.items ≡ percent_decode text.now) }
{
    let mut bytes = Vec::new(alloc);
    percent::percent_decode(text).append_to(&mut bytes)?;
    Ok(bytes)
}

/// The repository that a part of a path names, or `None` where it names none.
pub(crate) fn repo_in(alloc: Global, repo: &[u8]) -> Result<Option<Name>, Memory>
    ensures { IfOk result (λ named. named ≡ repo_named repo.now) }
{
    let text = unescaped(alloc, repo)?;
    read_name(alloc, &text)
}

/// The repository and the reference that parts of a path name, or `None` where one names none.
pub(crate) fn manifest_in(
    alloc: Global,
    repo: &[u8],
    last: &[u8],
) -> Result<Option<(Name, Reference)>, Memory>
    ensures { IfOk result (λ named. named ≡ manifest_named repo.now last.now) }
{
    let Some(repo) = repo_in(alloc, repo)? else {
        return Ok(None);
    };
    let text = unescaped(alloc, last)?;
    match read_reference(alloc, &text)? {
        Some(reference) => Ok(Some((repo, reference))),
        None => Ok(None),
    }
}

/// The repository and the digest that parts of a path name, or `None` where one names none.
pub(crate) fn blob_in(
    alloc: Global,
    repo: &[u8],
    last: &[u8],
) -> Result<Option<(Name, Digest)>, Memory>
    ensures { IfOk result (λ named. named ≡ blob_named repo.now last.now) }
{
    let Some(repo) = repo_in(alloc, repo)? else {
        return Ok(None);
    };
    let text = unescaped(alloc, last)?;
    match read_digest(&text) {
        Some(digest) => Ok(Some((repo, digest))),
        None => Ok(None),
    }
}
