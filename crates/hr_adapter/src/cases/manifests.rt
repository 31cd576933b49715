//! Cases of manifests, tags and lists.
ghost use Rattle.std.specs.Prelude.{IfOk};
ghost use Rattle.hr_adapter.specs.Media.{FitsHeader};
ghost use Rattle.hr_adapter.specs.Put.{IsOwn};

use crate::Registry;
use crate::cases::Difference;
use hr_digest::Digest;
use hr_event::Reference;
use hr_name::{Name, Tag};
use std::alloc::Global;

const ONE: &[u8] = b"library/one";

const TWO: &[u8] = b"library/two";

const V10: &[u8] = b"v10";

const V2: &[u8] = b"v2";

const V9: &[u8] = b"v9";

const FIRST: &[u8] = b"{\"schemaVersion\":2}";

const SECOND: &[u8] = b"{\"schemaVersion\":2,\"layers\":[]}";

const MEDIA: &[u8] = b"application/vnd.oci.image.manifest.v1+json";

// What is done in a repository with these bytes, by this tag or else by their digest.
#[derive(Clone, Copy)]
enum Act {
    // The bytes are put.
    Put(&'static [u8], Option<&'static [u8]>, &'static [u8]),
    // The tag or digest leads to them.
    Leads(&'static [u8], Option<&'static [u8]>, &'static [u8]),
    // It leads nowhere.
    LeadsNowhere(&'static [u8], Option<&'static [u8]>, &'static [u8]),
}

/// The media type of all manifests of the cases.
pub(crate) fn media() -> &'static [u8]
    ensures { FitsHeader result.now }
{
    MEDIA
}

/// Runs the cases of manifests, tags and lists over a registry that holds nothing.
pub(crate) fn run_manifests<R: Registry>(
    alloc: Global,
    registry: &mut R,
) -> Result<(), Difference> {
    let one = Name::read(alloc, ONE)?;
    if !lists_repos(registry, &[]) || !lists_tags(registry, &one, &[]) {
        return Err(Difference::At("no repository and no tag at first"));
    }
    run_acts(alloc, registry, &acts())?;
    if !lists_repos(registry, &[ONE, TWO]) {
        return Err(Difference::At("the repositories in byte order"));
    }
    if !lists_tags(registry, &one, &[V10, V2]) {
        return Err(Difference::At("the tags of a repository in byte order"));
    }
    Ok(())
}

// A tag that is put again names the later manifest; the earlier one and the other tags stay.
fn acts() -> [(&'static str, Act); 17] {
    [
        ("no tag at first", Act::LeadsNowhere(ONE, Some(V2), FIRST)),
        ("no manifest at first", Act::LeadsNowhere(ONE, None, FIRST)),
        ("a put under a digest", Act::Put(ONE, None, FIRST)),
        ("a manifest under its digest", Act::Leads(ONE, None, FIRST)),
        ("another digest", Act::LeadsNowhere(ONE, None, SECOND)),
        (
            "no tag by a digest",
            Act::LeadsNowhere(ONE, Some(V2), FIRST),
        ),
        ("another repository", Act::LeadsNowhere(TWO, None, FIRST)),
        ("a put under a tag", Act::Put(TWO, Some(V2), SECOND)),
        ("a tag", Act::Leads(TWO, Some(V2), SECOND)),
        ("the digest of a tag", Act::Leads(TWO, None, SECOND)),
        ("a tag elsewhere", Act::LeadsNowhere(ONE, Some(V2), SECOND)),
        ("a tag to be moved", Act::Put(ONE, Some(V2), SECOND)),
        ("another tag", Act::Put(ONE, Some(V10), SECOND)),
        ("a tag is moved", Act::Put(ONE, Some(V2), FIRST)),
        ("a moved tag", Act::Leads(ONE, Some(V2), FIRST)),
        ("a tag that stays", Act::Leads(ONE, Some(V10), SECOND)),
        ("no such tag", Act::LeadsNowhere(ONE, Some(V9), FIRST)),
    ]
}

fn run_acts<R: Registry>(
    alloc: Global,
    registry: &mut R,
    acts: &[(&'static str, Act)],
) -> Result<(), Difference> {
    for (case, act) in acts {
        if !act.comes(alloc, registry)? {
            return Err(Difference::At(case));
        }
    }
    Ok(())
}

impl Act {
    // Whether it came so.
    fn comes<R: Registry>(self, alloc: Global, registry: &mut R) -> Result<bool, Difference> {
        match self {
            Act::Put(repo, tag, bytes) => {
                let repo = Name::read(alloc, repo)?;
                let reference = reference(alloc, tag, bytes)?;
                Ok(registry.put_manifest(&repo, &reference, media(), bytes) == Ok(()))
            }
            Act::Leads(repo, tag, bytes) => {
                let repo = Name::read(alloc, repo)?;
                let reference = reference(alloc, tag, bytes)?;
                Ok(leads(registry, &repo, &reference, Some(bytes)))
            }
            Act::LeadsNowhere(repo, tag, bytes) => {
                let repo = Name::read(alloc, repo)?;
                let reference = reference(alloc, tag, bytes)?;
                Ok(leads(registry, &repo, &reference, None))
            }
        }
    }
}

// The tag, where there is one, or else the digest of the bytes.
fn reference(alloc: Global, tag: Option<&[u8]>, bytes: &[u8]) -> Result<Reference, Difference>
    ensures { IfOk result (λ reference. IsOwn reference bytes.now) }
{
    match tag {
        Some(text) => Ok(Reference::Tag(Tag::read(alloc, text)?)),
        None => Ok(Reference::Digest(Digest::of(bytes))),
    }
}

// Whether a reference leads to a manifest of these bytes, or to none, by both calls.
fn leads<R: Registry>(
    registry: &mut R,
    repo: &Name,
    reference: &Reference,
    wanted: Option<&[u8]>,
) -> bool {
    let Ok(head) = registry.head(repo, reference) else {
        return false;
    };
    let Ok(found) = registry.manifest(repo, reference) else {
        return false;
    };
    match (wanted, found) {
        (Some(bytes), Some(found)) => {
            head == Some(Digest::of(bytes))
                && found.media.view() == media()
                && found.bytes.view() == bytes
        }
        (None, None) => head.is_none(),
        (Some(_), None) | (None, Some(_)) => false,
    }
}

// Whether these are all repositories, in this order.
fn lists_repos<R: Registry>(registry: &mut R, wanted: &[&[u8]]) -> bool {
    let Ok(names) = registry.repos() else {
        return false;
    };
    let names = names.view();
    names.len() == wanted.len()
        && names
            .iter()
            .zip(wanted)
            .all(|(name, text)| name.view() == *text)
}

// Whether these are all tags of a repository, in this order.
fn lists_tags<R: Registry>(registry: &mut R, repo: &Name, wanted: &[&[u8]]) -> bool {
    let Ok(tags) = registry.tags(repo) else {
        return false;
    };
    let tags = tags.view();
    tags.len() == wanted.len()
        && tags
            .iter()
            .zip(wanted)
            .all(|(tag, text)| tag.tag.view() == *text)
}
