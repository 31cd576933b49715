//! A registry in memory from plain lists. (Our own.)
ghost use Rattle.std.specs.Prelude.{◌≡◌, [], IfOk, map};
ghost use Rattle.std.specs.Cmp.Lexicographic.{slice_cmp};
ghost use Rattle.std.specs.Ordering.{nat_cmp};
ghost use Rattle.hr_digest.specs.Order.{digest_cmp};
ghost use Rattle.hr_memreg.specs.Listed.{blob_entry, content_of, labels_entry, manifest_entry, put_all, target_entry};

use crate::blob::Blob;
use crate::held::Held;
use crate::repository::Repository;
use crate::{BlobAt, Content, ManifestAt, RepoContent, TagAt};
use hr_base::{Bytes, List, Memory};
use hr_digest::Digest;
use hr_event::Fetched;
use hr_name::Tag;
use std::alloc::Global;
use std::collections::BTreeMap;

impl Held {
    /// All these repositories, of two with one name the last.
    pub(crate) fn of(alloc: Global, content: Content) -> Result<Held, Memory>
        ensures { IfOk result (λ held. held ≡ content_of content) }
    {
        let mut repos = BTreeMap::new(alloc);
        for repo in Vec::from(content.repos) {
            let RepoContent {
                name,
                blobs,
                manifests,
                tags,
            } = repo;
            let repository = Repository {
                blobs: blobs_of(alloc, blobs)?,
                manifests: manifests_of(alloc, manifests)?,
                tags: targets_of(alloc, &tags)?,
                labels: labels_of(alloc, tags)?,
            };
            repos.insert(name, repository)?;
        }
        Ok(Held { repos })
    }
}

// The blobs in the order of their digests.
fn blobs_of(alloc: Global, blobs: List<BlobAt>) -> Result<BTreeMap<Digest, Blob>, Memory>
    ensures { IfOk result (λ kept. kept.entries ≡ put_all digest_cmp [] (map blob_entry blobs)) }
{
    let mut kept = BTreeMap::new(alloc);
    for blob in Vec::from(blobs) {
        let BlobAt { digest, bytes } = blob;
        kept.insert(digest, held_blob(alloc, bytes)?)?;
    }
    Ok(kept)
}

// A blob of these bytes.
fn held_blob(alloc: Global, bytes: Bytes) -> Result<Blob, Memory>
    ensures { IfOk result (λ blob. blob ≡ bytes) }
{
    Blob::of(alloc, Vec::from(bytes))
}

// The manifests in the order of their digests.
fn manifests_of(
    alloc: Global,
    manifests: List<ManifestAt>,
) -> Result<BTreeMap<Digest, Fetched>, Memory>
    ensures { IfOk result (λ kept. kept.entries
        ≡ put_all digest_cmp [] (map manifest_entry manifests)) }
{
    let mut kept = BTreeMap::new(alloc);
    for manifest in Vec::from(manifests) {
        let ManifestAt {
            digest,
            media,
            bytes,
        } = manifest;
        kept.insert(digest, Fetched { media, bytes })?;
    }
    Ok(kept)
}

// What the tags name, in the byte order of the tags.
fn targets_of(alloc: Global, tags: &List<TagAt>) -> Result<BTreeMap<Tag, Option<Digest>>, Memory>
    ensures { IfOk result (λ kept. kept.entries
        ≡ put_all (slice_cmp nat_cmp) [] (map target_entry tags.now)) }
{
    let mut kept = BTreeMap::new(alloc);
    for tagged in tags.view() {
        kept.insert(tagged.tag.copy(alloc)?, Some(tagged.digest))?;
    }
    Ok(kept)
}

// The labels of the tags, in the byte order of the tags.
fn labels_of(alloc: Global, tags: List<TagAt>) -> Result<BTreeMap<Tag, List<Bytes>>, Memory>
    ensures { IfOk result (λ kept. kept.entries
        ≡ put_all (slice_cmp nat_cmp) [] (map labels_entry tags)) }
{
    let mut kept = BTreeMap::new(alloc);
    for tagged in Vec::from(tags) {
        let TagAt {
            tag,
            digest: _,
            labels,
        } = tagged;
        kept.insert(tag, labels)?;
    }
    Ok(kept)
}
