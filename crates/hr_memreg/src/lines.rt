//! The content of a registry in memory as plain lists. (Our own.)
ghost use Rattle.std.specs.Prelude.{◌≡◌, IfOk, map};
ghost use Rattle.std.specs.List.{filter_map};
ghost use Rattle.hr_memreg.specs.Listed.{blob_line, lines_of, manifest_line, repo_line, tag_line};

use crate::blob::Blob;
use crate::held::Held;
use crate::repository::Repository;
use crate::{BlobAt, Content, ManifestAt, RepoContent, TagAt};
use hr_base::{Bytes, List, Memory};
use hr_digest::Digest;
use hr_event::Fetched;
use hr_name::Name;
use std::alloc::Global;
use std::collections::BTreeMap;

impl Held {
    /// All repositories, in byte order.
    pub(crate) fn content(&self, alloc: Global) -> Result<Content, Memory>
        ensures { IfOk result (λ content. content ≡ lines_of self.now) }
    {
        let mut repos = List::new(alloc);
        for (name, repository) in self.repos.iter() {
            repos.push(repository.content(alloc, name)?)?;
        }
        Ok(Content { repos })
    }
}

impl Repository {
    // The repository, under a name.
    fn content(&self, alloc: Global, name: &Name) -> Result<RepoContent, Memory>
        ensures { IfOk result (λ repo. repo ≡ repo_line (name.now, self.now)) }
    {
        Ok(RepoContent {
            name: name.copy(alloc)?,
            blobs: blob_lines(alloc, &self.blobs)?,
            manifests: manifest_lines(alloc, &self.manifests)?,
            tags: self.tag_lines(alloc)?,
        })
    }

    // The tags that name a digest, in byte order.
    fn tag_lines(&self, alloc: Global) -> Result<List<TagAt>, Memory>
        ensures { IfOk result (λ lines. lines ≡ filter_map (tag_line self.now) self.now.tags) }
    {
        let mut lines = List::new(alloc);
        for (tag, target) in self.tags.iter() {
            if let Some(digest) = target {
                lines.push(TagAt {
                    tag: tag.copy(alloc)?,
                    digest: *digest,
                    labels: self.labels_of(alloc, tag)?,
                })?;
            }
        }
        Ok(lines)
    }
}

// The blobs, in the order of their digests.
fn blob_lines(alloc: Global, blobs: &BTreeMap<Digest, Blob>) -> Result<List<BlobAt>, Memory>
    ensures { IfOk result (λ lines. lines ≡ map blob_line blobs.now.entries) }
{
    let mut lines = List::new(alloc);
    for (digest, blob) in blobs.iter() {
        lines.push(BlobAt {
            digest: *digest,
            bytes: Bytes::of(alloc, blob.view())?,
        })?;
    }
    Ok(lines)
}

// The manifests, in the order of their digests.
fn manifest_lines(
    alloc: Global,
    manifests: &BTreeMap<Digest, Fetched>,
) -> Result<List<ManifestAt>, Memory>
    ensures { IfOk result (λ lines. lines ≡ map manifest_line manifests.now.entries) }
{
    let mut lines = List::new(alloc);
    for (digest, manifest) in manifests.iter() {
        lines.push(ManifestAt {
            digest: *digest,
            media: manifest.media.copy(alloc)?,
            bytes: manifest.bytes.copy(alloc)?,
        })?;
    }
    Ok(lines)
}
