//! A repository in memory: its blobs, its manifests, its tags and their labels (OCI Distribution
//! 1.1, "Definitions").
ghost use Rattle.std.specs.Prelude.{◌≡◌, OnErr, OnOk};
ghost use Rattle.std.specs.Option.{option_copied, option_flatten};
ghost use Rattle.std.specs.Map.{lookup};
ghost use Rattle.std.specs.BTreeMap.{is_at};
ghost use Rattle.std.specs.Cmp.Lexicographic.{slice_cmp};
ghost use Rattle.std.specs.Ordering.{nat_cmp};
ghost use Rattle.hr_digest.specs.Order.{digest_cmp};
ghost use Rattle.hr_adapter.specs.Content.{empty_repo};

use crate::blob::Blob;
use hr_base::{Bytes, List, Memory};
use hr_digest::Digest;
use hr_event::Fetched;
use hr_name::Tag;
use std::alloc::Global;
use std::collections::BTreeMap;
use std::marker::Model;

/// A repository, whose blobs, manifests and tags stand in the order of their digests and bytes. In
/// memory every tag names a digest.
#[derive(Drop)]
pub(crate) struct Repository {
    pub(crate) blobs: BTreeMap<Digest, Blob>,
    pub(crate) manifests: BTreeMap<Digest, Fetched>,
    pub(crate) tags: BTreeMap<Tag, Option<Digest>>,
    pub(crate) labels: BTreeMap<Tag, List<Bytes>>,
}

impl Model for Repository {
    ghost use Rattle.hr_adapter.specs.Content.{Repo};

    ghost Value = { Repo };

    ghost view = { λ held. record {
      blobs = held.blobs.entries;
      manifests = held.manifests.entries;
      tags = held.tags.entries;
      labels = held.labels.entries;
    } };
}

/// What one call stores in a repository.
#[derive(Drop)]
pub(crate) enum Item {
    /// A blob under a digest.
    Blob(Digest, Blob),
    /// A manifest under a digest.
    Manifest(Digest, Fetched),
    /// A tag that names a digest. Its labels stay.
    Tag(Tag, Digest),
}

impl Repository {
    ghost use Rattle.hr_memreg.specs.Item.{with_item};

    /// A repository that holds nothing. It takes no memory.
    pub(crate) fn new(alloc: Global) -> Repository
        ensures { result ≡ empty_repo }
    {
        Repository {
            blobs: BTreeMap::new(alloc),
            manifests: BTreeMap::new(alloc),
            tags: BTreeMap::new(alloc),
            labels: BTreeMap::new(alloc),
        }
    }

    /// A blob.
    pub(crate) fn blob(&self, digest: &Digest) -> Option<&Blob>
        ensures { option_copied result ≡ lookup (is_at (digest_cmp digest.now)) self.now.blobs }
    {
        self.blobs.get(digest)
    }

    /// A manifest.
    pub(crate) fn manifest(&self, digest: &Digest) -> Option<&Fetched>
        ensures { option_copied result ≡ lookup (is_at (digest_cmp digest.now)) self.now.manifests }
    {
        self.manifests.get(digest)
    }

    /// The digest that a tag names, whether its manifest is there or not.
    pub(crate) fn named(&self, tag: &Tag) -> Option<Digest>
        ensures { result
            ≡ option_flatten (lookup (is_at (slice_cmp nat_cmp tag.now)) self.now.tags) }
    {
        match self.tags.get(tag) {
            Some(target) => *target,
            None => None,
        }
    }

    /// Stores one item.
    pub(crate) fn store(&mut self, item: Item) -> Result<(), Memory>
        ensures ok { OnOk result (self.new ≡ with_item item self.old) }
        ensures err { OnErr result (self.new ≡ self.old) }
    {
        match item {
            Item::Blob(digest, blob) => {
                self.blobs.insert(digest, blob)?;
                Ok(())
            }
            Item::Manifest(digest, manifest) => {
                self.manifests.insert(digest, manifest)?;
                Ok(())
            }
            Item::Tag(tag, digest) => {
                self.tags.insert(tag, Some(digest))?;
                Ok(())
            }
        }
    }
}
