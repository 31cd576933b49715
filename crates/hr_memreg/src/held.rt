//! The repositories that a registry in memory holds (OCI Distribution 1.1, "Definitions").
ghost use Rattle.std.specs.Prelude.{◌≡◌, ◌≤◌, ◌⊎◌, IfSome, OnErr, OnOk, length, option_map};
ghost use Rattle.std.specs.Option.{option_copied};
ghost use Rattle.hr_adapter.specs.Content.{blob_at, fetch_at, head_at, manifest_at, repo_at, tag_at, with_blob, with_manifest, with_repo, with_tag};
ghost use Rattle.hr_memreg.specs.Answer.{GivesManifest};
ghost use Rattle.hr_adapter.specs.Put.{manifest_alone, put_under};

use crate::blob::Blob;
use crate::repository::{Item, Repository};
use hr_adapter::{BLOB_LIMIT, RegFault};
use hr_base::{MANIFEST_LIMIT, Memory};
use hr_digest::Digest;
use hr_event::{Fetched, Reference};
use hr_name::{Name, Tag};
use std::alloc::Global;
use std::collections::BTreeMap;
use std::marker::Model;

/// Repositories in byte order of their names.
#[derive(Drop)]
pub(crate) struct Held {
    pub(crate) repos: BTreeMap<Name, Repository>,
}

impl Model for Held {
    ghost use Rattle.hr_adapter.specs.Content.{Content};

    ghost Value = { Content };

    ghost view = { λ held. held.repos.entries };
}

impl Held {
    ghost use Rattle.hr_memreg.specs.Item.{with_item};

    /// The repository of that name.
    pub(crate) fn repository(&self, repo: &Name) -> Option<&Repository>
        ensures { option_copied result ≡ repo_at self.now repo.now }
    {
        self.repos.get(repo)
    }

    /// A blob.
    pub(crate) fn blob(&self, repo: &Name, digest: &Digest) -> Option<&Blob>
        ensures { option_copied result ≡ blob_at self.now repo.now digest.now }
    {
        match self.repository(repo) {
            Some(repository) => repository.blob(digest),
            None => None,
        }
    }

    /// A manifest.
    pub(crate) fn manifest(&self, repo: &Name, digest: &Digest) -> Option<&Fetched>
        ensures { option_copied result ≡ manifest_at self.now repo.now digest.now }
    {
        match self.repository(repo) {
            Some(repository) => repository.manifest(digest),
            None => None,
        }
    }

    /// The digest that a tag names, whether its manifest is there or not.
    pub(crate) fn named(&self, repo: &Name, tag: &Tag) -> Option<Digest>
        ensures { result ≡ tag_at self.now repo.now tag.now }
    {
        match self.repository(repo) {
            Some(repository) => repository.named(tag),
            None => None,
        }
    }

    /// The manifest that a reference leads to.
    pub(crate) fn fetched(&self, repo: &Name, reference: &Reference) -> Option<&Fetched>
        ensures { option_copied result ≡ fetch_at self.now repo.now reference.now }
    {
        match reference {
            Reference::Tag(tag) => match self.named(repo, tag) {
                Some(digest) => self.manifest(repo, &digest),
                None => None,
            },
            Reference::Digest(digest) => self.manifest(repo, digest),
        }
    }

    /// The digest of the manifest that a reference leads to.
    pub(crate) fn head(&self, repo: &Name, reference: &Reference) -> Option<Digest>
        ensures { result ≡ head_at self.now repo.now reference.now }
    {
        let digest = match reference {
            Reference::Tag(tag) => self.named(repo, tag)?,
            Reference::Digest(digest) => *digest,
        };
        self.manifest(repo, &digest)?;
        Some(digest)
    }

    /// The length of a blob in bytes.
    pub(crate) fn blob_len(&self, repo: &Name, digest: &Digest) -> Option<u64>
        ensures value { result ≡ option_map length (blob_at self.now repo.now digest.now) }
        ensures small { IfSome result (λ len. len ≤ BLOB_LIMIT) }
    {
        match self.blob(repo, digest) {
            Some(blob) => Some(blob.len()),
            None => None,
        }
    }

    /// A copy of the manifest that a reference leads to.
    pub(crate) fn fetch(
        &self,
        alloc: Global,
        repo: &Name,
        reference: &Reference,
    ) -> Result<Option<Fetched>, RegFault>
        ensures { GivesManifest (fetch_at self.now repo.now reference.now) result }
    {
        let Some(manifest) = self.fetched(repo, reference) else {
            return Ok(None);
        };
        let len = manifest.bytes.view().len() as u64;
        if len > MANIFEST_LIMIT {
            return Err(RegFault::TooLong { len });
        }
        Ok(Some(manifest.copy(alloc)?))
    }

    /// Stores a blob under a digest.
    pub(crate) fn store_blob(
        &mut self,
        alloc: Global,
        repo: &Name,
        digest: Digest,
        blob: Blob,
    ) -> Result<(), Memory>
        ensures ok { OnOk result (self.new ≡ with_blob self.old repo.now digest blob) }
        ensures err { OnErr result (self.new ≡ self.old) }
    {
        self.store(alloc, repo, Item::Blob(digest, blob))
    }

    /// Stores a manifest under a digest.
    pub(crate) fn store_manifest(
        &mut self,
        alloc: Global,
        repo: &Name,
        digest: Digest,
        manifest: Fetched,
    ) -> Result<(), Memory>
        ensures ok { OnOk result (self.new ≡ with_manifest self.old repo.now digest manifest) }
        ensures err { OnErr result (self.new ≡ self.old) }
    {
        self.store(alloc, repo, Item::Manifest(digest, manifest))
    }

    /// Makes a tag name a digest. Its labels stay.
    pub(crate) fn move_tag(
        &mut self,
        alloc: Global,
        repo: &Name,
        tag: &Tag,
        digest: Digest,
    ) -> Result<(), Memory>
        ensures ok { OnOk result (self.new ≡ with_tag self.old repo.now tag.now digest) }
        ensures err { OnErr result (self.new ≡ self.old) }
    {
        let tag = tag.copy(alloc)?;
        self.store(alloc, repo, Item::Tag(tag, digest))
    }

    /// Stores a manifest under its digest and, where the reference is a tag, makes the tag name it.
    pub(crate) fn put(
        &mut self,
        alloc: Global,
        repo: &Name,
        reference: &Reference,
        manifest: Fetched,
    ) -> Result<(), Memory>
        ensures ok { OnOk result (self.new
            ≡ put_under repo.now reference.now manifest.media manifest.bytes self.old) }
        ensures err { OnErr result ((self.new ≡ self.old) ⊎ (self.new
            ≡ manifest_alone repo.now reference.now manifest.media manifest.bytes self.old)) }
    {
        match reference {
            Reference::Tag(tag) => {
                let digest = Digest::of(manifest.bytes.view());
                self.store_manifest(alloc, repo, digest, manifest)?;
                self.move_tag(alloc, repo, tag, digest)
            }
            Reference::Digest(digest) => self.store_manifest(alloc, repo, *digest, manifest),
        }
    }

    // Stores one item in a repository.
    fn store(&mut self, alloc: Global, repo: &Name, item: Item) -> Result<(), Memory>
        ensures ok { OnOk result (self.new ≡ with_repo self.old repo.now (with_item item)) }
        ensures err { OnErr result (self.new ≡ self.old) }
    {
        if let Some(repository) = self.repos.get_mut(repo) {
            return repository.store(item);
        }
        let mut repository = Repository::new(alloc);
        repository.store(item)?;
        self.repos.insert(repo.copy(alloc)?, repository)?;
        Ok(())
    }
}
