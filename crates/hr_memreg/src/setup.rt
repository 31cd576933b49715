//! What a registry in memory will hold, filled piece by piece before it is opened. (Our own.)
ghost use Rattle.std.specs.Prelude.{◌≡◌, [], OnErr, OnOk};
ghost use Rattle.std.specs.Option.{option_copied};
ghost use Rattle.hr_adapter.specs.Content.{manifest_at, tag_at, with_blob, with_manifest, with_tag};

use crate::MemRegistry;
use crate::blob::Blob;
use crate::held::Held;
use crate::standing::Standing;
use hr_base::{Bytes, List, Memory, Trace};
use hr_digest::Digest;
use hr_event::Fetched;
use hr_name::{Name, Tag};
use std::alloc::Global;
use std::collections::BTreeMap;
use std::marker::Model;

/// What a registry will hold.
#[derive(Drop)]
pub struct Setup {
    alloc: Global,
    held: Held,
}

impl Model for Setup {
    ghost use Rattle.hr_adapter.specs.Content.{Content};

    ghost Value = { Content };

    ghost view = { λ setup. setup.held };
}

impl Setup {
    /// Nothing. It takes no memory.
    pub fn new(alloc: Global) -> Setup
        ensures { result ≡ [] }
    {
        let held = Held {
            repos: BTreeMap::new(alloc),
        };
        Setup { alloc, held }
    }

    /// Stores a blob under a digest, whatever its bytes have. None of them is copied.
    pub fn put_blob(&mut self, repo: &Name, digest: Digest, bytes: Bytes) -> Result<(), Memory>
        ensures ok { OnOk result (self.new ≡ with_blob self.old repo.now digest bytes) }
        ensures err { OnErr result (self.new ≡ self.old) }
    {
        let blob = Blob::of(self.alloc, Vec::from(bytes))?;
        self.held.store_blob(self.alloc, repo, digest, blob)
    }

    /// Stores a manifest under a digest, whatever its bytes have. None of them is copied.
    pub fn put_manifest(
        &mut self,
        repo: &Name,
        digest: Digest,
        manifest: Fetched,
    ) -> Result<(), Memory>
        ensures ok { OnOk result (self.new ≡ with_manifest self.old repo.now digest manifest) }
        ensures err { OnErr result (self.new ≡ self.old) }
    {
        self.held.store_manifest(self.alloc, repo, digest, manifest)
    }

    /// Makes a tag name a digest, whether its manifest is there or not. Its labels stay.
    pub fn put_tag(&mut self, repo: &Name, tag: &Tag, digest: Digest) -> Result<(), Memory>
        ensures ok { OnOk result (self.new ≡ with_tag self.old repo.now tag.now digest) }
        ensures err { OnErr result (self.new ≡ self.old) }
    {
        self.held.move_tag(self.alloc, repo, tag, digest)
    }

    /// The digest that a tag names, whether its manifest is there or not.
    pub fn named(&self, repo: &Name, tag: &Tag) -> Option<Digest>
        ensures { result ≡ tag_at self.now repo.now tag.now }
    {
        self.held.named(repo, tag)
    }

    /// A manifest.
    pub fn manifest(&self, repo: &Name, digest: &Digest) -> Option<&Fetched>
        ensures { option_copied result ≡ manifest_at self.now repo.now digest.now }
    {
        self.held.manifest(repo, digest)
    }
}

impl MemRegistry {
    ghost use Rattle.hr_memreg.specs.Mem.{new_mem};

    /// A registry that holds this. It was asked for nothing, and nothing is planned. It takes no
    /// memory.
    pub fn of(setup: Setup) -> MemRegistry
        ensures { result ≡ new_mem setup }
    {
        let Setup { alloc, held } = setup;
        let standing = Standing {
            held,
            moves: List::new(alloc),
            operations: 0,
        };
        let trace = Trace::new().then(&standing);
        MemRegistry {
            alloc,
            standing,
            failing: List::new(alloc),
            faults: 0,
            reading: None,
            writing: None,
            trace,
        }
    }
}
