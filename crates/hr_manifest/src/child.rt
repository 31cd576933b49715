//! What a manifest lists (OCI Image 1.1, "OCI Content Descriptors").
ghost use Rattle.std.specs.Prelude.{◌≡◌, IfOk};

use hr_base::{Bytes, Memory};
use hr_digest::Digest;
use std::alloc::Global;

/// What a descriptor leads to.
#[derive(Clone, Copy, Debug, PartialEq, Eq)]
pub enum ChildKind {
    /// Another manifest.
    Manifest,
    /// A config or a layer.
    Blob,
    /// A layer that is not kept in registries, and is never copied.
    Foreign,
}

/// A descriptor: the digest, the length and the media type of some content.
#[derive(Debug, Drop, PartialEq, Eq)]
pub struct Child {
    pub kind: ChildKind,
    pub digest: Digest,
    /// In bytes.
    pub size: u64,
    pub media: Bytes,
}

impl Child {
    /// An equal value.
    pub fn copy(&self, alloc: Global) -> Result<Child, Memory>
        ensures { IfOk result (λ made. made ≡ self.now) }
    {
        Ok(Child {
            kind: self.kind,
            digest: self.digest,
            size: self.size,
            media: self.media.copy(alloc)?,
        })
    }
}
