//! Names for one manifest, and what a registry gives for them (OCI Distribution 1.1,
//! "Definitions").
ghost use Rattle.std.specs.Prelude.{◌≡◌, IfOk};

use hr_base::{Bytes, Memory};
use hr_digest::Digest;
use hr_name::Tag;
use std::alloc::Global;

/// A name for one manifest of a repository.
#[derive(Debug, Drop, PartialEq, Eq)]
pub enum Reference {
    /// By a tag, which may name another manifest later.
    Tag(Tag),
    /// By its digest, for good.
    Digest(Digest),
}

/// A manifest as a registry gave it.
#[derive(Debug, Drop, PartialEq, Eq)]
pub struct Fetched {
    /// Its media type.
    pub media: Bytes,
    /// Its bytes, exactly as they came.
    pub bytes: Bytes,
}

impl Reference {
    /// An equal value.
    pub fn copy(&self, alloc: Global) -> Result<Reference, Memory>
        ensures { IfOk result (λ made. made ≡ self.now) }
    {
        match self {
            Reference::Tag(tag) => Ok(Reference::Tag(tag.copy(alloc)?)),
            Reference::Digest(digest) => Ok(Reference::Digest(*digest)),
        }
    }
}

impl Fetched {
    /// An equal value.
    pub fn copy(&self, alloc: Global) -> Result<Fetched, Memory>
        ensures { IfOk result (λ made. made ≡ self.now) }
    {
        Ok(Fetched {
            media: self.media.copy(alloc)?,
            bytes: self.bytes.copy(alloc)?,
        })
    }
}
