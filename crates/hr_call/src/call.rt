//! The calls of a registry (OCI Distribution 1.1, "Endpoints").
ghost use Rattle.std.specs.Prelude.{◌≡◌, IfOk};

use hr_base::{Bytes, Memory};
use hr_digest::Digest;
use hr_event::Reference;
use hr_name::Name;
use std::alloc::Global;

/// One thing that a registry is asked.
#[derive(Debug, Drop, PartialEq, Eq)]
pub enum Call {
    /// Whether the registry is there.
    Ping,
    /// The repositories behind a name, or all of them.
    Catalog {
        last: Option<Bytes>,
    },
    /// The tags of a repository behind a tag, or all of them.
    Tags {
        repo: Name,
        last: Option<Bytes>,
    },
    /// The digest of a manifest.
    HeadManifest {
        repo: Name,
        reference: Reference,
    },
    /// A manifest.
    GetManifest {
        repo: Name,
        reference: Reference,
    },
    /// The length of a blob.
    HeadBlob {
        repo: Name,
        digest: Digest,
    },
    /// A blob.
    GetBlob {
        repo: Name,
        digest: Digest,
    },
    /// Begins an upload session.
    BeginUpload {
        repo: Name,
    },
    /// Ends the upload session at this place with these last bytes: all of its bytes have the digest.
    EndUpload {
        at: Bytes,
        digest: Digest,
        bytes: Bytes,
    },
    /// Puts a manifest under a tag or under its digest.
    PutManifest {
        repo: Name,
        reference: Reference,
        media: Bytes,
        bytes: Bytes,
    },
    /// Appends bytes to the upload session at this place. Where it is told how many the session has
    /// before them, that is `from`.
    Chunk {
        at: Bytes,
        from: Option<u64>,
        bytes: Bytes,
    },
    /// How many bytes the upload session at this place has.
    Progress {
        at: Bytes,
    },
}

impl Call {
    /// An equal value.
    pub fn copy(&self, alloc: Global) -> Result<Call, Memory>
        ensures { IfOk result (λ made. made ≡ self.now) }
    {
        match self {
            Call::Ping => Ok(Call::Ping),
            Call::Catalog { last } => Ok(Call::Catalog {
                last: copy_last(alloc, last)?,
            }),
            Call::Tags { repo, last } => Ok(Call::Tags {
                repo: repo.copy(alloc)?,
                last: copy_last(alloc, last)?,
            }),
            Call::HeadManifest { repo, reference } => Ok(Call::HeadManifest {
                repo: repo.copy(alloc)?,
                reference: reference.copy(alloc)?,
            }),
            Call::GetManifest { repo, reference } => Ok(Call::GetManifest {
                repo: repo.copy(alloc)?,
                reference: reference.copy(alloc)?,
            }),
            Call::HeadBlob { repo, digest } => Ok(Call::HeadBlob {
                repo: repo.copy(alloc)?,
                digest: *digest,
            }),
            Call::GetBlob { repo, digest } => Ok(Call::GetBlob {
                repo: repo.copy(alloc)?,
                digest: *digest,
            }),
            Call::BeginUpload { repo } => Ok(Call::BeginUpload {
                repo: repo.copy(alloc)?,
            }),
            Call::EndUpload { at, digest, bytes } => Ok(Call::EndUpload {
                at: at.copy(alloc)?,
                digest: *digest,
                bytes: bytes.copy(alloc)?,
            }),
            Call::PutManifest {
                repo,
                reference,
                media,
                bytes,
            } => Ok(Call::PutManifest {
                repo: repo.copy(alloc)?,
                reference: reference.copy(alloc)?,
                media: media.copy(alloc)?,
                bytes: bytes.copy(alloc)?,
            }),
            Call::Chunk { at, from, bytes } => Ok(Call::Chunk {
                at: at.copy(alloc)?,
                from: *from,
                bytes: bytes.copy(alloc)?,
            }),
            Call::Progress { at } => Ok(Call::Progress {
                at: at.copy(alloc)?,
            }),
        }
    }
}

// An equal item behind which a page begins.
fn copy_last(alloc: Global, last: &Option<Bytes>) -> Result<Option<Bytes>, Memory>
    ensures { IfOk result (λ made. made ≡ last.now) }
{
    match last {
        None => Ok(None),
        Some(last) => Ok(Some(last.copy(alloc)?)),
    }
}
