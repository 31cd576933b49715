//! What happens to a revision of a job, entry by entry. (Our own.)
ghost use Rattle.std.specs.Prelude.{◌≡◌, IfOk};

use crate::Cause;
use crate::cause::copy_cause;
use hr_base::{Bytes, JobNo, Memory, Status};
use hr_digest::Digest;
use hr_name::Tag;
use std::alloc::Global;

/// How a tag came to show at the destination what it shows.
#[derive(Clone, Copy, Debug, PartialEq, Eq)]
pub enum How {
    /// It was put.
    Put,
    /// Putting it failed, which may have taken effect.
    Unsure,
    /// It named the same manifest already.
    Same,
    /// It names another manifest, which is not to be replaced.
    Kept,
}

/// What happened in one step.
#[derive(Debug, Drop, PartialEq, Eq)]
pub enum What {
    /// A worker began the revision.
    Began,
    /// The tag was read at the source: its manifest, whatever it is.
    ReadTag {
        tag: Tag,
        media: Bytes,
        bytes: Bytes,
    },
    /// The destination was asked what the tag names there.
    Looked {
        tag: Tag,
        found: Option<Digest>,
    },
    /// A child manifest was read at the source, with the digest that was asked.
    ReadChild {
        digest: Digest,
        media: Bytes,
        bytes: Bytes,
    },
    /// The destination was asked for a blob, and gave its length in bytes where it is there.
    HasBlob {
        digest: Digest,
        len: Option<u64>,
    },
    /// A blob was read at the source, with the digest that was asked.
    GotBlob {
        digest: Digest,
        len: u64,
    },
    /// A blob was put at the destination; not sure where the put failed.
    PutBlob {
        digest: Digest,
        sure: bool,
    },
    /// A child manifest was put at the destination; not sure where the put failed.
    PutChild {
        digest: Digest,
        sure: bool,
    },
    /// The tag was finished: the digest that it was to name, and the one that it named before.
    Show {
        tag: Tag,
        digest: Digest,
        old: Option<Digest>,
        how: How,
    },
    /// The revision ended: with an error by this cause, or with success by none.
    Ended {
        status: Status,
        cause: Option<Cause>,
    },
    /// The revision was given up, since its word moved otherwise.
    Dropped,
}

/// What happened to a revision, from 0 to 3, of a job.
#[derive(Debug, Drop, PartialEq, Eq)]
pub struct Entry {
    pub job: JobNo,
    pub rev: u8,
    pub what: What,
}

impl What {
    /// An equal value.
    pub fn copy(&self, alloc: Global) -> Result<What, Memory>
        ensures { IfOk result (λ made. made ≡ self.now) }
    {
        match self {
            What::Began => Ok(What::Began),
            What::ReadTag { tag, media, bytes } => Ok(What::ReadTag {
                tag: tag.copy(alloc)?,
                media: media.copy(alloc)?,
                bytes: bytes.copy(alloc)?,
            }),
            What::Looked { tag, found } => Ok(What::Looked {
                tag: tag.copy(alloc)?,
                found: *found,
            }),
            What::ReadChild {
                digest,
                media,
                bytes,
            } => Ok(What::ReadChild {
                digest: *digest,
                media: media.copy(alloc)?,
                bytes: bytes.copy(alloc)?,
            }),
            What::Show {
                tag,
                digest,
                old,
                how,
            } => Ok(What::Show {
                tag: tag.copy(alloc)?,
                digest: *digest,
                old: *old,
                how: *how,
            }),
            What::Ended { status, cause } => Ok(What::Ended {
                status: *status,
                cause: copy_cause(alloc, cause)?,
            }),
            What::HasBlob { digest, len } => Ok(What::HasBlob {
                digest: *digest,
                len: *len,
            }),
            What::GotBlob { digest, len } => Ok(What::GotBlob {
                digest: *digest,
                len: *len,
            }),
            What::PutBlob { digest, sure } => Ok(What::PutBlob {
                digest: *digest,
                sure: *sure,
            }),
            What::PutChild { digest, sure } => Ok(What::PutChild {
                digest: *digest,
                sure: *sure,
            }),
            What::Dropped => Ok(What::Dropped),
        }
    }
}

impl Entry {
    /// An equal value.
    pub fn copy(&self, alloc: Global) -> Result<Entry, Memory>
        ensures { IfOk result (λ made. made ≡ self.now) }
    {
        Ok(Entry {
            job: self.job,
            rev: self.rev,
            what: self.what.copy(alloc)?,
        })
    }
}
