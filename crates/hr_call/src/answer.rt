//! The answers of a registry (OCI Distribution 1.1, "Endpoints").
ghost use Rattle.std.specs.Prelude.{◌≡◌, IfOk};

use hr_base::{Bytes, List, Memory};
use hr_digest::Digest;
use hr_event::Fetched;
use hr_name::{Name, Tag};
use std::alloc::Global;

/// What a registry answers to a call.
#[derive(Debug, Drop, PartialEq, Eq)]
pub enum Answer {
    /// The registry is there.
    Pong,
    /// A page of repositories in any order, and whether more remain.
    Repos { list: List<Name>, more: bool },
    /// A page of the tags of a repository in any order, and whether more remain.
    Tags { list: List<Tag>, more: bool },
    /// The manifest is there, and has this digest.
    Named { digest: Digest },
    /// The manifest or the blob is there, and no digest or no length was told.
    Unnamed,
    /// It is not there.
    Missing,
    /// A manifest.
    Manifest { fetched: Fetched },
    /// The blob is there, with this length in bytes.
    Size { len: u64 },
    /// A blob.
    Blob { bytes: Bytes },
    /// The upload session is at this place from now on.
    Upload { at: Bytes },
    /// What was put is stored.
    Stored,
    /// The upload session is at this place, and has so many bytes.
    Held { at: Bytes, count: u64 },
}

impl Answer {
    /// An equal value.
    pub fn copy(&self, alloc: Global) -> Result<Answer, Memory>
        ensures { IfOk result (λ made. made ≡ self.now) }
    {
        match self {
            Answer::Pong => Ok(Answer::Pong),
            Answer::Repos { list, more } => Ok(Answer::Repos {
                list: copy_names(alloc, list.view())?,
                more: *more,
            }),
            Answer::Tags { list, more } => Ok(Answer::Tags {
                list: copy_tags(alloc, list.view())?,
                more: *more,
            }),
            Answer::Named { digest } => Ok(Answer::Named { digest: *digest }),
            Answer::Unnamed => Ok(Answer::Unnamed),
            Answer::Missing => Ok(Answer::Missing),
            Answer::Manifest { fetched } => Ok(Answer::Manifest {
                fetched: fetched.copy(alloc)?,
            }),
            Answer::Size { len } => Ok(Answer::Size { len: *len }),
            Answer::Blob { bytes } => Ok(Answer::Blob {
                bytes: bytes.copy(alloc)?,
            }),
            Answer::Upload { at } => Ok(Answer::Upload {
                at: at.copy(alloc)?,
            }),
            Answer::Stored => Ok(Answer::Stored),
            Answer::Held { at, count } => Ok(Answer::Held {
                at: at.copy(alloc)?,
                count: *count,
            }),
        }
    }
}

// Equal names.
fn copy_names(alloc: Global, names: &[Name]) -> Result<List<Name>, Memory>
    ensures { IfOk result (λ made. made ≡ names.now) }
{
    let mut made = List::new(alloc);
    for name in names {
        made.push(name.copy(alloc)?)?;
    }
    Ok(made)
}

// Equal tags.
fn copy_tags(alloc: Global, tags: &[Tag]) -> Result<List<Tag>, Memory>
    ensures { IfOk result (λ made. made ≡ tags.now) }
{
    let mut made = List::new(alloc);
    for tag in tags {
        made.push(tag.copy(alloc)?)?;
    }
    Ok(made)
}
