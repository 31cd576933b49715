//! What a registry in memory can be told to do at its operations, which are counted from 1. (Our
//! own.)

use hr_digest::Digest;
use hr_name::{Name, Tag};

/// An operation that fails.
#[derive(Clone, Copy, Debug, PartialEq, Eq)]
pub struct Planned {
    /// Its number, from 1.
    pub op: u64,
    /// Whether it takes effect all the same, where it is a put.
    pub lands: bool,
}

/// A tag that is made to name a digest, just before an operation. Its labels stay.
#[derive(Debug, Drop, PartialEq, Eq)]
pub struct Change {
    /// The number of the operation, from 1.
    pub op: u64,
    pub repo: Name,
    pub tag: Tag,
    /// The digest, whether its manifest stands there or not.
    pub digest: Digest,
}
