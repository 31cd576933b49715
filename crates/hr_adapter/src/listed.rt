//! Tags as a registry lists them (OCI Distribution 1.1, "Listing Tags"). Labels are our own.

use hr_base::{Bytes, List};
use hr_digest::Digest;
use hr_name::{Name, Tag};

/// A tag of a repository with its labels, where the registry keeps any.
#[derive(Debug, Drop, PartialEq, Eq)]
pub struct Tagged {
    pub tag: Tag,
    pub labels: List<Bytes>,
}

/// A tag with the digest that it names.
#[derive(Debug, Drop, PartialEq, Eq)]
pub struct TagNow {
    pub repo: Name,
    pub tag: Tag,
    pub digest: Digest,
}
