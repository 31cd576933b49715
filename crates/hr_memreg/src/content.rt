//! What a registry holds, as plain lists (OCI Distribution 1.1, "Definitions").

use hr_base::{Bytes, List};
use hr_digest::Digest;
use hr_name::{Name, Tag};

/// A blob under a digest.
#[derive(Debug, Drop, PartialEq, Eq)]
pub struct BlobAt {
    pub digest: Digest,
    pub bytes: Bytes,
}

/// A manifest under a digest, with its media type.
#[derive(Debug, Drop, PartialEq, Eq)]
pub struct ManifestAt {
    pub digest: Digest,
    pub media: Bytes,
    pub bytes: Bytes,
}

/// A tag with the digest that it names and its labels.
#[derive(Debug, Drop, PartialEq, Eq)]
pub struct TagAt {
    pub tag: Tag,
    pub digest: Digest,
    pub labels: List<Bytes>,
}

/// A repository. Of two blobs, two manifests or two tags that stand at one place the last counts.
#[derive(Debug, Drop, PartialEq, Eq)]
pub struct RepoContent {
    pub name: Name,
    pub blobs: List<BlobAt>,
    pub manifests: List<ManifestAt>,
    pub tags: List<TagAt>,
}

/// All repositories. Of two with one name the last counts, whole.
#[derive(Debug, Drop, PartialEq, Eq)]
pub struct Content {
    pub repos: List<RepoContent>,
}
