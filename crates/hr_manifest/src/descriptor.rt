//! Descriptors, read as children (OCI Image 1.1, "OCI Content Descriptors").
ghost use Rattle.std.specs.Prelude.{◌≡◌, ◌≢◌, IfErr, IfOk, codes, option_and_then};
ghost use Rattle.hr_json.specs.Node.{value_of};
ghost use Rattle.hr_manifest.specs.Descriptor.{child_of, digest_in, is_foreign, kind_of, number_at, size_in, text_at};

use crate::field::{number_at, text_at};
use crate::{Child, ChildKind, FOREIGN_LAYER, ManifestKey, Unreadable};
use hr_base::Bytes;
use hr_digest::{Digest, digest_is_whole};
use hr_json::Node;
use std::alloc::Global;

/// What a descriptor is to its manifest.
#[derive(Clone, Copy, Debug, PartialEq, Eq)]
pub(crate) enum Role {
    /// The config of an image.
    Config,
    /// A layer of an image.
    Layer,
    /// A manifest of an index.
    Manifest,
}

/// Reads a descriptor. Members that are not named here are passed over.
pub(crate) fn read_child(alloc: Global, role: Role, node: &Node<'_>) -> Result<Child, Unreadable>
    ensures ok { IfOk result (λ child. child_of role (value_of node.now) ≡ Ok child) }
    ensures err { IfErr result
        (λ why. why ≢ Unreadable.Memory → child_of role (value_of node.now) ≡ Err why) }
{
    let Some(media) = text_at(node, "mediaType") else {
        return Err(Unreadable::Field {
            name: ManifestKey::ChildMedia,
        });
    };
    let Some(digest) = digest_at(node) else {
        return Err(Unreadable::Field {
            name: ManifestKey::ChildDigest,
        });
    };
    let Some(size) = size_at(node) else {
        return Err(Unreadable::Field {
            name: ManifestKey::ChildSize,
        });
    };
    Ok(Child {
        kind: kind_of(role, media),
        digest,
        size,
        media: Bytes::of(alloc, media)?,
    })
}

fn kind_of(role: Role, media: &[u8]) -> ChildKind
    ensures { result ≡ kind_of role media.now }
{
    match role {
        Role::Config => ChildKind::Blob,
        Role::Layer if is_foreign(media) => ChildKind::Foreign,
        Role::Layer => ChildKind::Blob,
        Role::Manifest => ChildKind::Manifest,
    }
}

fn is_foreign(media: &[u8]) -> bool
    ensures { result ≡ is_foreign media.now }
{
    media == FOREIGN_LAYER
}

fn digest_at(node: &Node<'_>) -> Option<Digest>
    ensures { result
        ≡ option_and_then digest_in (text_at (codes "digest") (value_of node.now)) }
{
    match text_at(node, "digest") {
        Some(text) => digest_in(text),
        None => None,
    }
}

// The digest of which this is the text.
fn digest_in(text: &[u8]) -> Option<Digest>
    ensures { result ≡ digest_in text.now }
{
    match Digest::read(text) {
        Ok(digest) => {
            digest_is_whole(&digest);
            Some(digest)
        }
        Err(_) => None,
    }
}

fn size_at(node: &Node<'_>) -> Option<u64>
    ensures { result ≡ option_and_then size_in (number_at (codes "size") (value_of node.now)) }
{
    match number_at(node, "size") {
        Some(size) if size < 9_223_372_036_854_775_808 => Some(size),
        _ => None,
    }
}
