//! The canonical texts of images and indexes (OCI Image 1.1, "Image Manifest Specification" and
//! "Image Index Specification").
ghost use Rattle.std.specs.Prelude.{◌≡◌, ◌++◌, ◌^◌, ◌<◌, ◌≤◌, IfOk, OnOk, length, map};
ghost use Rattle.std.specs.List.{All};
ghost use Rattle.hr_manifest.specs.Canonical.{blob_of, descriptor, descriptor_with, descriptors, image_children, image_media, image_text, index_media, index_text, layer_of};
ghost use Rattle.hr_manifest.specs.Reading.{Reads};
ghost use Rattle.hr_text.specs.Escaping.{IsUnescaped};
ghost use Rattle.hr_manifest.specs.Writable.{IsFit, IsListed};
ghost use Rattle.hr_base.specs.declared.limit.TheConstants.{MANIFEST_LIMIT};
ghost use Rattle.hr_manifest.specs.declared.manifest.TheConstants.{CHILD_LIMIT};

use crate::{Child, OCI_CONFIG, OCI_LAYER};
use hr_base::{Bytes, Memory};
use hr_digest::{Digest, digest_is_whole};
use std::alloc::Global;

/// The manifest of an image with this config and these layers, in order: one line of JSON. Their
/// digests and lengths are those of the given bytes.
pub fn write_image(alloc: Global, config: &[u8], layers: &[Bytes]) -> Result<Bytes, Memory>
    ensures text { IfOk result (λ text. text ≡ image_text config.now layers.now) }

    // Within the limits of a manifest it reads as the config and the layers.
    ensures reads_back { IfOk result (λ text. length layers.now < CHILD_LIMIT
        → length text ≤ MANIFEST_LIMIT
        → Reads image_media text (image_children config.now layers.now)) }
{
    let mut text = Vec::new(alloc);
    text.extend_from_slice(
        b"{\"schemaVersion\":2,\"mediaType\":\"application/vnd.oci.image.manifest.v1+json\",\"config\":",
    )?;
    push_content(alloc, &mut text, OCI_CONFIG, config)?;
    text.extend_from_slice(b",\"layers\":[")?;
    push_layers(alloc, &mut text, layers)?;
    text.extend_from_slice(b"]}")?;
    Ok(Bytes::from(text))
}

/// The index of these children, in order: one line of JSON. Their kinds are not written. No media
/// type has a byte that JSON escapes: 0 to 31, `"` and `\`.
pub fn write_index(alloc: Global, children: &[Child]) -> Result<Bytes, Memory>
    requires { All (λ child. IsUnescaped child.media) children.now }
    ensures text { IfOk result (λ text. text ≡ index_text children.now) }

    // Within the limits of a manifest it reads as these children, where an index can list them.
    ensures reads_back { IfOk result (λ text. All IsListed children.now
        → length children.now ≤ CHILD_LIMIT → length text ≤ MANIFEST_LIMIT
        → Reads index_media text children.now) }
{
    let mut text = Vec::new(alloc);
    text.extend_from_slice(
        b"{\"schemaVersion\":2,\"mediaType\":\"application/vnd.oci.image.index.v1+json\",\"manifests\":[",
    )?;
    push_children(alloc, &mut text, children)?;
    text.extend_from_slice(b"]}")?;
    Ok(Bytes::from(text))
}

// Writes the descriptors of layers at the end, with commas between them.
fn push_layers(alloc: Global, text: &mut Vec<u8>, layers: &[Bytes]) -> Result<(), Memory>
    ensures text { OnOk result (text.new.items
        ≡ text.old.items ++ descriptors (map layer_of layers.now)) }
    ensures short { OnOk result (All (λ layer. length layer < 2 ^ 63) layers.now) }
{
    let Some((first, others)) = layers.split_first() else {
        return Ok(());
    };
    push_content(alloc, text, OCI_LAYER, first.view())?;
    for layer in others {
        text.extend_from_slice(b",")?;
        push_content(alloc, text, OCI_LAYER, layer.view())?;
    }
    Ok(())
}

// Writes the descriptors of children at the end, with commas between them.
fn push_children(alloc: Global, text: &mut Vec<u8>, children: &[Child]) -> Result<(), Memory>
    ensures text { OnOk result (text.new.items ≡ text.old.items ++ descriptors children.now) }
    ensures fit { OnOk result (All IsFit children.now) }
{
    let Some((first, others)) = children.split_first() else {
        return Ok(());
    };
    push_child(alloc, text, first)?;
    for child in others {
        text.extend_from_slice(b",")?;
        push_child(alloc, text, child)?;
    }
    Ok(())
}

// Writes the descriptor of some content under a media type at the end.
fn push_content(
    alloc: Global,
    text: &mut Vec<u8>,
    media: &[u8],
    content: &[u8],
) -> Result<(), Memory>
    ensures text { OnOk result (text.new.items
        ≡ text.old.items ++ descriptor (blob_of media.now content.now)) }
    ensures short { length content.now < 2 ^ 63 }
{
    push_descriptor(
        alloc,
        text,
        media,
        Digest::of(content),
        content.len() as u64,
    )
}

// Writes the descriptor of a child at the end.
fn push_child(alloc: Global, text: &mut Vec<u8>, child: &Child) -> Result<(), Memory>
    ensures text { OnOk result (text.new.items ≡ text.old.items ++ descriptor child.now) }
    ensures fit { IsFit child.now }
{
    digest_is_whole(&child.digest);
    push_descriptor(alloc, text, child.media.view(), child.digest, child.size)
}

// Writes a descriptor at the end (OCI Image 1.1, "OCI Content Descriptors").
fn push_descriptor(
    alloc: Global,
    text: &mut Vec<u8>,
    media: &[u8],
    digest: Digest,
    size: u64,
) -> Result<(), Memory>
    ensures { OnOk result (text.new.items
        ≡ text.old.items ++ descriptor_with media.now digest size) }
{
    let named = digest.text(alloc)?;
    let mut digits = itoa::Buffer::new();
    text.extend_from_slice(b"{\"mediaType\":\"")?;
    text.extend_from_slice(media)?;
    text.extend_from_slice(b"\",\"digest\":\"")?;
    text.extend_from_slice(named.view())?;
    text.extend_from_slice(b"\",\"size\":")?;
    text.extend_from_slice(digits.format(size).as_bytes())?;
    text.extend_from_slice(b"}")?;
    Ok(())
}
