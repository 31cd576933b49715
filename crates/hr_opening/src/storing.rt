//! What the setup lines of a script store in a content. (Our own, over OCI Image 1.1.)
ghost use Rattle.std.specs.Prelude.{◌≡◌, Some, None, IfOk, OnOk, option_map};
ghost use Rattle.hr_adapter.specs.Put.{put_under};
ghost use Rattle.hr_event.specs.declared.reference.Reference.TheVariants as by;
ghost use Rattle.hr_manifest.specs.Canonical.{image_media, image_text};
ghost use Rattle.hr_opening.specs.Stored.{IsPlain, child_of, children_of, config_text, with_blobs, with_broken, with_image, with_index, with_orphan};

use hr_base::{Bytes, List, Memory};
use hr_digest::Digest;
use hr_event::Fetched;
use hr_manifest::{Child, ChildKind, OCI_IMAGE, OCI_INDEX, write_image, write_index};
use hr_memreg::Setup;
use hr_name::{Name, Tag};
use std::alloc::Global;

/// Why a setup line is refused.
#[derive(Clone, Copy, Debug, PartialEq, Eq)]
pub(crate) enum LineRefused {
    /// A tag that it names isn't there.
    Reference,
    /// There was no room.
    Memory,
}

impl From<Memory> for LineRefused {
    ghost use Rattle.hr_opening.specs.declared.storing.LineRefused.TheVariants.{Memory as no_memory};

    ghost from_gives = { λ _ made. made ≡ no_memory };

    fn from(_: Memory) -> LineRefused {
        LineRefused::Memory
    }
}

/// Stores an image: its config, its layers, its manifest and its tag.
pub(crate) fn store_image(
    alloc: Global,
    content: &mut Setup,
    repo: &Name,
    tag: &Tag,
    layers: List<Bytes>,
) -> Result<(), Memory>
    ensures { OnOk result (content.new ≡ with_image repo.now tag.now layers content.old) }
{
    let manifest = image(alloc, &layers)?;
    let config = Bytes::of(alloc, CONFIG)?;
    content.put_blob(repo, Digest::of(CONFIG), config)?;
    store_layers(content, repo, layers)?;
    store_tagged(content, repo, tag, manifest)
}

// The config of every image of a script.
const CONFIG: &[u8] = b"{}";

// The manifest of an image.
fn image(alloc: Global, layers: &List<Bytes>) -> Result<Fetched, Memory>
    ensures { IfOk result (λ m. m
        ≡ record { media = image_media; bytes = image_text config_text layers.now }) }
{
    Ok(Fetched {
        media: Bytes::of(alloc, OCI_IMAGE)?,
        bytes: write_image(alloc, CONFIG, layers.view())?,
    })
}

// Stores the layers, each under its digest.
fn store_layers(content: &mut Setup, repo: &Name, layers: List<Bytes>) -> Result<(), Memory>
    ensures { OnOk result (content.new ≡ with_blobs content.old repo.now layers) }
{
    for layer in Vec::from(layers) {
        let digest = Digest::of(layer.view());
        content.put_blob(repo, digest, layer)?;
    }
    Ok(())
}

/// Stores a manifest under its digest, and makes the tag name it.
pub(crate) fn store_tagged(
    content: &mut Setup,
    repo: &Name,
    tag: &Tag,
    manifest: Fetched,
) -> Result<(), Memory>
    ensures { OnOk result (content.new
        ≡ put_under repo.now (by.Tag tag.now) manifest.media manifest.bytes content.old) }
{
    let digest = Digest::of(manifest.bytes.view());
    content.put_manifest(repo, digest, manifest)?;
    content.put_tag(repo, tag, digest)
}

/// Stores the manifest of an image alone.
pub(crate) fn store_orphan(
    alloc: Global,
    content: &mut Setup,
    repo: &Name,
    layers: &List<Bytes>,
) -> Result<(), Memory>
    ensures { OnOk result (content.new ≡ with_orphan repo.now layers.now content.old) }
{
    let manifest = image(alloc, layers)?;
    let digest = Digest::of(manifest.bytes.view());
    content.put_manifest(repo, digest, manifest)
}

/// Stores bytes under the digest of other bytes.
pub(crate) fn store_broken(
    content: &mut Setup,
    repo: &Name,
    honest: &Bytes,
    stored: Bytes,
) -> Result<(), Memory>
    ensures { OnOk result (content.new ≡ with_broken repo.now honest.now stored content.old) }
{
    content.put_blob(repo, Digest::of(honest.view()), stored)
}

/// Stores the index of the manifests that the tags lead to, and its tag.
pub(crate) fn store_index(
    alloc: Global,
    content: &mut Setup,
    repo: &Name,
    tag: &Tag,
    children: &List<Tag>,
) -> Result<(), LineRefused>
    requires plain { IsPlain content.old }
    ensures ok { OnOk result (option_map (λ kids. with_index repo.now tag.now kids content.old)
        (children_of content.old repo.now children.now) ≡ Some content.new) }
    ensures reference { result ≡ Err LineRefused.Reference
        → children_of content.old repo.now children.now ≡ None }
{
    let children = match find_children(alloc, content, repo, children) {
        Ok(children) => children,
        Err(refused) => return Err(refused),
    };
    let manifest = Fetched {
        media: Bytes::of(alloc, OCI_INDEX)?,
        bytes: write_index(alloc, children.view())?,
    };
    Ok(store_tagged(content, repo, tag, manifest)?)
}

// The manifests that the tags lead to, where each leads to one.
fn find_children(
    alloc: Global,
    content: &Setup,
    repo: &Name,
    tags: &List<Tag>,
) -> Result<List<Child>, LineRefused>
    ensures ok { IfOk result (λ kids. children_of content.now repo.now tags.now ≡ Some kids) }
    ensures reference { result ≡ Err LineRefused.Reference
        → children_of content.now repo.now tags.now ≡ None }
{
    let mut children = List::new(alloc);
    for tag in tags.view() {
        match find_child(alloc, content, repo, tag) {
            Ok(child) => children.push(child)?,
            Err(refused) => return Err(refused),
        }
    }
    Ok(children)
}

// The manifest that a tag leads to, as a child.
fn find_child(alloc: Global, content: &Setup, repo: &Name, tag: &Tag) -> Result<Child, LineRefused>
    ensures ok { IfOk result (λ child. child_of content.now repo.now tag.now ≡ Some child) }
    ensures reference { result ≡ Err LineRefused.Reference
        → child_of content.now repo.now tag.now ≡ None }
{
    let Some(digest) = content.named(repo, tag) else {
        return Err(LineRefused::Reference);
    };
    let Some(manifest) = content.manifest(repo, &digest) else {
        return Err(LineRefused::Reference);
    };
    Ok(Child {
        kind: ChildKind::Manifest,
        digest,
        size: manifest.bytes.view().len() as u64,
        media: manifest.media.copy(alloc)?,
    })
}
