//! Small graphs of manifests, by the content under each digest.
ghost use Rattle.std.specs.Prelude.{◌≡◌, IfOk};
ghost use Rattle.hr_digest.specs.Digest.{digest_of};

use hr_base::Bytes;
use hr_digest::Digest;
use hr_manifest::{Manifest, write_image};
use std::alloc::Global;
use std::test::Fail;

const IMAGE: &[u8] = b"application/vnd.oci.image.manifest.v1+json";

const INDEX: &[u8] = b"application/vnd.oci.image.index.v1+json";

/// Some content, with its digest and media type.
#[derive(Drop)]
struct Stored {
    digest: Digest,
    media: Bytes,
    bytes: Bytes,
}

/// The content that a source has.
#[derive(Drop)]
pub(super) struct Graph {
    stored: Vec<Stored>,
}

impl Graph {
    pub(super) fn new(alloc: Global) -> Graph {
        Graph {
            stored: Vec::new(alloc),
        }
    }

    fn put(&mut self, alloc: Global, media: &[u8], bytes: &[u8]) -> Result<Digest, Fail> {
        let digest = Digest::of(bytes);
        self.stored.push(Stored {
            digest,
            media: Bytes::of(alloc, media)?,
            bytes: Bytes::of(alloc, bytes)?,
        })?;
        Ok(digest)
    }
}

/// An image of this config and these layers.
pub(super) fn image(
    alloc: Global,
    graph: &mut Graph,
    config: &[u8],
    layers: &[&[u8]],
) -> Result<Digest, Fail> {
    let mut list = Vec::new(alloc);
    for layer in layers {
        graph.put(alloc, b"", layer)?;
        list.push(Bytes::of(alloc, layer)?)?;
    }
    graph.put(alloc, b"", config)?;
    let text = write_image(alloc, config, list.as_slice())?;
    graph.put(alloc, IMAGE, text.view())
}

// Writes the descriptor of a manifest at the end.
fn push_descriptor(
    alloc: Global,
    text: &mut Vec<u8>,
    digest: Digest,
    size: u64,
) -> Result<(), Fail> {
    if text.last() == Some(&b'}') {
        text.push(b',')?;
    }
    text.extend_from_slice(b"{\"mediaType\":\"application/json\",\"digest\":\"")?;
    text.extend_from_slice(digest.text(alloc)?.view())?;
    text.extend_from_slice(b"\",\"size\":")?;
    text.extend_from_slice(format!(in alloc; "{size}")?.as_bytes())?;
    text.push(b'}')?;
    Ok(())
}

const HEAD: &[u8] = b"{\"schemaVersion\":2,\"manifests\":[";

/// An index of these manifests, with their sizes.
pub(super) fn index(alloc: Global, graph: &mut Graph, digests: &[Digest]) -> Result<Digest, Fail> {
    let mut text = HEAD.to_vec(alloc)?;
    for digest in digests {
        push_descriptor(alloc, &mut text, *digest, length_of(graph, *digest))?;
    }
    text.extend_from_slice(b"]}")?;
    graph.put(alloc, INDEX, text.as_slice())
}

/// An index of one manifest, of which it says this size.
pub(super) fn index_of_size(
    alloc: Global,
    graph: &mut Graph,
    digest: Digest,
    size: u64,
) -> Result<Digest, Fail> {
    let mut text = HEAD.to_vec(alloc)?;
    push_descriptor(alloc, &mut text, digest, size)?;
    text.extend_from_slice(b"]}")?;
    graph.put(alloc, INDEX, text.as_slice())
}

/// A manifest below so many others.
pub(super) fn chain(alloc: Global, graph: &mut Graph, above: u32) -> Result<Digest, Fail> {
    let mut digest = image(alloc, graph, b"{\"chain\":1}", &[])?;
    for _ in 0..above {
        digest = index(alloc, graph, [digest].as_slice())?;
    }
    Ok(digest)
}

/// A manifest at two levels.
pub(super) fn diamond(alloc: Global, graph: &mut Graph) -> Result<Digest, Fail> {
    let low = image(alloc, graph, b"{\"low\":1}", &[b"layer"])?;
    let left = index(alloc, graph, &[low])?;
    let right = index(alloc, graph, &[left, low])?;
    index(alloc, graph, &[right, left, low])
}

/// An index of an image, and of an image with that image's bytes as a layer.
pub(super) fn two_kinds(alloc: Global, graph: &mut Graph) -> Result<Digest, Fail> {
    let inner = write_image(alloc, b"{}", &[])?;
    let first = image(alloc, graph, b"{}", &[])?;
    let second = image(alloc, graph, b"{}", &[inner.view()])?;
    index(alloc, graph, &[first, second])
}

/// An image whose layers are not kept in registries.
pub(super) fn foreign(alloc: Global, graph: &mut Graph) -> Result<Digest, Fail> {
    graph.put(alloc, b"", b"{}")?;
    let text =
        b"{\"schemaVersion\":2,\"config\":{\"mediaType\":\"application/json\",\"digest\":\"sha256:44136fa355b3678a1146ad16f7e8649e94fb4fc21fe77e8310c060f61caaff8a\",\"size\":2},\"layers\":[{\"mediaType\":\"application/vnd.docker.image.rootfs.foreign.diff.tar.gzip\",\"digest\":\"sha256:ba7816bf8f01cfea414140de5dae2223b00361a396177a9cb410ff61f20015ad\",\"size\":4}]}";
    graph.put(
        alloc,
        b"application/vnd.docker.distribution.manifest.v2+json",
        text,
    )
}

/// The manifest of this digest.
pub(super) fn found(alloc: Global, graph: &Graph, digest: Digest) -> Result<Manifest, Fail>
    ensures { IfOk result (λ manifest. digest_of manifest.bytes ≡ digest) }
{
    for stored in &graph.stored {
        if stored.digest == digest && !stored.media.view().is_empty() {
            let read = Manifest::read(alloc, stored.media.view(), stored.bytes.view());
            return named(read.ok().ok_or("a manifest is unreadable")?, digest);
        }
    }
    Err("a manifest is not there")?
}

// A manifest whose bytes have this digest.
fn named(manifest: Manifest, digest: Digest) -> Result<Manifest, Fail>
    ensures { IfOk result (λ made. digest_of made.bytes ≡ digest) }
{
    if Digest::of(manifest.bytes()) == digest {
        return Ok(manifest);
    }
    Err("a manifest has another digest")?
}

/// The length of the content of this digest.
pub(super) fn length_of(graph: &Graph, digest: Digest) -> u64 {
    for stored in &graph.stored {
        if stored.digest == digest {
            return stored.bytes.view().len() as u64;
        }
    }
    0
}
