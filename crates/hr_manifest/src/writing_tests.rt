//! Texts as Python's `json` and `hashlib` give them.

ghost use Rattle.std.specs.Prelude.{IfOk};
ghost use Rattle.hr_text.specs.Escaping.{IsUnescaped};

use crate::{Child, ChildKind, is_unescaped, write_image, write_index};
use hr_base::{Bytes, List};
use hr_digest::Digest;
use std::alloc::Global;
use std::test::Fail;

const IMAGE: &[u8] = b"application/vnd.oci.image.manifest.v1+json";

// The layers with these bytes.
fn layers_of(alloc: Global, contents: &[&[u8]]) -> Result<List<Bytes>, Fail> {
    let mut layers = List::new(alloc);
    for content in contents {
        layers.push(Bytes::of(alloc, content)?)?;
    }
    Ok(layers)
}

// A manifest under a media type, as a child of an index.
fn child_of(alloc: Global, media: &[u8], text: &Bytes) -> Result<Child, Fail>
    ensures { IfOk result (λ child. IsUnescaped child.media) }
{
    if !is_unescaped(media) {
        return Err(Fail::from("a plain media type"));
    }
    Ok(Child {
        kind: ChildKind::Manifest,
        digest: Digest::of(text.view()),
        size: text.view().len() as u64,
        media: Bytes::of(alloc, media)?,
    })
}

#[test]
fn an_image_is_one_line_of_json(rt: HostRuntime) -> Result<(), Fail> {
    let alloc = rt.alloc();
    let cases: [(&[u8], &[&[u8]], &[u8]); 3] = [
        (b"{}", &[b"{}", b"{}"], two_equal_layers()),
        (b"", &[], no_layers()),
        (b"{}", &[b"\x00\xff", b"abc"], two_layers()),
    ];
    for (config, contents, want) in cases {
        let layers = layers_of(alloc, contents)?;
        let text = write_image(alloc, config, layers.view())?;
        assert_eq!(rt; text.view(), want);
    }
    Ok(())
}

#[test]
fn an_index_lists_two_images_with_one_config(rt: HostRuntime) -> Result<(), Fail> {
    let alloc = rt.alloc();
    let layers = layers_of(alloc, &[b"abc"])?;
    let one = write_image(alloc, b"{}", layers.view())?;
    let layers = layers_of(alloc, &[b"\x00\xff", b"abc"])?;
    let two = write_image(alloc, b"{}", layers.view())?;
    let children = [child_of(alloc, IMAGE, &one)?, child_of(alloc, IMAGE, &two)?];
    let text = write_index(alloc, &children)?;
    assert_eq!(rt; text.view(), index_of_two());
    Ok(())
}

fn two_equal_layers() -> &'static [u8] {
    b"{\"schemaVersion\":2,\"mediaType\":\"application/vnd.oci.image.manifest.v1+json\",\"config\":{\"mediaType\":\"application/vnd.oci.image.config.v1+json\",\"digest\":\"sha256:44136fa355b3678a1146ad16f7e8649e94fb4fc21fe77e8310c060f61caaff8a\",\"size\":2},\"layers\":[{\"mediaType\":\"application/vnd.oci.image.layer.v1.tar\",\"digest\":\"sha256:44136fa355b3678a1146ad16f7e8649e94fb4fc21fe77e8310c060f61caaff8a\",\"size\":2},{\"mediaType\":\"application/vnd.oci.image.layer.v1.tar\",\"digest\":\"sha256:44136fa355b3678a1146ad16f7e8649e94fb4fc21fe77e8310c060f61caaff8a\",\"size\":2}]}"
}

fn no_layers() -> &'static [u8] {
    b"{\"schemaVersion\":2,\"mediaType\":\"application/vnd.oci.image.manifest.v1+json\",\"config\":{\"mediaType\":\"application/vnd.oci.image.config.v1+json\",\"digest\":\"sha256:e3b0c44298fc1c149afbf4c8996fb92427ae41e4649b934ca495991b7852b855\",\"size\":0},\"layers\":[]}"
}

fn two_layers() -> &'static [u8] {
    b"{\"schemaVersion\":2,\"mediaType\":\"application/vnd.oci.image.manifest.v1+json\",\"config\":{\"mediaType\":\"application/vnd.oci.image.config.v1+json\",\"digest\":\"sha256:44136fa355b3678a1146ad16f7e8649e94fb4fc21fe77e8310c060f61caaff8a\",\"size\":2},\"layers\":[{\"mediaType\":\"application/vnd.oci.image.layer.v1.tar\",\"digest\":\"sha256:06eb7d6a69ee19e5fbdf749018d3d2abfa04bcbd1365db312eb86dc7169389b8\",\"size\":2},{\"mediaType\":\"application/vnd.oci.image.layer.v1.tar\",\"digest\":\"sha256:ba7816bf8f01cfea414140de5dae2223b00361a396177a9cb410ff61f20015ad\",\"size\":3}]}"
}

fn index_of_two() -> &'static [u8] {
    b"{\"schemaVersion\":2,\"mediaType\":\"application/vnd.oci.image.index.v1+json\",\"manifests\":[{\"mediaType\":\"application/vnd.oci.image.manifest.v1+json\",\"digest\":\"sha256:98971dd60b8fa943b7cd352457f96ad860f5432378a0518280189b6a3d8896b1\",\"size\":392},{\"mediaType\":\"application/vnd.oci.image.manifest.v1+json\",\"digest\":\"sha256:eb3494a6c8867ce44ef602bd2b2d692b0c9edfcd7726661e31d809d145121ced\",\"size\":539}]}"
}
