//! Manifests and refused bytes, by tables. The digest of `{}` is that of Python's hashlib.
use crate::{Child, ChildKind, Manifest, ManifestKey, Unreadable};
use hr_base::Bytes;
use hr_digest::Digest;
use std::alloc::Global;
use std::test::Fail;

const IMAGE: &[u8] = b"application/vnd.oci.image.manifest.v1+json";

const DOCKER: &[u8] = b"application/vnd.docker.distribution.manifest.v2+json";

const INDEX: &[u8] = b"application/vnd.oci.image.index.v1+json";

const LIST: &[u8] = b"application/vnd.docker.distribution.manifest.list.v2+json";

const FOREIGN: &[u8] = b"application/vnd.docker.image.rootfs.foreign.diff.tar.gzip";

// Writes a descriptor of the bytes `{}` under this media type at the end.
fn push_descriptor(text: &mut Vec<u8>, media: &[u8]) -> Result<(), Fail> {
    text.extend_from_slice(b"{\"mediaType\":\"")?;
    text.extend_from_slice(media)?;
    text.extend_from_slice(b"\",\"digest\":\"sha256:44136fa355b3678a1146ad16f7e8649e")?;
    text.extend_from_slice(b"94fb4fc21fe77e8310c060f61caaff8a\",\"size\":2}")?;
    Ok(())
}

// The text, with a descriptor for each `@`, and one of a foreign layer for each `~`.
fn filled(alloc: Global, pattern: &[u8]) -> Result<Vec<u8>, Fail> {
    let mut text = Vec::new(alloc);
    for byte in pattern {
        match *byte {
            b'@' => push_descriptor(&mut text, b"m")?,
            b'~' => push_descriptor(&mut text, FOREIGN)?,
            other => text.push(other)?,
        }
    }
    Ok(text)
}

fn child(alloc: Global, kind: ChildKind, media: &[u8]) -> Result<Child, Fail> {
    Ok(Child {
        kind,
        digest: Digest::of(b"{}"),
        size: 2,
        media: Bytes::of(alloc, media)?,
    })
}

#[test]
fn a_manifest_lists_its_children_in_order(rt: HostRuntime) -> Result<(), Fail> {
    let alloc = rt.alloc();
    let image =
        b"{\"schemaVersion\":1,\"schemaVersion\":2,\"layers\":[@,~,@],\"config\":~,\"x\":[1e3,null]}".as_slice();
    let index = b"{\"schemaVersion\":2,\"manifests\":[@,~]}".as_slice();
    let of_image = [
        child(alloc, ChildKind::Blob, FOREIGN)?,
        child(alloc, ChildKind::Blob, b"m")?,
        child(alloc, ChildKind::Foreign, FOREIGN)?,
        child(alloc, ChildKind::Blob, b"m")?,
    ];
    let of_index = [
        child(alloc, ChildKind::Manifest, b"m")?,
        child(alloc, ChildKind::Manifest, FOREIGN)?.copy(alloc)?,
    ];
    let cases = [
        (IMAGE, image, of_image.as_slice()),
        (DOCKER, image, of_image.as_slice()),
        (INDEX, index, of_index.as_slice()),
        (LIST, index, of_index.as_slice()),
    ];
    for (media, pattern, wanted) in cases {
        let text = filled(alloc, pattern)?;
        let read = Manifest::read(alloc, media, text.as_slice());
        let manifest = read.ok().ok_or("it is not read")?;
        assert_eq!(rt; manifest.children(), wanted, "{media:?}");
        assert_eq!(rt; manifest.media(), media);
        assert_eq!(rt; manifest.bytes(), text.as_slice());
    }
    Ok(())
}

// Other media types, and what is no object.
fn unnamed() -> [(&'static [u8], &'static [u8], Unreadable); 10] {
    use Unreadable::{Media, NotJson};
    [
        (b"", b"", Media),
        (b"application/json", b"", Media),
        (
            b"application/vnd.oci.image.manifest.v1+json; a=b",
            b"",
            Media,
        ),
        (b"Application/vnd.oci.image.manifest.v1+json", b"", Media),
        (b"application/vnd.oci.image.config.v1+json", b"", Media),
        (IMAGE, b"", NotJson),
        (IMAGE, b"[]", NotJson),
        (IMAGE, b"{}{}", NotJson),
        (IMAGE, b"\xef\xbb\xbf{}", NotJson),
        (IMAGE, b"{\"\xff\":1}", NotJson),
    ]
}

// Manifests, each with the member of its first fault.
fn faults() -> [(&'static [u8], &'static [u8], ManifestKey); 26] {
    use ManifestKey::{
        ChildDigest, ChildMedia, ChildSize, Config, Layers, Manifests, MediaType, SchemaVersion,
    };
    [
        (IMAGE, b"{}", SchemaVersion),
        (
            IMAGE,
            b"{\"schemaVersion\":\"2\",\"config\":@,\"layers\":[]}",
            SchemaVersion,
        ),
        (
            IMAGE,
            b"{\"schemaVersion\":2.0,\"config\":@,\"layers\":[]}",
            SchemaVersion,
        ),
        (
            IMAGE,
            b"{\"schemaVersion\":2,\"schemaVersion\":1,\"config\":@,\"layers\":[]}",
            SchemaVersion,
        ),
        (
            IMAGE,
            b"{\"schemaVersion\":2,\"mediaType\":\"m\",\"config\":@,\"layers\":[]}",
            MediaType,
        ),
        (
            IMAGE,
            b"{\"schemaVersion\":2,\"mediaType\":null,\"config\":@,\"layers\":[]}",
            MediaType,
        ),
        (
            IMAGE,
            b"{\"schemaVersion\":2,\"config\":@,\"layers\":[],\"manifests\":null}",
            Manifests,
        ),
        (IMAGE, b"{\"schemaVersion\":2,\"manifests\":[]}", Manifests),
        (
            IMAGE,
            b"{\"schemaVersion\":2,\"config\":null,\"layers\":[]}",
            Config,
        ),
        (
            IMAGE,
            b"{\"schemaVersion\":2,\"config\":[@],\"layers\":{}}",
            Config,
        ),
        (
            IMAGE,
            b"{\"schemaVersion\":2,\"config\":{},\"layers\":{}}",
            Layers,
        ),
        (
            IMAGE,
            b"{\"schemaVersion\":2,\"config\":{},\"layers\":[]}",
            ChildMedia,
        ),
        (
            LIST,
            b"{\"schemaVersion\":2,\"config\":@,\"layers\":[]}",
            Config,
        ),
        (
            LIST,
            b"{\"schemaVersion\":2,\"layers\":null,\"manifests\":[]}",
            Layers,
        ),
        (LIST, b"{\"schemaVersion\":2}", Manifests),
        (LIST, b"{\"schemaVersion\":2,\"manifests\":{}}", Manifests),
        (
            LIST,
            b"{\"schemaVersion\":2,\"manifests\":[@,[]]}",
            ChildMedia,
        ),
        (
            INDEX,
            b"{\"schemaVersion\":2,\"manifests\":[@,{\"mediaType\":null,\"digest\":7}]}",
            ChildMedia,
        ),
        (
            INDEX,
            b"{\"schemaVersion\":2,\"manifests\":[@,{\"mediaType\":\"m\",\"size\":-1}]}",
            ChildDigest,
        ),
        (
            INDEX,
            b"{\"schemaVersion\":2,\"manifests\":[{\"mediaType\":\"m\",\"digest\":\"md5:d41d8cd98f00b204e9800998ecf8427e\"}]}",
            ChildDigest,
        ),
        (
            INDEX,
            b"{\"schemaVersion\":2,\"manifests\":[{\"mediaType\":\"m\",\"digest\":\"sha256:e3b0c44298fc1c149afbf4c8996fb924\"}]}",
            ChildDigest,
        ),
        (
            INDEX,
            b"{\"schemaVersion\":2,\"manifests\":[{\"mediaType\":\"m\",\"digest\":\"sha256:e3b0c44298fc1c149afbf4c8996fb92427ae41e4649b934ca495991b7852b855\"}]}",
            ChildSize,
        ),
        (
            INDEX,
            b"{\"schemaVersion\":2,\"manifests\":[{\"mediaType\":\"m\",\"digest\":\"sha256:e3b0c44298fc1c149afbf4c8996fb92427ae41e4649b934ca495991b7852b855\",\"size\":-1}]}",
            ChildSize,
        ),
        (
            INDEX,
            b"{\"schemaVersion\":2,\"manifests\":[{\"mediaType\":\"m\",\"digest\":\"sha256:e3b0c44298fc1c149afbf4c8996fb92427ae41e4649b934ca495991b7852b855\",\"size\":7.0}]}",
            ChildSize,
        ),
        (
            INDEX,
            b"{\"schemaVersion\":2,\"manifests\":[{\"mediaType\":\"m\",\"digest\":\"sha256:e3b0c44298fc1c149afbf4c8996fb92427ae41e4649b934ca495991b7852b855\",\"size\":9223372036854775808}]}",
            ChildSize,
        ),
        (
            INDEX,
            b"{\"schemaVersion\":2,\"manifests\":[{\"mediaType\":\"m\",\"digest\":\"sha256:e3b0c44298fc1c149afbf4c8996fb92427ae41e4649b934ca495991b7852b855\",\"size\":18446744073709551616}]}",
            ChildSize,
        ),
    ]
}

#[test]
fn bytes_are_refused_for_their_first_fault(rt: HostRuntime) -> Result<(), Fail> {
    let alloc = rt.alloc();
    for (media, text, why) in unnamed() {
        assert_eq!(rt;
            Manifest::read(alloc, media, text).err(),
            Some(why),
            "{media:?} {text:?}"
        );
    }
    for (media, pattern, name) in faults() {
        let text = filled(alloc, pattern)?;
        let why = Some(Unreadable::Field { name });
        assert_eq!(rt;
            Manifest::read(alloc, media, text.as_slice()).err(),
            why,
            "{pattern:?}"
        );
    }
    Ok(())
}

// An index of so many children, with spaces after it up to this length.
fn padded(alloc: Global, count: usize, len: usize) -> Result<Vec<u8>, Fail> {
    let mut text = b"{\"schemaVersion\":2,\"manifests\":[".to_vec(alloc)?;
    for at in 0..count {
        if at > 0 {
            text.push(b',')?;
        }
        push_descriptor(&mut text, b"m")?;
    }
    text.extend_from_slice(b"]}")?;
    for _ in text.len()..len {
        text.push(b' ')?;
    }
    Ok(text)
}

#[test]
fn a_manifest_at_its_limits_is_read_and_one_byte_or_child_more_is_not(
    rt: HostRuntime,
) -> Result<(), Fail> {
    let alloc = rt.alloc();
    let cases = [
        (4096, 4_194_304, None),
        (4097, 0, Some(Unreadable::TooMany { count: 4097 })),
        (0, 4_194_305, Some(Unreadable::TooLong { len: 4_194_305 })),
    ];
    for (count, len, want) in cases {
        let text = padded(alloc, count, len)?;
        assert_eq!(rt;
            Manifest::read(alloc, INDEX, text.as_slice()).err(),
            want,
            "{count} {len}"
        );
    }
    Ok(())
}
