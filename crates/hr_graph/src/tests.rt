//! Walks over small graphs, beside a plain walk that calls itself.
mod graphs;
mod plain;

use crate::{Given, Need, Walk, WalkRefused};
use graphs::{Graph, chain, diamond, found, image, index, length_of};
use hr_digest::Digest;
use plain::plain;
use std::alloc::Global;
use std::test::Fail;

// Answers each need from the graph: no blob is there before it is copied. Tells what was needed,
// and why the walk was refused, if it was.
fn walked(
    alloc: Global,
    graph: &Graph,
    root: Digest,
) -> Result<(Vec<Need>, Option<WalkRefused>), Fail> {
    let mut needs = Vec::new(alloc);
    let mut walk = match Walk::begin(alloc, root, found(alloc, graph, root)?) {
        Ok(walk) => walk,
        Err(why) => return Ok((needs, Some(why))),
    };
    let mut left = walk.left();
    for _ in 0..200_000u32 {
        let need = walk.need();
        needs.push(need)?;
        let answer = match need {
            Need::Manifest(digest) => walk.give(Given::Manifest(found(alloc, graph, digest)?)),
            Need::HasBlob(_) => walk.give(Given::Found { len: None }),
            Need::CopyBlob(digest) => walk.give(Given::Copied {
                len: length_of(graph, digest),
            }),
            Need::PutManifest(_) => walk.give(Given::Put),
            Need::Done => return Ok((needs, None)),
        };
        if let Err(why) = answer {
            return Ok((needs, Some(why)));
        }
        if walk.left() >= left {
            Err("an answer leaves as many")?;
        }
        left = walk.left();
    }
    Err("the walk has no end")?
}

#[test]
fn a_walk_needs_what_a_plain_walk_needs(rt: HostRuntime) -> Result<(), Fail> {
    let alloc = rt.alloc();
    let mut graph = Graph::new(alloc);
    let none = index(alloc, &mut graph, &[])?;
    let bare = image(alloc, &mut graph, b"{}", &[])?;
    let layered = image(alloc, &mut graph, b"{}", &[b"one", b"two", b"one"])?;
    let under_one_digest = image(alloc, &mut graph, b"{\"a\":1}", &[b"two", b"four"])?;
    let twice = index(alloc, &mut graph, &[layered, layered, bare])?;
    let shared = index(alloc, &mut graph, &[bare, twice, layered, under_one_digest])?;
    let over_shared = index(alloc, &mut graph, &[twice, none, shared, bare])?;
    let cases = [
        ("an empty index", none),
        ("a config alone", bare),
        ("a layer twice", layered),
        ("a child twice", twice),
        ("children that are shared", shared),
        ("children that are shared at several levels", over_shared),
        ("a diamond", diamond(alloc, &mut graph)?),
        (
            "a blob and a manifest under one digest",
            graphs::two_kinds(alloc, &mut graph)?,
        ),
        ("foreign layers alone", graphs::foreign(alloc, &mut graph)?),
        ("a chain of nine manifests", chain(alloc, &mut graph, 8)?),
    ];
    for (name, root) in cases {
        let mut needs = Vec::new(alloc);
        plain(alloc, 10, &graph, root, &mut Vec::new(alloc), &mut needs)?;
        needs.push(Need::Done)?;
        let (got, why) = walked(alloc, &graph, root)?;
        assert_eq!(rt; why, None, "{name}");
        assert!(rt; got.as_slice() == needs.as_slice(), "{name}");
    }
    Ok(())
}

#[test]
fn a_manifest_at_the_ninth_level_is_too_deep(rt: HostRuntime) -> Result<(), Fail> {
    let alloc = rt.alloc();
    let mut graph = Graph::new(alloc);
    let deepest = chain(alloc, &mut graph, 0)?;
    let first = chain(alloc, &mut graph, 9)?;
    let (_, why) = walked(alloc, &graph, first)?;
    assert_eq!(rt; why, Some(WalkRefused::TooDeep { digest: deepest }));

    let fifth = chain(alloc, &mut graph, 5)?;
    let fourth = chain(alloc, &mut graph, 4)?;
    let other = image(alloc, &mut graph, b"{}", &[])?;
    let third = index(alloc, &mut graph, &[other, fourth])?;
    let second = index(alloc, &mut graph, &[third])?;
    let low = index(alloc, &mut graph, &[second])?;
    let lower = index(alloc, &mut graph, &[low])?;
    let shared = index(alloc, &mut graph, &[fifth, lower])?;
    let (_, why) = walked(alloc, &graph, shared)?;
    assert_eq!(rt; why, Some(WalkRefused::TooDeep { digest: fourth }));
    Ok(())
}

#[test]
fn a_child_of_another_size_is_refused(rt: HostRuntime) -> Result<(), Fail> {
    let alloc = rt.alloc();
    let mut graph = Graph::new(alloc);
    let bare = image(alloc, &mut graph, b"{}", &[])?;
    let got = length_of(&graph, bare);
    let longer = graphs::index_of_size(alloc, &mut graph, bare, got.wrapping_add(1))?;
    let (_, why) = walked(alloc, &graph, longer)?;
    let refused = WalkRefused::SizeDiffers {
        digest: bare,
        said: got.wrapping_add(1),
        got,
    };
    assert_eq!(rt; why, Some(refused), "given");

    let both = index(alloc, &mut graph, &[bare, longer])?;
    let (_, why) = walked(alloc, &graph, both)?;
    assert_eq!(rt; why, Some(refused), "known from before");
    Ok(())
}

#[test]
fn what_was_refused_can_be_given_again(rt: HostRuntime) -> Result<(), Fail> {
    let alloc = rt.alloc();
    let mut graph = Graph::new(alloc);
    let root = image(alloc, &mut graph, b"{}", &[])?;
    let blob = Digest::of(b"{}");
    let mut walk = Walk::begin(alloc, root, found(alloc, &graph, root)?)
        .ok()
        .ok_or("it is refused")?;
    assert_eq!(rt; walk.need(), Need::HasBlob(blob));
    assert_eq!(rt; walk.size(), Some(2));
    assert_eq!(rt; walk.root(), root);
    let refused = WalkRefused::SizeDiffers {
        digest: blob,
        said: 2,
        got: 3,
    };
    if let Need::HasBlob(_) = walk.need() {
        assert_eq!(rt; walk.give(Given::Found { len: Some(3) }), Err(refused));
    }
    if let Need::HasBlob(_) = walk.need() {
        assert_eq!(rt; walk.give(Given::Found { len: Some(2) }), Ok(()));
    }
    assert_eq!(rt; walk.size(), None);
    if let Need::PutManifest(digest) = walk.need() {
        assert_eq!(rt; digest, root);
        assert_eq!(rt; Digest::of(walk.putting().bytes()), root);
        return Ok(());
    }
    Err("it is not to be put")?
}
