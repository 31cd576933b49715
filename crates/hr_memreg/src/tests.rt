//! What no clause shows at once: that faults and changes come at their operations, one after the
//! other; and the cases of every registry.

use crate::{Change, Content, ManifestAt, MemRegistry, Planned, RepoContent, TagAt};
use hr_adapter::cases::{OPERATIONS, run, run_failing};
use hr_adapter::{RegFault, Registry};
use hr_base::{Bytes, List};
use hr_digest::Digest;
use hr_event::Reference;
use hr_name::{Name, Tag};
use std::alloc::Global;
use std::test::Fail;

fn one<T: Drop>(alloc: Global, item: T) -> Result<List<T>, Fail> {
    let mut list = List::new(alloc);
    list.push(item)?;
    Ok(list)
}

fn manifest(alloc: Global, bytes: &[u8]) -> Result<ManifestAt, Fail> {
    Ok(ManifestAt {
        digest: Digest::of(bytes),
        media: Bytes::of(alloc, b"a/b")?,
        bytes: Bytes::of(alloc, bytes)?,
    })
}

// A repository with the manifests `{}`, which the tag names, and `[]`.
fn content(alloc: Global, repo: &Name, tag: &Tag) -> Result<Content, Fail> {
    let mut manifests = one(alloc, manifest(alloc, b"{}")?)?;
    manifests.push(manifest(alloc, b"[]")?)?;
    let tagged = TagAt {
        tag: tag.copy(alloc)?,
        digest: Digest::of(b"{}"),
        labels: List::new(alloc),
    };
    let repo = RepoContent {
        name: repo.copy(alloc)?,
        blobs: List::new(alloc),
        manifests,
        tags: one(alloc, tagged)?,
    };
    Ok(Content {
        repos: one(alloc, repo)?,
    })
}

// It fails at its operations 2 and 4, of which the second takes effect, and just before its
// operation 3 the tag is moved to the manifest `[]`.
fn planned(alloc: Global, repo: &Name, tag: &Tag) -> Result<MemRegistry, Fail> {
    let mut registry = MemRegistry::new(alloc, content(alloc, repo, tag)?)?;
    let mut faults = one(
        alloc,
        Planned {
            op: 2,
            lands: false,
        },
    )?;
    faults.push(Planned { op: 4, lands: true })?;
    registry.with_faults(faults);
    let change = Change {
        op: 3,
        repo: repo.copy(alloc)?,
        tag: tag.copy(alloc)?,
        digest: Digest::of(b"[]"),
    };
    registry.with_changes(one(alloc, change)?);
    Ok(registry)
}

#[test]
fn faults_and_changes_come_at_their_operations(rt: HostRuntime) -> Result<(), Fail> {
    let alloc = rt.alloc();
    let repo = Name::read(alloc, b"library/one")?;
    let tag = Tag::read(alloc, b"v1")?;
    let mut registry = planned(alloc, &repo, &tag)?;
    let by_tag = Reference::Tag(tag);
    let (first, second) = (Digest::of(b"{}"), Digest::of(b"[]"));
    assert_eq!(rt;
        registry.head(&repo, &by_tag),
        Ok(Some(first)),
        "operation 1"
    );
    assert_eq!(rt;
        registry.head(&repo, &by_tag),
        Err(RegFault::Failed),
        "operation 2"
    );
    assert_eq!(rt;
        registry.head(&repo, &by_tag),
        Ok(Some(second)),
        "operation 3"
    );
    let put = registry.put_manifest(&repo, &by_tag, b"a/b", b"{}");
    assert_eq!(rt; put, Err(RegFault::Failed), "operation 4");
    assert_eq!(rt;
        registry.head(&repo, &by_tag),
        Ok(Some(first)),
        "operation 5"
    );
    assert_eq!(rt; registry.count(), 2, "how often it failed");
    Ok(())
}

// A registry that holds nothing.
fn empty(alloc: Global) -> Result<MemRegistry, Fail> {
    let content = Content {
        repos: List::new(alloc),
    };
    Ok(MemRegistry::new(alloc, content)?)
}

#[test]
fn the_cases_of_every_registry_hold(rt: HostRuntime) -> Result<(), Fail> {
    let alloc = rt.alloc();
    assert_eq!(rt; run(alloc, &mut empty(alloc)?), Ok(()));
    for op in 1..=OPERATIONS {
        let mut registry = empty(alloc)?;
        registry.with_faults(one(alloc, Planned { op, lands: false })?);
        assert_eq!(rt; run_failing(alloc, &mut registry, op), Ok(()), "{op}");
    }
    Ok(())
}
