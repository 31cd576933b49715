//! The walk as one would write it down, for comparison.
use super::graphs::{Graph, found};
use crate::Need;
use hr_digest::Digest;
use hr_manifest::ChildKind;
use std::alloc::Global;
use std::test::Fail;

/// The needs of a manifest: those of its children in turn, and then its put.
pub(super) fn plain(
    alloc: Global,
    depth: u32,
    graph: &Graph,
    digest: Digest,
    done: &mut Vec<(bool, Digest)>,
    needs: &mut Vec<Need>,
) -> Result<(), Fail> {
    if depth == 0 {
        return Err("it is too deep")?;
    }
    let manifest = found(alloc, graph, digest)?;
    for child in manifest.children() {
        let key = (child.kind == ChildKind::Manifest, child.digest);
        if child.kind == ChildKind::Foreign || done.contains(&key) {
            continue;
        }
        if child.kind == ChildKind::Manifest {
            needs.push(Need::Manifest(child.digest))?;
            plain(alloc, depth - 1, graph, child.digest, done, needs)?;
        } else {
            needs.push(Need::HasBlob(child.digest))?;
            needs.push(Need::CopyBlob(child.digest))?;
        }
        done.push(key)?;
    }
    needs.push(Need::PutManifest(digest))?;
    Ok(())
}
