//! How the children of a manifest are met, one after the other. (Our own.)
ghost use Rattle.std.specs.Prelude.{◌≡◌, ◌≤◌, reverse};
ghost use Rattle.hr_graph.specs.Meeting.{blob_met, child_met, finished_met, manifest_met, new_met, next_in};
ghost use Rattle.hr_graph.specs.Walk.{is_open, known, met_count};
ghost use Rattle.hr_graph.specs.Sound.{IsPlaced};

use crate::opened::{Blobs, DEPTH_LIMIT, Manifests, Opened, PAIR_LIMIT};
use crate::{Need, WalkRefused};
use hr_digest::Digest;
use hr_manifest::{Child, ChildKind};

/// The next need, and the child that it is about.
#[derive(Clone, Copy, Debug, PartialEq, Eq)]
pub struct Next {
    /// The place of that child, from 0, in the newest open manifest; after the last one where the
    /// manifest itself is to be put.
    pub at: usize,
    pub need: Need,
}

// Passes over a finished child, whose content has this length in bytes.
fn finished_met(child: &Child, len: u64) -> Result<Option<Need>, WalkRefused>
    ensures { result ≡ finished_met child.now len }
{
    if child.size != len {
        return Err(WalkRefused::SizeDiffers {
            digest: child.digest,
            said: child.size,
            got: len,
        });
    }
    Ok(None)
}

// Asks for a child that is met for the first time, after so many others.
fn new_met(count: u64, asked: Need) -> Result<Option<Need>, WalkRefused>
    ensures { result ≡ new_met count asked }
{
    if count >= PAIR_LIMIT {
        return Err(WalkRefused::TooMany {
            count: PAIR_LIMIT + 1,
        });
    }
    Ok(Some(asked))
}

// Meets a blob, after so many other pairs.
fn blob_met(blobs: &Blobs, count: u64, child: &Child) -> Result<Option<Need>, WalkRefused>
    ensures { result ≡ blob_met (known child.now.digest blobs.now.entries) count child.now }
{
    match blobs.get(&child.digest) {
        Some(len) => finished_met(child, *len),
        None => new_met(count, Need::HasBlob(child.digest)),
    }
}

// Meets a manifest at this level, after so many other pairs.
fn manifest_met(
    opened: &[Opened],
    manifests: &Manifests,
    level: u8,
    count: u64,
    child: &Child,
) -> Result<Option<Need>, WalkRefused>
    ensures { result ≡ manifest_met (known child.now.digest manifests.now.entries)
        (is_open child.now.digest (reverse opened.now)) level count child.now }
{
    let digest = child.digest;
    let Some(done) = manifests.get(&digest) else {
        if u64::from(level) > DEPTH_LIMIT || is_open(opened, digest) {
            return Err(WalkRefused::TooDeep { digest });
        }
        return new_met(count, Need::Manifest(digest));
    };
    if u64::from(level) + u64::from(done.height) > DEPTH_LIMIT {
        return Err(WalkRefused::TooDeep { digest });
    }
    finished_met(child, done.len)
}

// Whether a manifest of this digest is open.
fn is_open(opened: &[Opened], digest: Digest) -> bool
    ensures { result ≡ is_open digest (reverse opened.now) }
{
    opened.iter().rev().any(|o| o.digest == digest)
}

// Meets a child of a manifest one level above this one.
fn child_met(
    opened: &[Opened],
    blobs: &Blobs,
    manifests: &Manifests,
    level: u8,
    child: &Child,
) -> Result<Option<Need>, WalkRefused>
    requires few { met_count opened.now blobs.now.entries manifests.now.entries ≤ PAIR_LIMIT }
    ensures { result ≡ child_met (reverse opened.now) blobs.now.entries manifests.now.entries level
        child.now }
{
    let count = (blobs.len() + manifests.len() + opened.len()) as u64;
    match child.kind {
        ChildKind::Foreign => Ok(None),
        ChildKind::Blob => blob_met(blobs, count, child),
        ChildKind::Manifest => manifest_met(opened, manifests, level, count, child),
    }
}

/// Finds the first child of the newest open manifest that isn't passed over, and asks for it or
/// refuses it; the newest open manifest is the last.
pub(crate) fn next_in(
    opened: &[Opened],
    blobs: &Blobs,
    manifests: &Manifests,
) -> Result<Next, WalkRefused>
    requires few { met_count opened.now blobs.now.entries manifests.now.entries ≤ PAIR_LIMIT }
    requires placed { IsPlaced (reverse opened.now) }
    ensures { result ≡ next_in (reverse opened.now) blobs.now.entries manifests.now.entries }
{
    let Some(newest) = opened.last() else {
        return Ok(Next {
            at: 0,
            need: Need::Done,
        });
    };
    let children = newest.manifest.children();
    for at in newest.next..children.len() {
        let met = child_met(opened, blobs, manifests, newest.level + 1, &children[at])?;
        if let Some(need) = met {
            return Ok(Next { at, need });
        }
    }
    Ok(Next {
        at: children.len(),
        need: Need::PutManifest(newest.digest),
    })
}
