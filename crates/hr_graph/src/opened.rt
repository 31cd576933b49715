//! The manifests that a walk has open, and what it knows of those that it finished. (Our own.)
ghost use Rattle.std.specs.Prelude.{◌≡◌, ◌≤◌, [], ◌∷◌, reverse};
ghost use Rattle.std.specs.List.{AllByRecursion};
ghost use Rattle.hr_graph.specs.Meeting.{moved_to};
ghost use Rattle.hr_graph.specs.Step.{height_of};

use crate::seed::RootSeed;
use hr_digest::Digest;
use hr_manifest::{Child, ChildKind, Manifest};
use indexmap::IndexMap;

/// The greatest level below the root at which a manifest may stand.
pub const DEPTH_LIMIT: u64 = 8;

/// How many pairs of kind and digest a walk may meet, the root among them.
pub const PAIR_LIMIT: u64 = 65_536;

/// A manifest whose children are gone through.
#[derive(Debug, Drop)]
pub struct Opened {
    pub digest: Digest,
    pub manifest: Manifest,
    /// How many manifests stand between it and the root, itself counted: 0 for the root.
    pub level: u8,
    /// The place, from 0, of the first child that wasn't passed over yet.
    pub next: usize,
}

/// What is known of a manifest that was put.
#[derive(Clone, Copy, Debug, PartialEq, Eq)]
pub struct Finished {
    /// In bytes.
    pub len: u64,
    /// One more than that of its highest child, or 0 without children that are manifests.
    pub height: u8,
}

/// The blobs that were found or copied, with their lengths in bytes.
pub(crate) type Blobs = IndexMap<Digest, u64, RootSeed>;

/// The manifests that were put.
pub(crate) type Manifests = IndexMap<Digest, Finished, RootSeed>;

// Makes this place the next of the newest open manifest.
pub(crate) fn move_to(opened: &mut Vec<Opened>, at: usize)
    ensures { reverse opened.new.items ≡ moved_to at (reverse opened.old.items) }
{
    let len = opened.len();
    if len > 0 {
        let newest = &mut opened[len - 1];
        newest.next = at;
    }
}

// The height of a manifest that lists these children.
pub(crate) fn height(children: &[Child], manifests: &Manifests) -> u8
    requires low { AllByRecursion (λ e. e.1.height ≤ DEPTH_LIMIT) manifests.now.entries }
    ensures { result ≡ height_of manifests.now.entries children.now }
{
    let mut height = 0u8;
    for child in children {
        height = height.max(height_above(child, manifests));
    }
    height
}

// One more than the height of a child that is a manifest.
fn height_above(child: &Child, manifests: &Manifests) -> u8
    requires low { AllByRecursion (λ e. e.1.height ≤ DEPTH_LIMIT) manifests.now.entries }
    ensures { result ≡ height_of manifests.now.entries (child.now ∷ []) }
{
    match child.kind {
        ChildKind::Manifest => match manifests.get(&child.digest) {
            Some(done) => done.height + 1,
            None => 0,
        },
        ChildKind::Blob | ChildKind::Foreign => 0,
    }
}
