//! A walk over the graph of a manifest: what is needed next, so that each manifest is put after
//! all that it lists. (Our own.)
ghost use Rattle.std.specs.Prelude.{◌≡◌, ◌≢◌, ◌*◌, ◌<◌, ◌≤◌, ◌⊎◌, IfErr, IfOk, OnErr, OnOk, Some};
ghost use Rattle.hr_digest.specs.Digest.{digest_of};
ghost use Rattle.hr_graph.specs.declared.need.Need.TheVariants as need;

use crate::meeting::next_in;
use crate::opened::{Blobs, Finished, Manifests, Opened, PAIR_LIMIT, height, move_to};
use crate::seed::RootSeed;
use crate::{Given, Need, WalkRefused};
use hr_digest::Digest;
use hr_manifest::Manifest;
use indexmap::IndexMap;
use std::alloc::Global;
use std::marker::Model;

/// A walk over the graph of a manifest. It needs the children of each manifest in their order,
/// each with all below it before the next, and then the manifest to be put; each pair of kind and
/// digest once. Foreign children are passed over.
#[derive(Debug, Drop)]
pub struct Walk {
    root: Digest,
    opened: Vec<Opened>,
    blobs: Blobs,
    manifests: Manifests,
    need: Need,
}

impl Model for Walk {
    ghost use Rattle.std.specs.Prelude.{reverse};
    ghost use Rattle.hr_graph.specs.Walk.{View};
    ghost use Rattle.hr_graph.specs.Sound.{IsSound};
    ghost use Rattle.hr_graph.specs.Fields.{view_of};

    ghost Value = { View };

    ghost view = { λ w. view_of w.root w.opened.items w.blobs.entries w.manifests.entries w.need };

    ghost invariant = { λ w. IsSound
        (view_of w.root w.opened.items w.blobs.entries w.manifests.entries w.need) };
}

impl Walk {
    ghost use Rattle.hr_graph.specs.Walk.{Answers, asked_size, left_of, newest_manifest};
    ghost use Rattle.hr_graph.specs.Step.{after_manifest, after_put, begun, outcome, with_blob};
    ghost use Rattle.hr_graph.specs.Meeting.{settled};
    ghost use Rattle.hr_graph.specs.Sound.{IsSound};

    /// A walk from a manifest and its digest. Its first child is met at once, and may be refused.
    pub fn begin(alloc: Global, root: Digest, manifest: Manifest) -> Result<Walk, WalkRefused>
        requires { digest_of manifest.bytes ≡ root }
        ensures ok { IfOk result (λ walk. begun root manifest ≡ Ok walk) }
        ensures err { IfErr result (λ why. why ≢ WalkRefused.Memory
            → begun root manifest ≡ Err why) }
    {
        let mut opened = Vec::new(alloc);
        opened.push(Opened {
            digest: root,
            manifest,
            level: 0,
            next: 0,
        })?;
        let blobs = IndexMap::with_hasher(alloc, RootSeed::of(root));
        let manifests = IndexMap::with_hasher(alloc, RootSeed::of(root));
        let next = next_in(&opened, &blobs, &manifests)?;
        move_to(&mut opened, next.at);
        Ok(Walk {
            root,
            opened,
            blobs,
            manifests,
            need: next.need,
        })
    }

    /// What the walk needs to go on.
    pub fn need(&self) -> Need
        ensures { result ≡ self.now.need }
    {
        self.need
    }

    /// The digest of the manifest that the walk began with.
    pub fn root(&self) -> Digest
        ensures { result ≡ self.now.root }
    {
        self.root
    }

    /// The manifest that is to be put.
    pub fn putting(&self) -> &Manifest
        requires asked { (digest : Digest) × (self.now.need ≡ need.PutManifest digest) }
        ensures { Some result.now ≡ newest_manifest self.now.need self.now.opened }
    {
        &self.opened[self.opened.len() - 1].manifest
    }

    /// The size in bytes that the descriptor of the child that is asked for says; none where a
    /// manifest is to be put, and at the end.
    pub fn size(&self) -> Option<u64>
        ensures { result ≡ asked_size self.now.opened }
    {
        let Some(newest) = self.opened.last() else {
            return None;
        };
        match newest.manifest.children().get(newest.next) {
            Some(child) => Some(child.size),
            None => None,
        }
    }

    /// How many more answers it takes at most: it falls with each.
    pub fn left(&self) -> u32
        ensures told { result ≡ left_of self.now }
        ensures bound { result ≤ 4 * PAIR_LIMIT }
    {
        let copying = match self.need {
            Need::CopyBlob(_) => 1,
            _ => 0,
        };
        let pairs = (self.blobs.len() + self.manifests.len()) as u64;
        (2 * PAIR_LIMIT - (2 * pairs + self.opened.len() as u64 + copying)) as u32
    }

    /// Takes the answer to the present need, and goes on to the next one. A child that is refused
    /// is refused as soon as the one before it is finished.
    pub fn give(&mut self, given: Given) -> Result<(), WalkRefused>
        requires { Answers self.old.need given }
        ensures ok { OnOk result (outcome self.old given ≡ Ok self.new) }
        ensures err { IfErr result (λ why. why ≢ WalkRefused.Memory
            → outcome self.old given ≡ Err why) }
        ensures unchanged { OnErr result (self.new ≡ self.old) }
        ensures falls { OnOk result (left_of self.new < left_of self.old) }
    {
        match (self.need, given) {
            (Need::Manifest(digest), Given::Manifest(manifest)) => self.open(digest, manifest),
            (Need::HasBlob(digest), Given::Found { len: Some(len) }) => self.add_blob(digest, len),
            (Need::HasBlob(digest), Given::Found { len: None }) => {
                self.need = Need::CopyBlob(digest);
                Ok(())
            }
            (Need::CopyBlob(digest), Given::Copied { len }) => self.add_blob(digest, len),
            (Need::PutManifest(_), Given::Put) => self.close(),
            _ => Ok(()),
        }
    }

    // Opens a manifest, the next child of the newest.
    fn open(&mut self, digest: Digest, manifest: Manifest) -> Result<(), WalkRefused>
        requires asked { self.old.need ≡ Need.Manifest digest }
        requires fits { digest_of manifest.bytes ≡ digest }
        ensures ok { OnOk result
            (after_manifest self.old digest manifest self.old.opened ≡ Ok self.new) }
        ensures err { IfErr result (λ why. why ≢ WalkRefused.Memory
            → after_manifest self.old digest manifest self.old.opened ≡ Err why) }
        ensures unchanged { OnErr result (self.new ≡ self.old) }
    {
        let newest = &self.opened[self.opened.len() - 1];
        let said = newest.manifest.children()[newest.next].size;
        let level = newest.level + 1;
        let got = manifest.bytes().len() as u64;
        if said != got {
            return Err(WalkRefused::SizeDiffers { digest, said, got });
        }
        self.opened.push(Opened {
            digest,
            manifest,
            level,
            next: 0,
        })?;
        match next_in(&self.opened, &self.blobs, &self.manifests) {
            Ok(next) => {
                move_to(&mut self.opened, next.at);
                self.need = next.need;
                Ok(())
            }
            Err(why) => {
                self.opened.pop();
                Err(why)
            }
        }
    }

    // Finishes the blob that is asked for or copied.
    fn add_blob(&mut self, digest: Digest, len: u64) -> Result<(), WalkRefused>
        requires asked { (self.old.need ≡ Need.HasBlob digest)
            ⊎ (self.old.need ≡ Need.CopyBlob digest) }
        ensures ok { OnOk result (settled (with_blob self.old digest len) ≡ Ok self.new) }
        ensures err { IfErr result (λ why. why ≢ WalkRefused.Memory
            → settled (with_blob self.old digest len) ≡ Err why) }
        ensures unchanged { OnErr result (self.new ≡ self.old) }
    {
        self.blobs.insert(digest, len)?;
        match next_in(&self.opened, &self.blobs, &self.manifests) {
            Ok(next) => {
                move_to(&mut self.opened, next.at);
                self.need = next.need;
                Ok(())
            }
            Err(why) => {
                self.blobs.pop();
                Err(why)
            }
        }
    }

    // Finishes the newest open manifest.
    fn close(&mut self) -> Result<(), WalkRefused>
        requires asked { (digest : Digest) × (self.old.need ≡ Need.PutManifest digest) }
        ensures ok { OnOk result (after_put self.old self.old.opened ≡ Ok self.new) }
        ensures err { IfErr result (λ why. why ≢ WalkRefused.Memory
            → after_put self.old self.old.opened ≡ Err why) }
        ensures unchanged { OnErr result (self.new ≡ self.old) }
    {
        let lower = self.opened.len() - 1;
        let newest = &self.opened[lower];
        let digest = newest.digest;
        let done = Finished {
            len: newest.manifest.bytes().len() as u64,
            height: height(newest.manifest.children(), &self.manifests),
        };
        self.manifests.insert(digest, done)?;
        match next_in(&self.opened[..lower], &self.blobs, &self.manifests) {
            Ok(next) => {
                self.opened.truncate(lower);
                move_to(&mut self.opened, next.at);
                self.need = next.need;
                Ok(())
            }
            Err(why) => {
                self.manifests.pop();
                Err(why)
            }
        }
    }

    /// A law: what holds of a walk at every moment.
    pub fn is_sound(&self)
        ensures { IsSound self.now }
    {
        let _ = &self.need;
    }
}
