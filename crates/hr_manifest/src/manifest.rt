//! A manifest that was read: its media type, its bytes and its children.
ghost use Rattle.std.specs.Prelude.{◌≡◌, ◌≢◌, ◌≤◌, IfErr, IfOk, IsSome, length};
ghost use Rattle.hr_manifest.specs.Reading.{Reads, Refuses, form_of};

use crate::reading::read_children;
use crate::{Child, Unreadable};
use hr_base::{Bytes, List, MANIFEST_LIMIT};
use std::alloc::Global;
use std::marker::Model;

/// How many children a manifest has at most, the config among them. (Our own.)
pub const CHILD_LIMIT: u64 = 4096;

/// A manifest that was read. Its children depend on its bytes alone.
#[derive(Debug, Drop)]
pub struct Manifest {
    media: Bytes,
    bytes: Bytes,
    children: List<Child>,
}

impl Model for Manifest {
    ghost use Rattle.hr_manifest.specs.Manifest.{Parts};
    ghost use Rattle.hr_manifest.specs.Reading.{Reads};

    ghost Value = { Parts };

    ghost view = { λ m. record { media = m.media; bytes = m.bytes; children = m.children } };

    ghost invariant = { λ m. Reads m.media m.bytes m.children };
}

impl Manifest {
    /// Reads some bytes under a media type. The first of these faults is answered: too many bytes;
    /// another media type than the four that are read; no JSON object; `schemaVersion` is not 2;
    /// `mediaType` is there and another one; a member of the other form is there, or one of this
    /// form is not; too many children; and child by child, the config first, its media type, its
    /// digest and its size. Other members are passed over.
    pub fn read(alloc: Global, media: &[u8], bytes: &[u8]) -> Result<Manifest, Unreadable>
        ensures ok { IfOk result (λ manifest. Reads media.now bytes.now manifest.children) }
        ensures kept { IfOk result
            (λ manifest. (manifest.media ≡ media.now) × (manifest.bytes ≡ bytes.now)) }
        ensures refused { IfErr result
            (λ why. why ≢ Unreadable.Memory → Refuses media.now bytes.now why) }

        // The first two faults are found without memory.
        ensures memory { (result ≡ Err Unreadable.Memory)
            → (length bytes.now ≤ MANIFEST_LIMIT) × IsSome (form_of media.now) }
    {
        let children = read_children(alloc, media, bytes)?;
        Ok(Manifest {
            media: Bytes::of(alloc, media)?,
            bytes: Bytes::of(alloc, bytes)?,
            children,
        })
    }

    /// Each manifest was read.
    pub fn is_read(&self)
        ensures { Reads self.now.media self.now.bytes self.now.children }
    {
        let _ = &self.children;
    }

    /// Its media type.
    pub fn media(&self) -> &[u8]
        ensures { result.now ≡ self.now.media }
    {
        self.media.view()
    }

    /// Its bytes, exactly as they were read.
    pub fn bytes(&self) -> &[u8]
        ensures { result.now ≡ self.now.bytes }
    {
        self.bytes.view()
    }

    /// Its children in the order of the bytes: the config and the layers of an image, or the
    /// manifests of an index.
    pub fn children(&self) -> &[Child]
        ensures { result.now ≡ self.now.children }
    {
        self.children.view()
    }
}
