//! A connection to a registry: what its calls answer and what they leave (OCI Distribution 1.1,
//! "Endpoints", and the catalog of the Docker registry).
ghost use Rattle.std.specs.Prelude.{◌≡◌, ◌<◌, ◌≤◌, IfOk, IsSome, length};
ghost use Rattle.hr_adapter.specs.Calls.{BeginsPut, EndsPut, Fetches, FindsBlob, Heads, IsOpen, IsReady, ListsRepos, ListsTags, OpensBlob, PutsManifest, ReadsBlob, WritesPut, shown_of};
ghost use Rattle.hr_adapter.specs.Media.{FitsHeader};
ghost use Rattle.hr_adapter.specs.Put.{IsOwn};
ghost use Rattle.hr_adapter.specs.Reg.{Reg, IsSound};

use crate::{RegFault, TagNow, Tagged};
use hr_base::{List, Memory, PIECE};
use hr_digest::Digest;
use hr_event::{Fetched, Reference};
use hr_name::Name;

/// How many bytes a blob has at most. (Our own.)
pub const BLOB_LIMIT: u64 = 9_223_372_036_854_775_807;

/// How many repositories, or tags of one repository, are listed at most. (Our own.)
pub const LIST_LIMIT: u64 = 65_536;

/// A connection to a registry.
///
/// It may tell its content, so that contracts know what its calls answer: a registry over HTTP
/// tells nothing. A registry in memory tells besides how many operations there were, which of them
/// fail, and which tags are moved just before them. Each call is one operation, but `shown` and
/// `count`; and all calls of one reading of a blob are one, as are all of one writing. A call answers
/// by the content after the moves that were planned for it.
///
/// A call that answers `Failed` has counted a fault. `TooLong` comes exactly where what it would
/// give, or was given, is above its limit. `Memory` changes nothing but, as planned, tags.
pub trait Registry: Drop {
    /// The connection as contracts see it.
    ghost seen: { Self → Reg };

    /// The names of all repositories, in byte order.
    fn repos(&mut self) -> Result<List<Name>, RegFault>
        ensures { ListsRepos (seen self.old) (seen self.new) result };

    /// All tags of a repository with their labels, in byte order: none where there is no such
    /// repository. A tag is listed also where its manifest is not there. ("Listing Tags".)
    fn tags(&mut self, repo: &Name) -> Result<List<Tagged>, RegFault>
        ensures { ListsTags repo.now (seen self.old) (seen self.new) result };

    /// The digest of the manifest that a reference leads to, or `None` where it leads to none.
    /// ("Checking if content exists in the registry".)
    fn head(&mut self, repo: &Name, reference: &Reference) -> Result<Option<Digest>, RegFault>
        ensures { Heads repo.now reference.now (seen self.old) (seen self.new) result };

    /// The manifest that a reference leads to, or `None` where it leads to none. Whether its bytes
    /// have the digest is for the caller to see. ("Pulling manifests".)
    fn manifest(&mut self, repo: &Name, reference: &Reference) -> Result<Option<Fetched>, RegFault>
        ensures { Fetches repo.now reference.now (seen self.old) (seen self.new) result };

    /// Stores a manifest under its digest and, where the reference is a tag, makes the tag name it.
    /// The labels of the tag stay. After an error the content is as before, or as after the put, or,
    /// under a tag, with the manifest stored and the tag as before. ("Pushing Manifests".)
    fn put_manifest(
        &mut self,
        repo: &Name,
        reference: &Reference,
        media: &[u8],
        bytes: &[u8],
    ) -> Result<(), RegFault>
        requires own { IsOwn reference.now bytes.now }
        requires fits { FitsHeader media.now }
        ensures { PutsManifest repo.now reference.now media.now bytes.now (seen self.old) (seen self.new) result };

    /// The length of a blob in bytes, or `None` where it is not there. ("Checking if content exists
    /// in the registry".)
    fn has_blob(&mut self, repo: &Name, digest: &Digest) -> Result<Option<u64>, RegFault>
        ensures { FindsBlob repo.now digest.now (seen self.old) (seen self.new) result };

    /// Opens a blob to be read, and answers whether it is there. What was open before is closed.
    /// ("Pulling blobs".)
    fn open_blob(&mut self, repo: &Name, digest: &Digest) -> Result<bool, RegFault>
        ensures { OpensBlob repo.now digest.now (seen self.old) (seen self.new) result };

    /// Puts the next bytes of the open blob at the front of the buffer, and answers how many it put
    /// there: 0 for a buffer that is not empty means its end. The rest of the buffer may change. An
    /// error closes the blob. Whether all bytes have the digest is for the caller to see. It is no
    /// operation of its own.
    fn read_blob(&mut self, buf: &mut [u8]) -> Result<usize, RegFault>
        requires { IsSome (seen self.old).reading }
        ensures { ReadsBlob buf.new (seen self.old) (seen self.new) result };

    /// Begins to write a blob. What was being written before is dropped. ("Pushing blobs".)
    fn begin_put(&mut self, repo: &Name) -> Result<(), RegFault>
        ensures { BeginsPut repo.now (seen self.old) (seen self.new) result };

    /// Adds 1 to `PIECE` bytes to the blob that is being written. After an error it can't be ended.
    /// It is no operation of its own.
    fn write_put(&mut self, bytes: &[u8]) -> Result<(), RegFault>
        requires begun { IsOpen (seen self.old).writing }
        requires some { 0 < length bytes.now }
        requires piece { length bytes.now ≤ PIECE }
        ensures { WritesPut bytes.now (seen self.old) (seen self.new) result };

    /// Stores the blob that was written under its digest. After an error the content is as before,
    /// or with the blob. Either way nothing is being written any more. It is no operation of its
    /// own, and finds no new changes.
    fn end_put(&mut self, digest: &Digest) -> Result<(), RegFault>
        requires { IsReady digest.now (seen self.old).writing }
        ensures { EndsPut digest.now (seen self.old) (seen self.new) result };

    /// All tags that name a digest, in byte order of repository and tag: a registry in memory gives
    /// them, every other gives none. It is no operation, and asks nobody.
    fn shown(&self) -> Result<List<TagNow>, Memory>
        ensures { IfOk result (λ tags. tags ≡ shown_of (seen self.now)) };

    /// How often it failed: 0 to `2^64 - 1`, where it stays. It is no operation.
    fn count(&self) -> u64
        ensures value { result ≡ (seen self.now).faults }
        ensures sound { IsSound (seen self.now) };
}
