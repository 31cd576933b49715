//! How the operations of a registry in memory go: the changes that were planned come first, then a
//! planned fault, then what was asked. (Our own.)
ghost use Rattle.std.specs.Prelude.{◌≡◌, Some, None, IsSome};
ghost use Rattle.hr_adapter.specs.Content.{fetch_at};
ghost use Rattle.hr_memreg.specs.Answer.{GivesManifest};
ghost use Rattle.hr_memreg.specs.Begun.{writing_of};
ghost use Rattle.hr_memreg.specs.Mem.{Mem};
ghost use Rattle.hr_memreg.specs.Operation.{Begins, HasFailed, IsAsked, Opens, Operates, ReadsOn, StoresBlob, StoresManifest, WritesOn};
ghost use Rattle.hr_memreg.specs.Standing.{fate_at};

use crate::MemRegistry;
use crate::blob::{Blob, Reading};
use crate::held::Held;
use crate::standing::{Fate, fate_at};
use crate::writing::Begun;
use hr_adapter::RegFault;
use hr_base::{Bytes, Memory};
use hr_digest::Digest;
use hr_event::{Fetched, Reference};
use hr_name::Name;

impl MemRegistry {
    /// What it holds.
    pub(crate) fn held(&self) -> &Held
        ensures { result.now ≡ self.now.content }
    {
        &self.standing.held
    }

    /// Begins an operation, and answers what becomes of it.
    pub(crate) fn operate(&mut self) -> Result<Fate, Memory>
        ensures { Operates self.old self.new result }
    {
        self.standing.go_on(self.alloc)?;
        Ok(fate_at(self.standing.operations, self.failing.view()))
    }

    /// Begins an operation that asks, whose fault comes at once.
    pub(crate) fn ask(&mut self) -> Result<(), RegFault>
        ensures { IsAsked self.old self.new result }
    {
        match self.operate()? {
            Fate::Done => Ok(()),
            Fate::Lost | Fate::Landed => Err(self.fail()),
        }
    }

    /// Counts a fault, and answers it.
    pub(crate) fn fail(&mut self) -> RegFault
        ensures counted { HasFailed self.old self.new }
        ensures value { result ≡ RegFault.Failed }
    {
        self.faults = self.faults.saturating_add(1);
        RegFault::Failed
    }

    /// What becomes of the operation of this number.
    pub(crate) fn fate_at(&self, number: u64) -> Fate
        ensures { result ≡ fate_at number self.now.plan.failing }
    {
        fate_at(number, self.failing.view())
    }

    /// A copy of the manifest that a reference leads to.
    pub(crate) fn fetch(
        &self,
        repo: &Name,
        reference: &Reference,
    ) -> Result<Option<Fetched>, RegFault>
        ensures { GivesManifest (fetch_at self.now.content repo.now reference.now) result }
    {
        self.standing.held.fetch(self.alloc, repo, reference)
    }

    /// Puts a manifest under a reference.
    pub(crate) fn store_manifest(
        &mut self,
        repo: &Name,
        reference: &Reference,
        media: &[u8],
        bytes: &[u8],
    ) -> Result<(), Memory>
        ensures { StoresManifest repo.now reference.now media.now bytes.now
            self.old self.new result }
    {
        let manifest = Fetched {
            media: Bytes::of(self.alloc, media)?,
            bytes: Bytes::of(self.alloc, bytes)?,
        };
        let stored = self
            .standing
            .held
            .put(self.alloc, repo, reference, manifest);
        self.trace = self.trace.then(&self.standing);
        stored
    }

    /// Closes the blob that is open to be read.
    pub(crate) fn close(&mut self)
        ensures { self.new ≡ record self.old { reading = None } }
    {
        self.reading = None;
    }

    /// Opens a blob to be read, and answers whether it is there.
    pub(crate) fn open(&mut self, repo: &Name, digest: &Digest) -> Result<bool, Memory>
        ensures { Opens repo.now digest.now self.old self.new result }
    {
        self.reading = None;
        let Some(blob) = self.standing.held.blob(repo, digest) else {
            return Ok(false);
        };
        self.reading = Some(Reading::of(blob.share()?));
        Ok(true)
    }

    /// Reads from the open blob.
    pub(crate) fn read(&mut self, buf: &mut [u8]) -> usize
        requires { IsSome self.old.reading }
        ensures { ReadsOn buf.new result self.old self.new }
    {
        let Some(mut reading) = self.reading.take() else {
            unreachable!()
        };
        let count = reading.read(buf);
        self.reading = Some(reading);
        count
    }

    /// Drops what is being written.
    pub(crate) fn drop_writing(&mut self)
        ensures { self.new ≡ record self.old { writing = None } }
    {
        self.writing = None;
    }

    /// Begins to write a blob, by the newest operation.
    pub(crate) fn begin(&mut self, repo: &Name) -> Result<(), Memory>
        ensures { Begins repo.now self.old self.new result }
    {
        let repo = repo.copy(self.alloc)?;
        self.writing = Some(Begun {
            repo,
            bytes: Vec::new(self.alloc),
            broken: false,
            number: self.standing.operations,
        });
        Ok(())
    }

    /// Adds a piece to the blob that is being written.
    pub(crate) fn write(&mut self, piece: &[u8]) -> Result<(), RegFault>
        requires { IsSome self.old.writing }
        ensures { WritesOn piece.now self.old self.new result }
    {
        let Some(mut begun) = self.writing.take() else {
            unreachable!()
        };
        let added = begun.add(piece);
        self.writing = Some(begun);
        added
    }

    /// Takes out the blob that is being written.
    pub(crate) fn take_writing(&mut self) -> Begun
        requires { IsSome self.old.writing }
        ensures value { Some (writing_of result) ≡ self.old.writing }
        ensures taken { self.new ≡ record self.old { writing = None } }
    {
        match self.writing.take() {
            Some(begun) => begun,
            None => unreachable!(),
        }
    }

    /// Stores a blob under a digest.
    pub(crate) fn store_blob(
        &mut self,
        repo: &Name,
        digest: Digest,
        bytes: Vec<u8>,
    ) -> Result<(), Memory>
        ensures { StoresBlob repo.now digest bytes.items self.old self.new result }
    {
        let blob = Blob::of(self.alloc, bytes)?;
        let stored = self
            .standing
            .held
            .store_blob(self.alloc, repo, digest, blob);
        self.trace = self.trace.then(&self.standing);
        stored
    }
}
