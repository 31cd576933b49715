//! A registry that tells nothing: it fails where it was told, gives its blob in pieces of odd sizes,
//! and holds what was written last. The contract of a connection asks no more. (Our own, for tests.)
ghost use Rattle.std.specs.Prelude.{◌≡◌, ◌≤◌, OnErr, OnOk, Some, None, [], true, false, length, drop, take, ◌++◌, option_map};
ghost use Rattle.hr_cause.specs.Stream.{Reads, Rose};
ghost use Rattle.hr_adapter.specs.Silent.{untold};

use crate::{BLOB_LIMIT, RegFault, Registry, TagNow, Tagged};
use hr_base::{Bytes, List, MANIFEST_LIMIT, Memory};
use hr_digest::Digest;
use hr_event::{Fetched, Reference};
use hr_name::Name;
use std::alloc::Global;

/// A registry that tells nothing. It keeps no manifest and no tag, and of blobs the one that was
/// written last, which then stands in every repository.
#[derive(Drop)]
pub struct Silent {
    alloc: Global,
    calls: Calls,
    held: Option<Held>,
    reading: Option<Opened>,
    writing: Option<Pending>,
}

// How many calls there were, which of them fail, by their numbers from 1, and how many did.
#[derive(Drop)]
struct Calls {
    failing: List<u64>,
    calls: u64,
    faults: u64,
}

// A blob with its digest.
#[derive(Drop)]
struct Held {
    digest: Digest,
    bytes: Bytes,
}

// A blob that is being read: its bytes, how many were given, and how many the last piece had room
// for.
#[derive(Drop)]
struct Opened {
    bytes: Bytes,
    at: usize,
    piece: usize,
    ghost within: { at ≤ length bytes },
}

// A blob that is being written.
#[derive(Drop)]
struct Pending {
    repo: Name,
    bytes: Vec<u8>,
    broken: bool,
}

impl Silent {
    /// A registry that holds nothing, and whose calls of these numbers, from 1, fail. Each call but
    /// `shown` and `count` is one. Pieces of a blob have 1, 2, 3 and more bytes.
    pub fn new(alloc: Global, failing: List<u64>) -> Silent
        ensures { ⟦<Silent as Registry>⟧.seen result ≡ untold }
    {
        Silent {
            alloc,
            calls: Calls {
                failing,
                calls: 0,
                faults: 0,
            },
            held: None,
            reading: None,
            writing: None,
        }
    }
}

impl Calls {
    // One call more: it fails where its number is one of those.
    fn call(&mut self) -> Result<(), RegFault>
        ensures ok { OnOk result (self.new.faults ≡ self.old.faults) }
        ensures err { OnErr result (Rose self.old.faults self.new.faults) }
        ensures only { OnErr result (result ≡ Err RegFault.Failed) }
        ensures later { self.old.faults ≤ self.new.faults }
    {
        self.calls = self.calls.saturating_add(1);
        if !self.failing.view().contains(&self.calls) {
            return Ok(());
        }
        self.faults = self.faults.saturating_add(1);
        Err(RegFault::Failed)
    }
}

impl Held {
    // The blob, to be read from its start.
    fn opened(&self, alloc: Global) -> Result<Opened, Memory> {
        Ok(Opened {
            bytes: self.bytes.copy(alloc)?,
            at: 0,
            piece: 0,
        })
    }
}

impl Opened {
    // Puts the next piece, which has room for one byte more than the last, at the front of a buffer.
    fn give(&mut self, buf: &mut [u8]) -> usize
        ensures { Reads (Some (drop self.old.at self.old.bytes)) buf.new result
            (Some (drop self.new.at self.new.bytes)) }
    {
        let left = behind(self.bytes.view(), self.at);
        let piece = self.piece.saturating_add(1);
        let count = piece.min(buf.len()).min(left.len());
        fill(buf, left, count);
        self.at += count;
        self.piece = piece;
        count
    }
}

fn behind(bytes: &[u8], at: usize) -> &[u8]
    requires { at ≤ length bytes.now }
    ensures { result.now ≡ drop at bytes.now }
{
    &bytes[at..]
}

fn fill(buf: &mut [u8], bytes: &[u8], count: usize)
    requires fits { count ≤ length buf.old }
    requires there { count ≤ length bytes.now }
    ensures { buf.new ≡ take count bytes.now ++ drop count buf.old }
{
    buf[..count].copy_from_slice(&bytes[..count]);
}

impl Pending {
    // Adds a piece.
    fn add(&mut self, piece: &[u8]) -> Result<(), RegFault>
        ensures repo { self.new.repo ≡ self.old.repo }
        ensures ok { OnOk result (self.new.bytes.items ≡ self.old.bytes.items ++ piece.now) }
        ensures whole { OnOk result (self.new.broken ≡ self.old.broken) }
        ensures err { OnErr result (self.new.bytes.items ≡ self.old.bytes.items) }
        ensures broken { OnErr result (self.new.broken ≡ true) }
        ensures only { OnErr result (result ≡ Err RegFault.Memory) }
    {
        match self.bytes.extend_from_slice(piece) {
            Ok(()) => Ok(()),
            Err(_) => {
                self.broken = true;
                Err(RegFault::Memory)
            }
        }
    }
}

impl Registry for Silent {
    ghost seen = { λ silent. record {
      told = None;
      coming = None;
      ever = [];
      faults = silent.calls.faults;
      quiet = false;
      sure = false;
      plan = None;
      reading = option_map (λ opened. None) silent.reading;
      writing = option_map (λ pending. record {
        repo = pending.repo;
        bytes = pending.bytes.items;
        broken = pending.broken;
        operation = None;
      }) silent.writing;
    } };

    fn repos(&mut self) -> Result<List<Name>, RegFault> {
        self.calls.call()?;
        Ok(List::new(self.alloc))
    }

    fn tags(&mut self, _repo: &Name) -> Result<List<Tagged>, RegFault> {
        self.calls.call()?;
        Ok(List::new(self.alloc))
    }

    fn head(&mut self, _repo: &Name, _reference: &Reference) -> Result<Option<Digest>, RegFault> {
        self.calls.call()?;
        Ok(None)
    }

    fn manifest(
        &mut self,
        _repo: &Name,
        _reference: &Reference,
    ) -> Result<Option<Fetched>, RegFault> {
        self.calls.call()?;
        Ok(None)
    }

    fn put_manifest(
        &mut self,
        _repo: &Name,
        _reference: &Reference,
        _media: &[u8],
        bytes: &[u8],
    ) -> Result<(), RegFault> {
        self.calls.call()?;
        let len = bytes.len() as u64;
        if len > MANIFEST_LIMIT {
            return Err(RegFault::TooLong { len });
        }
        Ok(())
    }

    fn has_blob(&mut self, _repo: &Name, digest: &Digest) -> Result<Option<u64>, RegFault> {
        self.calls.call()?;
        let Some(held) = &self.held else {
            return Ok(None);
        };
        let len = held.bytes.view().len() as u64;
        if len > BLOB_LIMIT {
            return Err(RegFault::TooLong { len });
        }
        Ok((held.digest == *digest).then_some(len))
    }

    fn open_blob(&mut self, _repo: &Name, digest: &Digest) -> Result<bool, RegFault> {
        self.reading = None;
        self.calls.call()?;
        let Some(held) = &self.held else {
            return Ok(false);
        };
        if held.digest != *digest {
            return Ok(false);
        }
        self.reading = Some(held.opened(self.alloc)?);
        Ok(true)
    }

    fn read_blob(&mut self, buf: &mut [u8]) -> Result<usize, RegFault> {
        let Some(mut opened) = self.reading.take() else {
            unreachable!()
        };
        self.calls.call()?;
        let count = opened.give(buf);
        self.reading = Some(opened);
        Ok(count)
    }

    fn begin_put(&mut self, repo: &Name) -> Result<(), RegFault> {
        self.writing = None;
        self.calls.call()?;
        let repo = repo.copy(self.alloc)?;
        self.writing = Some(Pending {
            repo,
            bytes: Vec::new(self.alloc),
            broken: false,
        });
        Ok(())
    }

    fn write_put(&mut self, bytes: &[u8]) -> Result<(), RegFault> {
        let Some(mut pending) = self.writing.take() else {
            unreachable!()
        };
        if let Err(why) = self.calls.call() {
            pending.broken = true;
            self.writing = Some(pending);
            return Err(why);
        }
        let added = pending.add(bytes);
        self.writing = Some(pending);
        added
    }

    fn end_put(&mut self, digest: &Digest) -> Result<(), RegFault> {
        let Some(pending) = self.writing.take() else {
            unreachable!()
        };
        self.calls.call()?;
        let Pending {
            repo: _,
            bytes,
            broken: _,
        } = pending;
        self.held = Some(Held {
            digest: *digest,
            bytes: Bytes::from(bytes),
        });
        Ok(())
    }

    fn shown(&self) -> Result<List<TagNow>, Memory> {
        Ok(List::new(self.alloc))
    }

    fn count(&self) -> u64 {
        self.calls.faults
    }
}
