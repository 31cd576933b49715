//! The bytes of a blob in memory, and a reading of them in pieces (OCI Distribution 1.1, "Pulling
//! blobs").
ghost use Rattle.std.specs.Prelude.{◌≡◌, ◌≤◌, ◌++◌, Some, IfOk, drop, length, take};
ghost use Rattle.hr_cause.specs.Stream.{Reads};

use hr_adapter::BLOB_LIMIT;
use hr_base::Memory;
use std::alloc::Global;
use std::marker::Model;
use std::sync::Arc;

/// The bytes of a blob, which a registry and a reading may share.
#[derive(Drop)]
pub(crate) struct Blob {
    bytes: Arc<Vec<u8>>,
}

impl Model for Blob {
    ghost use Rattle.std.specs.Arc.{arc_value};
    ghost use Rattle.hr_base.specs.Bytes.{ByteList};

    ghost Value = { ByteList };

    ghost view = { λ blob. (arc_value blob.bytes).items };
}

impl Blob {
    /// A blob of these bytes, none of which is copied.
    pub(crate) fn of(alloc: Global, bytes: Vec<u8>) -> Result<Blob, Memory>
        ensures { IfOk result (λ blob. blob ≡ bytes.items) }
    {
        Ok(Blob {
            bytes: Arc::new(alloc, bytes)?,
        })
    }

    /// The bytes, in order.
    pub(crate) fn view(&self) -> &[u8]
        ensures { result.now ≡ self.now }
    {
        self.bytes.as_slice()
    }

    /// How many bytes there are.
    pub(crate) fn len(&self) -> u64
        ensures value { result ≡ length self.now }
        ensures small { length self.now ≤ BLOB_LIMIT }
    {
        let bytes: &Vec<u8> = &self.bytes;
        bytes.len() as u64
    }

    /// The same bytes, none of which is copied.
    pub(crate) fn share(&self) -> Result<Blob, Memory>
        ensures value { IfOk result (λ blob. blob ≡ self.now) }
        ensures small { length self.now ≤ BLOB_LIMIT }
    {
        Ok(Blob {
            bytes: Arc::try_clone(&self.bytes)?,
        })
    }
}

/// A reading of a blob, which contracts see as the bytes that are left of it. The blob may be
/// replaced meanwhile.
#[derive(Drop)]
pub(crate) struct Reading {
    blob: Blob,
    at: usize,
}

impl Model for Reading {
    ghost use Rattle.std.specs.Prelude.{◌≤◌, drop, length};
    ghost use Rattle.hr_base.specs.Bytes.{ByteList};

    ghost Value = { ByteList };

    ghost view = { λ reading. drop reading.at reading.blob };

    ghost invariant = { λ reading. reading.at ≤ length reading.blob };
}

impl Reading {
    /// A reading of a whole blob.
    pub(crate) fn of(blob: Blob) -> Reading
        ensures { result ≡ blob }
    {
        Reading { blob, at: 0 }
    }

    /// Puts the next bytes at the front of the buffer, as many as fit, and answers how many.
    pub(crate) fn read(&mut self, buf: &mut [u8]) -> usize
        ensures { Reads (Some self.old) buf.new result (Some self.new) }
    {
        let left = behind(self.blob.view(), self.at);
        let count = buf.len().min(left.len());
        fill(buf, left, count);
        self.at += count;
        count
    }
}

// The bytes behind a place.
fn behind(bytes: &[u8], at: usize) -> &[u8]
    requires { at ≤ length bytes.now }
    ensures { result.now ≡ drop at bytes.now }
{
    &bytes[at..]
}

// Copies the first bytes to the front of a buffer.
fn fill(buf: &mut [u8], bytes: &[u8], count: usize)
    requires fits { count ≤ length buf.old }
    requires there { count ≤ length bytes.now }
    ensures { buf.new ≡ take count bytes.now ++ drop count buf.old }
{
    buf[..count].copy_from_slice(&bytes[..count]);
}
