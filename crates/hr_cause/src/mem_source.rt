//! A source in memory, which gives its bytes in pieces and fails by a list. (Our own.)
ghost use Rattle.std.specs.Prelude.{◌≡◌, ◌≤◌, Some, None, length, ◌++◌, take, drop, IfOk, OnErr};
ghost use Rattle.hr_cause.specs.MemSource.{let_through, ReadsFrom};
ghost use Rattle.hr_cause.specs.Stream.{FailsByFault, Reads};

use crate::calls::Calls;
use crate::{Counted, Failed, Source, Stream};
use hr_base::{Bytes, List, Memory};
use std::alloc::Global;
use std::marker::Model;

/// A source over bytes in memory, which tells what is left.
#[derive(Drop)]
pub struct MemSource {
    bytes: Bytes,
    at: usize,
    pieces: List<u64>,
    piece: usize,
    calls: Calls,
}

impl Model for MemSource {
    ghost use Rattle.std.specs.Prelude.{◌≤◌, length, drop};
    ghost use Rattle.hr_cause.specs.MemSource.{SourceState};

    ghost Value = { SourceState };

    ghost view = { λ s. record {
      left = drop s.at s.bytes;
      pieces = drop s.piece s.pieces;
      failing = s.calls.failing;
      calls = s.calls.calls;
      faults = s.calls.faults;
    } };

    ghost invariant = { λ s. (s.at ≤ length s.bytes) × (s.piece ≤ length s.pieces) };
}

impl MemSource {
    /// A source of these bytes, which gives at most `pieces[k]` bytes at its read `k + 1` that
    /// doesn't fail, where 0 counts as 1, and all that fits after the last piece. Exactly the reads
    /// whose numbers, from 1, stand in `failing` fail.
    pub fn new(
        alloc: Global,
        bytes: Bytes,
        pieces: List<u64>,
        failing: List<u64>,
    ) -> Result<MemSource, Memory>
        ensures { IfOk result (λ made. made
            ≡ record { left = bytes; pieces = pieces; failing = failing; calls = 0; faults = 0 }) }
    {
        let calls = Calls::new(alloc, failing)?;
        Ok(MemSource {
            bytes,
            at: 0,
            pieces,
            piece: 0,
            calls,
        })
    }
}

impl Counted for MemSource {
    ghost faults = { λ s. s.faults };

    fn faults(&self) -> u64 {
        self.calls.faults()
    }
}

impl Stream for MemSource {
    ghost left = { λ s. Some s.left };

    ghost sent = { λ s. None };
}

impl Source for MemSource {
    /// Where a read fails, the buffer stays too.
    fn read(&mut self, buf: &mut [u8]) -> Result<usize, Failed>
        ensures exact { ReadsFrom self.old buf.old result buf.new self.new }
        ensures ok { IfOk result (λ count.
            Reads (Some self.old.left) buf.new count (Some self.new.left)) }
        ensures err { OnErr result (self.new.left ≡ self.old.left) }
        ensures cause { FailsByFault self.old.faults self.new.faults result }
    {
        self.calls.call()?;
        let left = behind(self.bytes.view(), self.at);
        let (count, piece) = next_piece(self.pieces.view(), self.piece, buf.len().min(left.len()));
        fill(buf, left, count);
        self.at += count;
        self.piece = piece;
        Ok(count)
    }
}

fn behind(bytes: &[u8], at: usize) -> &[u8]
    requires { at ≤ length bytes.now }
    ensures { result.now ≡ drop at bytes.now }
{
    &bytes[at..]
}

fn fill(buf: &mut [u8], bytes: &[u8], count: usize)
    requires fits { count ≤ length buf.old }
    requires there { count ≤ length bytes.now }
    ensures { buf.new ≡ take count bytes.now ++ drop count buf.old }
{
    buf[..count].copy_from_slice(&bytes[..count]);
}

// As much of a length as the piece at a place lets through, and the place of the piece after it.
fn next_piece(pieces: &[u64], at: usize, len: usize) -> (usize, usize)
    requires { at ≤ length pieces.now }
    ensures count { result.0 ≡ let_through (drop at pieces.now) len }
    ensures at_most { result.0 ≤ len }
    ensures within { result.1 ≤ length pieces.now }
    ensures after { drop result.1 pieces.now ≡ drop 1 (drop at pieces.now) }
{
    if at < pieces.len() {
        ((pieces[at].max(1) as usize).min(len), at + 1)
    } else {
        (len, at)
    }
}
