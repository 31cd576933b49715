//! A sink in memory, which keeps what it was sent and fails by a list. (Our own.)
ghost use Rattle.std.specs.Prelude.{◌≡◌, ◌<◌, ◌⊎◌, Some, None, min, [], ◌++◌, length, take, IfOk, IsErr, OnErr, IfSome, IfNone};
ghost use Rattle.hr_cause.specs.Calls.{IsPlanned};
ghost use Rattle.hr_cause.specs.MemSink.{WritesTo};
ghost use Rattle.hr_cause.specs.Stream.{FailsByFault, Writes};

use crate::calls::Calls;
use crate::{Counted, Failed, Sink, Stream};
use hr_base::{List, Memory};
use std::alloc::Global;
use std::marker::Model;

/// A sink over memory, which tells what it was sent.
#[derive(Drop)]
pub struct MemSink {
    sent: Vec<u8>,
    calls: Calls,
}

impl Model for MemSink {
    ghost use Rattle.hr_cause.specs.MemSink.{SinkState};

    ghost Value = { SinkState };

    ghost view = { λ s. record {
      sent = s.sent.items;
      failing = s.calls.failing;
      calls = s.calls.calls;
      faults = s.calls.faults;
    } };
}

impl MemSink {
    /// A sink that was sent nothing. The writes whose numbers, from 1, stand in `failing` fail.
    /// Besides, a write fails that finds no memory for any byte of its piece.
    pub fn new(alloc: Global, failing: List<u64>) -> Result<MemSink, Memory>
        ensures { IfOk result (λ made. made
            ≡ record { sent = []; failing = failing; calls = 0; faults = 0 }) }
    {
        let calls = Calls::new(alloc, failing)?;
        Ok(MemSink {
            sent: Vec::new(alloc),
            calls,
        })
    }

    /// The bytes that it was sent, in order.
    pub fn into_sent(self) -> Vec<u8>
        ensures { result.items ≡ self.sent }
    {
        let MemSink { sent, calls: _ } = self;
        sent
    }

    /// The bytes that it was sent, in order.
    pub fn sent(&self) -> &[u8]
        ensures { result.now ≡ self.now.sent }
    {
        self.sent.as_slice()
    }
}

impl Counted for MemSink {
    ghost faults = { λ s. s.faults };

    fn faults(&self) -> u64 {
        self.calls.faults()
    }
}

impl Stream for MemSink {
    ghost left = { λ s. None };

    ghost sent = { λ s. Some s.sent };
}

impl Sink for MemSink {
    /// A write that doesn't fail by the list takes the whole piece. Where there is no memory for
    /// it, it takes the first byte, and where there is none for that either, it fails, which no
    /// contract can rule out; an empty piece wants none.
    fn write(&mut self, bytes: &[u8]) -> Result<usize, Failed>
        ensures exact { WritesTo self.old bytes.now result self.new }
        ensures planned { IsPlanned self.old.failing self.old.calls → IsErr result }
        ensures ok { IfOk result (λ count.
            Writes (Some self.old.sent) bytes.now count (Some self.new.sent)) }
        ensures err { OnErr result (self.new.sent ≡ self.old.sent) }
        ensures cause { FailsByFault self.old.faults self.new.faults result }
    {
        self.calls.call()?;
        match keep(&mut self.sent, bytes) {
            Some(count) => Ok(count),
            None => Err(self.calls.fault()),
        }
    }
}

// Keeps the piece where there is room for it, else its first byte.
fn keep(kept: &mut Vec<u8>, bytes: &[u8]) -> Option<usize>
    ensures some { IfNone result (0 < length bytes.now) }
    ensures taken { IfSome result (λ count.
        (count ≡ length bytes.now) ⊎ (count ≡ min 1 (length bytes.now))) }
    ensures kept { IfSome result (λ count. kept.new.items ≡ kept.old.items ++ take count bytes.now) }
    ensures none { IfNone result (kept.new.items ≡ kept.old.items) }
{
    if kept.extend_from_slice(bytes).is_ok() {
        return Some(bytes.len());
    }
    let first = bytes.first()?;
    match kept.push(*first) {
        Ok(()) => Some(1),
        Err(_) => None,
    }
}
