//! A link in memory: a source and a sink. (Our own.)
ghost use Rattle.std.specs.Prelude.{◌≡◌, ◌+◌, ◌∷◌, [], ◌++◌, Some, length, IfOk, OnErr};
ghost use Rattle.hr_cause.specs.MemSink.{WritesTo};
ghost use Rattle.hr_cause.specs.MemSource.{ReadsFrom};
ghost use Rattle.hr_cause.specs.Stream.{FailsByFault, Reads, Writes};
ghost use Rattle.hr_link.specs.MemLink.{fault_count, past_of};

use crate::PastLink;
use hr_base::{Bytes, Memory};
use hr_cause::{Counted, Failed, MemSink, MemSource, Sink, Source, Stream};
use std::alloc::Global;
use std::collections::LinkedList;

/// A link in memory, which tells what is left to come and what it was sent. The faults of both its
/// ends are one count.
#[derive(Drop)]
pub struct MemLink {
    /// Where its bytes come from.
    pub source: MemSource,
    /// Where its bytes go to.
    pub sink: MemSink,
    /// Room for what is known of it once it was given back.
    room: LinkedList<PastLink>,
    ghost has_room: { length room ≡ 1 },
}

impl MemLink {
    /// A link of these two ends.
    pub fn new(alloc: Global, source: MemSource, sink: MemSink) -> Result<MemLink, Memory>
        ensures from_source { IfOk result (λ made. made.source ≡ source) }
        ensures to_sink { IfOk result (λ made. made.sink ≡ sink) }
    {
        let mut room = LinkedList::new(alloc);
        room.push_back(PastLink {
            sent: Bytes::from(Vec::new(alloc)),
            faults: 0,
        })?;
        Ok(MemLink { source, sink, room })
    }

    /// What is known of it once it is given back, and room for that.
    pub(crate) fn into_past(self) -> (PastLink, LinkedList<PastLink>)
        ensures past { result.0 ≡ past_of self.source self.sink }
        ensures room { length result.1 ≡ 1 }
    {
        let faults = self.faults();
        let MemLink {
            source: _,
            sink,
            room,
        } = self;
        let past = PastLink {
            sent: Bytes::from(sink.into_sent()),
            faults,
        };
        (past, room)
    }
}

impl Counted for MemLink {
    ghost use Rattle.hr_link.specs.MemLink.{fault_count};

    ghost faults = { λ l. fault_count l.source l.sink };

    fn faults(&self) -> u64 {
        self.source.faults().saturating_add(self.sink.faults())
    }
}

impl Stream for MemLink {
    ghost use Rattle.std.specs.Prelude.{Some};

    ghost left = { λ l. Some l.source.left };

    ghost sent = { λ l. Some l.sink.sent };
}

impl Source for MemLink {
    fn read(&mut self, buf: &mut [u8]) -> Result<usize, Failed>
        ensures exact { ReadsFrom self.old.source buf.old result buf.new self.new.source }
        ensures ok { IfOk result (λ count.
            Reads (Some self.old.source.left) buf.new count (Some self.new.source.left)) }
        ensures err { OnErr result (self.new.source.left ≡ self.old.source.left) }
        ensures sink { self.new.sink ≡ self.old.sink }
        ensures cause { FailsByFault (fault_count self.old.source self.old.sink)
            (fault_count self.new.source self.new.sink) result }
    {
        self.source.read(buf)
    }
}

impl Sink for MemLink {
    fn write(&mut self, bytes: &[u8]) -> Result<usize, Failed>
        ensures exact { WritesTo self.old.sink bytes.now result self.new.sink }
        ensures ok { IfOk result (λ count.
            Writes (Some self.old.sink.sent) bytes.now count (Some self.new.sink.sent)) }
        ensures err { OnErr result (self.new.sink.sent ≡ self.old.sink.sent) }
        ensures source { self.new.source ≡ self.old.source }
        ensures cause { FailsByFault (fault_count self.old.source self.old.sink)
            (fault_count self.new.source self.new.sink) result }
    {
        self.sink.write(bytes)
    }
}
