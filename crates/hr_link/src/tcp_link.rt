//! A connection over TCP as a link, which tells nothing of its bytes. (Our own.)
ghost use Rattle.std.specs.Prelude.{◌≡◌, ◌≤◌, ◌<◌, [], None, length, take, IfOk, IfSome, OnErr};
ghost use Rattle.std.specs.Io.Buffered.{reader_buffer, reader_capacity, reader_inner, reader_remaining};
ghost use Rattle.std.specs.Io.KnownBytes.{Appends, ReadConsumes};
ghost use Rattle.hr_cause.specs.Calls.{counted};
ghost use Rattle.hr_cause.specs.Stream.{FailsByFault, Reads, Writes};

use crate::fault::count_fault;
use hr_base::Memory;
use hr_cause::{Counted, Failed, Sink, Source, Stream};
use std::alloc::Global;
use std::io::{BufReader, Read, Write};
use std::marker::Model;

/// A connection as a link, which tells nothing. Its bytes are read through a buffer of 8,192, so
/// that a reader may take them one by one.
#[derive(Drop)]
pub struct TcpLink<S> {
    stream: BufReader<S>,
    faults: u64,
}

impl<S> Model for TcpLink<S> {
    ghost use Rattle.std.specs.declared.io.BufReader.{BufReader};
    ghost use Rattle.std.specs.Global.{Global};
    ghost use Rattle.hr_cause.specs.Edges.{Edge};

    ghost Value = { Edge (BufReader S Global) };

    ghost view = { λ l. record { device = l.stream; faults = l.faults } };
}

impl<S: Read + Drop> TcpLink<S> {
    /// A link over a connection, which is closed where there is no room for the buffer.
    pub fn new(alloc: Global, stream: S) -> Result<TcpLink<S>, Memory>
        ensures over { IfOk result (λ made. reader_inner made.device ≡ stream) }
        ensures unread { IfOk result (λ made. reader_buffer made.device ≡ []) }
        ensures capacity { IfOk result (λ made. reader_capacity made.device ≡ 8192) }
        ensures calm { IfOk result (λ made. made.faults ≡ 0) }
    {
        match BufReader::new(alloc, stream) {
            Ok(stream) => Ok(TcpLink { stream, faults: 0 }),
            Err(_) => Err(Memory),
        }
    }
}

impl<S: Read + Write + Drop> Counted for TcpLink<S> {
    ghost faults = { λ l. l.faults };

    fn faults(&self) -> u64 {
        self.faults
    }
}

impl<S: Read + Write + Drop> Stream for TcpLink<S> {
    ghost left = { λ _. None };

    ghost sent = { λ _. None };
}

impl<S: Read + Write + Drop> Source for TcpLink<S> {
    /// At most one read of the connection, each of whose errors is a fault.
    fn read(&mut self, buf: &mut [u8]) -> Result<usize, Failed>
        ensures passed_on { ReadConsumes (reader_remaining S.remaining self.old.device)
            (reader_remaining S.remaining self.new.device) result buf.new }
        ensures ok { IfOk result (λ count. Reads None buf.new count None) }
        ensures counted { OnErr result (self.new.faults ≡ counted self.old.faults) }
        ensures cause { FailsByFault self.old.faults self.new.faults result }
    {
        if buf.is_empty() {
            return Ok(0);
        }
        match self.stream.read(buf) {
            Ok(count) => Ok(count),
            Err(_) => Err(count_fault(&mut self.faults)),
        }
    }
}

impl<S: Read + Write + Drop> Sink for TcpLink<S> {
    /// One write to the connection, each of whose errors is a fault, as where the other end has
    /// gone away, and so is a write that takes no byte of a piece that isn't empty.
    fn write(&mut self, bytes: &[u8]) -> Result<usize, Failed>
        ensures passed_on { IfOk result (λ count.
            Appends (S.contents (reader_inner self.old.device))
            (S.contents (reader_inner self.new.device)) (take count bytes.now)) }
        ensures ok { IfOk result (λ count. Writes None bytes.now count None) }
        ensures counted { OnErr result (self.new.faults ≡ counted self.old.faults) }
        ensures cause { FailsByFault self.old.faults self.new.faults result }
    {
        match put(self.stream.get_mut(), bytes) {
            Some(count) => Ok(count),
            None => Err(count_fault(&mut self.faults)),
        }
    }
}

// Writes once, and answers how many bytes went out.
fn put<W: Write>(output: &mut W, bytes: &[u8]) -> Option<usize>
    ensures within { IfSome result (λ count. count ≤ length bytes.now) }
    ensures some { IfSome result (λ count. 0 < length bytes.now → 0 < count) }
    ensures passed_on { IfSome result (λ count. Appends (W.contents output.old) (W.contents output.new)
        (take count bytes.now)) }
{
    let count = output.write(bytes).ok()?;
    if count == 0 && !bytes.is_empty() {
        return None;
    }
    Some(count)
}
