//! The standard input and output as devices, which tell nothing of their bytes. (Our own.)
ghost use Rattle.std.specs.Prelude.{◌≡◌, ◌≤◌, ◌<◌, length, take, None, IfSome, IfOk, OnErr};
ghost use Rattle.std.specs.Io.KnownBytes.{Appends, ReadConsumes};
ghost use Rattle.hr_cause.specs.Calls.{counted};
ghost use Rattle.hr_cause.specs.Stream.{FailsByFault, Reads, Writes};

use crate::calls::fault;
use crate::{Counted, Failed, Sink, Source, Stream};
use std::io::{Read, Write};
use std::marker::Model;

/// A reader, such as the standard input, as a source:
///
/// ```text
/// fn main(rt: HostRuntime) {
///     let mut input = StdSource::new(rt.stdin());
/// }
/// ```
#[derive(Drop)]
pub struct StdSource<R> {
    input: R,
    faults: u64,
}

impl<R> Model for StdSource<R> {
    ghost use Rattle.hr_cause.specs.Edges.{Edge};

    ghost Value = { Edge R };

    ghost view = { λ s. record { device = s.input; faults = s.faults } };
}

impl<R> StdSource<R> {
    /// A source that hasn't failed yet.
    pub fn new(input: R) -> StdSource<R>
        ensures { result ≡ record { device = input; faults = 0 } }
    {
        StdSource { input, faults: 0 }
    }
}

impl<R: Read + Drop> Counted for StdSource<R> {
    ghost faults = { λ s. s.faults };

    fn faults(&self) -> u64 {
        self.faults
    }
}

impl<R: Read + Drop> Stream for StdSource<R> {
    ghost left = { λ s. None };

    ghost sent = { λ s. None };
}

impl<R: Read + Drop> Source for StdSource<R> {
    /// One read of the reader. Each of its errors is a fault.
    fn read(&mut self, buf: &mut [u8]) -> Result<usize, Failed>
        ensures passed_on { ReadConsumes (R.remaining self.old.device) (R.remaining self.new.device)
            result buf.new }
        ensures ok { IfOk result (λ count. Reads None buf.new count None) }
        ensures counted { OnErr result (self.new.faults ≡ counted self.old.faults) }
        ensures cause { FailsByFault self.old.faults self.new.faults result }
    {
        match self.input.read(buf) {
            Ok(count) => Ok(count),
            Err(_) => Err(fault(&mut self.faults)),
        }
    }
}

/// A writer, such as the standard output, as a sink. What is answered as written has been flushed:
///
/// ```text
/// fn main(rt: HostRuntime) {
///     let mut output = StdSink::new(rt.stdout());
/// }
/// ```
#[derive(Drop)]
pub struct StdSink<W> {
    output: W,
    faults: u64,
}

impl<W> Model for StdSink<W> {
    ghost use Rattle.hr_cause.specs.Edges.{Edge};

    ghost Value = { Edge W };

    ghost view = { λ s. record { device = s.output; faults = s.faults } };
}

impl<W> StdSink<W> {
    /// A sink that hasn't failed yet.
    pub fn new(output: W) -> StdSink<W>
        ensures { result ≡ record { device = output; faults = 0 } }
    {
        StdSink { output, faults: 0 }
    }
}

impl<W: Write + Drop> Counted for StdSink<W> {
    ghost faults = { λ s. s.faults };

    fn faults(&self) -> u64 {
        self.faults
    }
}

impl<W: Write + Drop> Stream for StdSink<W> {
    ghost left = { λ s. None };

    ghost sent = { λ s. None };
}

impl<W: Write + Drop> Sink for StdSink<W> {
    /// One write and one flush of the writer. Each of their errors is a fault, and so is a write
    /// that takes no byte of a piece that isn't empty. After a flush that failed, the bytes may
    /// have gone out or not.
    fn write(&mut self, bytes: &[u8]) -> Result<usize, Failed>
        ensures passed_on { IfOk result (λ count.
            Appends (W.contents self.old.device) (W.contents self.new.device) (take count bytes.now)) }
        ensures ok { IfOk result (λ count. Writes None bytes.now count None) }
        ensures counted { OnErr result (self.new.faults ≡ counted self.old.faults) }
        ensures cause { FailsByFault self.old.faults self.new.faults result }
    {
        match put(&mut self.output, bytes) {
            Some(count) => Ok(count),
            None => Err(fault(&mut self.faults)),
        }
    }
}

// Writes and flushes once, and answers how many bytes went out.
fn put<W: Write>(output: &mut W, bytes: &[u8]) -> Option<usize>
    ensures within { IfSome result (λ count. count ≤ length bytes.now) }
    ensures some { IfSome result (λ count. 0 < length bytes.now → 0 < count) }
    ensures passed_on { IfSome result (λ count. Appends (W.contents output.old) (W.contents output.new)
        (take count bytes.now)) }
{
    let count = output.write(bytes).ok()?;
    if count == 0 && !bytes.is_empty() {
        return None;
    }
    output.flush().ok()?;
    Some(count)
}
