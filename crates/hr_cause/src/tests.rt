use crate::{Counted, Failed, MemSink, MemSource, Sink, Source, StdSink, StdSource, send};
use hr_base::{Bytes, List};
use std::alloc::Global;
use std::io;
use std::io::{ErrorKind, Read, Write};
use std::test::Fail;

fn numbers(alloc: Global, items: &[u64]) -> Result<List<u64>, Fail> {
    Ok(List::from(items.to_vec(alloc)?))
}

// One read by a buffer of four bytes: the bytes that it gave.
fn read_of<S: Source>(alloc: Global, source: &mut S) -> Result<Result<Vec<u8>, Failed>, Fail> {
    let mut buf = [0; 4];
    match source.read(&mut buf) {
        Ok(count) => Ok(Ok(buf[..count].to_vec(alloc)?)),
        Err(failed) => Ok(Err(failed)),
    }
}

fn write_of<K: Sink>(sink: &mut K, bytes: &[u8]) -> Result<usize, Failed> {
    sink.write(bytes)
}

fn handed_over<T: Send + Drop>(_device: T) {}

#[test]
fn a_source_in_memory_gives_its_pieces_and_fails_by_its_list(rt: HostRuntime) -> Result<(), Fail> {
    let alloc = rt.alloc();
    let bytes = Bytes::of(alloc, b"abcdefgh")?;
    let pieces = numbers(alloc, &[3, 0, 9, 1])?;
    let failing = numbers(alloc, &[7, 2, 2])?;
    let mut source = MemSource::new(alloc, bytes, pieces, failing)?;
    let wanted: [(Result<&[u8], Failed>, u64); 8] = [
        (Ok(b"abc"), 0),
        (Err(Failed), 1),
        (Ok(b"d"), 1),
        (Ok(b"efgh"), 1),
        (Ok(b""), 1),
        (Ok(b""), 1),
        (Err(Failed), 2),
        (Ok(b""), 2),
    ];
    for (at, (answer, faults)) in wanted.iter().enumerate() {
        let given = read_of(alloc, &mut source)?;
        assert_eq!(rt; given.is_ok(), answer.is_ok(), "read {at}");
        if let (Ok(given), Ok(bytes)) = (&given, answer) {
            assert_eq!(rt; given.as_slice(), *bytes, "read {at}");
        }
        assert_eq!(rt; source.faults(), *faults, "read {at}");
    }
    handed_over(source);
    Ok(())
}

#[test]
fn a_read_after_the_last_piece_gives_all_that_fits(rt: HostRuntime) -> Result<(), Fail> {
    let alloc = rt.alloc();
    let bytes = Bytes::of(alloc, b"abcdefg")?;
    let mut source = MemSource::new(alloc, bytes, numbers(alloc, &[])?, numbers(alloc, &[])?)?;
    for wanted in ["abcd", "efg", ""] {
        let given = read_of(alloc, &mut source)?.ok().ok_or("a fault")?;
        assert_eq!(rt; given.as_slice(), wanted.as_bytes());
    }
    Ok(())
}

#[test]
fn a_sink_in_memory_takes_whole_pieces_and_fails_by_its_list(rt: HostRuntime) -> Result<(), Fail> {
    let alloc = rt.alloc();
    let mut sink = MemSink::new(alloc, numbers(alloc, &[3, 5])?)?;
    let wanted = [
        ("ab", Ok(2), 0),
        ("", Ok(0), 0),
        ("cd", Err(Failed), 1),
        ("efg", Ok(3), 1),
        ("h", Err(Failed), 2),
        ("i", Ok(1), 2),
    ];
    for (piece, answer, faults) in wanted {
        assert_eq!(rt; write_of(&mut sink, piece.as_bytes()), answer, "{piece}");
        assert_eq!(rt; sink.faults(), faults, "{piece}");
    }
    assert_eq!(rt; sink.sent(), b"abefgi".as_slice());
    assert_eq!(rt; send(&mut sink, b"jk"), Ok(()));
    assert_eq!(rt; sink.into_sent().as_slice(), b"abefgijk".as_slice());
    handed_over(MemSink::new(alloc, numbers(alloc, &[])?)?);
    Ok(())
}

// What goes wrong at each call: nothing, an error, no byte taken, a flush that fails, a short call.
#[derive(Drop)]
struct Fake {
    calls: u8,
}

impl Read for Fake {
    fn read(&mut self, buf: &mut [u8]) -> io::Result<usize> {
        self.calls = self.calls.saturating_add(1);
        if self.calls == 2 {
            return Err(io::Error::from(ErrorKind::Other));
        }
        if buf.is_empty() || self.calls > 3 {
            return Ok(0);
        }
        buf[0] = self.calls;
        Ok(1)
    }
}

impl Write for Fake {
    fn write(&mut self, bytes: &[u8]) -> io::Result<usize> {
        self.calls = self.calls.saturating_add(1);
        match self.calls {
            2 => Err(io::Error::from(ErrorKind::Other)),
            3 => Ok(0),
            5 => Ok(bytes.len().min(1)),
            _ => Ok(bytes.len()),
        }
    }

    fn flush(&mut self) -> io::Result<()> {
        match self.calls {
            4 => Err(io::Error::from(ErrorKind::Other)),
            _ => Ok(()),
        }
    }
}

#[test]
fn an_error_of_a_reader_is_one_fault(rt: HostRuntime) -> Result<(), Fail> {
    let alloc = rt.alloc();
    let mut source = StdSource::new(Fake { calls: 0 });
    assert_eq!(rt;
        read_of(alloc, &mut source)?
            .ok()
            .ok_or("read 1")?
            .as_slice(),
        [1].as_slice()
    );
    assert!(rt; read_of(alloc, &mut source)?.is_err());
    assert_eq!(rt; source.faults(), 1);
    assert_eq!(rt;
        read_of(alloc, &mut source)?
            .ok()
            .ok_or("read 3")?
            .as_slice(),
        [3].as_slice()
    );
    assert_eq!(rt;
        read_of(alloc, &mut source)?
            .ok()
            .ok_or("read 4")?
            .as_slice(),
        [].as_slice()
    );
    assert_eq!(rt; source.faults(), 1);
    handed_over(source);
    Ok(())
}

#[test]
fn each_failure_of_a_writer_is_one_fault(rt: HostRuntime) {
    let mut sink = StdSink::new(Fake { calls: 0 });
    let wanted = [
        (Ok(2), 0),
        (Err(Failed), 1),
        (Err(Failed), 2),
        (Err(Failed), 3),
        (Ok(1), 3),
        (Ok(2), 3),
    ];
    for (answer, faults) in wanted {
        assert_eq!(rt; write_of(&mut sink, b"ab"), answer);
        assert_eq!(rt; sink.faults(), faults);
    }
    handed_over(sink);
}

#[test]
fn the_standard_streams_answer(rt: HostRuntime) {
    let mut input = StdSource::new(rt.stdin());
    let mut output = StdSink::new(rt.stdout());
    assert_eq!(rt; input.read(&mut []), Ok(0));
    assert_eq!(rt; write_of(&mut output, b""), Ok(0));
    assert_eq!(rt; write_of(&mut output, b"harborrep\n"), Ok(10));
    assert_eq!(rt; input.faults(), 0);
    assert_eq!(rt; output.faults(), 0);
}
