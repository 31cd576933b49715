ghost use Rattle.std.specs.Prelude.{◌≤◌, length};

use crate::{
    Dial, DialFault, Door, MemDial, MemDoor, MemLink, PastLink, TcpDial, TcpDoor, TcpLink,
};
use hr_base::{Bytes, List};
use hr_cause::{Counted, Failed, MemSink, MemSource, Sink, Source, send};
use std::alloc::Global;
use std::collections::LinkedList;
use std::io;
use std::io::{ErrorKind, Read, Write};
use std::test::Fail;

fn texts(alloc: Global, items: &[&str]) -> Result<List<Bytes>, Fail> {
    let mut made = List::new(alloc);
    for item in items {
        made.push(Bytes::of(alloc, item.as_bytes())?)?;
    }
    Ok(made)
}

fn numbers(alloc: Global, items: &[u64]) -> Result<List<u64>, Fail> {
    Ok(List::from(items.to_vec(alloc)?))
}

// Reads once, into four bytes, and sends back what came.
fn echo<L: Source + Sink>(link: &mut L, buf: &mut [u8]) -> Result<usize, Failed> {
    let count = link.read(buf)?;
    send(link, &buf[..count])?;
    Ok(count)
}

// A call, whose link is echoed and given back.
fn called<D: Dial>(dial: &mut D, buf: &mut [u8]) -> Result<usize, DialFault> {
    let mut link = dial.dial(b"localhost", 80)?;
    let count = echo(&mut link, buf)?;
    dial.hang_up(link);
    Ok(count)
}

// Whether these links were given back: what each was sent, and how often it had failed.
fn were_given_back(links: &LinkedList<PastLink>, wanted: &[(&str, u64)]) -> bool {
    let mut left = wanted.iter();
    for link in links.iter() {
        match left.next() {
            Some((sent, faults)) if link.sent.view() == sent.as_bytes() && link.faults == *faults =>
                {}
            _ => return false,
        }
    }
    left.next().is_none()
}

fn handed_over<T: Send + Drop>(_device: T) {}

#[test]
fn a_dial_in_memory_gives_its_replies_in_turn_and_fails_by_its_list(
    rt: HostRuntime,
) -> Result<(), Fail> {
    let alloc = rt.alloc();
    let replies = texts(alloc, &["ab", "c", "defgh"])?;
    let mut dial = MemDial::new(alloc, replies, numbers(alloc, &[6, 2])?)?;
    for (call, answer, faults) in [
        (1, Ok(2), 0),
        (2, Err(DialFault::Failed), 1),
        (3, Ok(1), 1),
        (4, Ok(4), 1),
        (5, Ok(0), 1),
        (6, Err(DialFault::Failed), 2),
        (7, Ok(0), 2),
    ] {
        assert_eq!(rt; called(&mut dial, &mut [0; 4]), answer, "call {call}");
        assert_eq!(rt; dial.faults(), faults, "call {call}");
    }
    let wanted = [("ab", 0), ("c", 0), ("defg", 0), ("", 0), ("", 0)];
    assert!(rt; were_given_back(dial.given_back(), &wanted));
    handed_over(dial);
    Ok(())
}

#[test]
fn a_fork_goes_on_from_where_the_dial_was(rt: HostRuntime) -> Result<(), Fail> {
    let alloc = rt.alloc();
    let replies = texts(alloc, &["ab", "c"])?;
    let mut dial = MemDial::new(alloc, replies, numbers(alloc, &[2, 4])?)?;
    assert_eq!(rt; called(&mut dial, &mut [0; 4]), Ok(2));
    assert_eq!(rt; called(&mut dial, &mut [0; 4]), Err(DialFault::Failed));
    let mut other = dial.fork()?;
    assert_eq!(rt; (dial.faults(), other.faults()), (1, 0));
    for answer in [Ok(1), Err(DialFault::Failed)] {
        assert_eq!(rt; called(&mut dial, &mut [0; 4]), answer);
        assert_eq!(rt; called(&mut other, &mut [0; 4]), answer);
    }
    assert!(rt; were_given_back(dial.given_back(), &[("ab", 0), ("c", 0)]));
    assert!(rt; were_given_back(other.given_back(), &[("ab", 0), ("c", 0)]));
    assert_eq!(rt; (dial.faults(), other.faults()), (2, 1));
    Ok(())
}

#[test]
fn a_door_in_memory_lets_its_callers_in_and_then_none(rt: HostRuntime) -> Result<(), Fail> {
    let alloc = rt.alloc();
    let mut door = MemDoor::new(alloc, texts(alloc, &["GET", "PUT"])?)?;
    let mut first = door.accept()?.ok_or("the first caller")?;
    let mut second = door.accept()?.ok_or("the second caller")?;
    assert_eq!(rt; echo(&mut second, &mut [0; 4]), Ok(3));
    door.hang_up(second);
    assert_eq!(rt; echo(&mut first, &mut [0; 4]), Ok(3));
    door.hang_up(first);
    assert!(rt; door.accept()?.is_none());
    assert!(rt; door.accept()?.is_none());
    assert!(rt; were_given_back(door.given_back(), &[("PUT", 0), ("GET", 0)]));
    assert_eq!(rt; door.faults(), 0);
    handed_over(door);
    Ok(())
}

// A link that gives two bytes, whose first read and first and third write fail.
fn faulty_link(alloc: Global) -> Result<MemLink, Fail> {
    let bytes = Bytes::of(alloc, b"ab")?;
    let source = MemSource::new(alloc, bytes, List::new(alloc), numbers(alloc, &[1])?)?;
    let sink = MemSink::new(alloc, numbers(alloc, &[1, 3])?)?;
    Ok(MemLink::new(alloc, source, sink)?)
}

#[test]
fn a_link_that_failed_is_given_back_with_the_faults_of_both_its_ends(
    rt: HostRuntime,
) -> Result<(), Fail> {
    let mut door = MemDoor::new(rt.alloc(), List::new(rt.alloc()))?;
    let mut link = faulty_link(rt.alloc())?;
    assert_eq!(rt; echo(&mut link, &mut [0; 4]), Err(Failed));
    assert_eq!(rt; echo(&mut link, &mut [0; 4]), Err(Failed));
    assert_eq!(rt; send(&mut link, b"c"), Ok(()));
    assert_eq!(rt; send(&mut link, b"d"), Err(Failed));
    assert_eq!(rt; link.faults(), 3);
    door.hang_up(link);
    assert!(rt; were_given_back(door.given_back(), &[("c", 3)]));
    Ok(())
}

// A stream that goes wrong: its second read is an error, its first write short, its second an error
// and its third takes nothing.
#[derive(Drop)]
struct Fake {
    reads: u8,
    writes: u8,
}

impl Read for Fake {
    fn read(&mut self, buf: &mut [u8]) -> io::Result<usize> {
        self.reads = self.reads.saturating_add(1);
        match self.reads {
            1 => Ok(filled(buf, b"abc")),
            2 => Err(io::Error::from(ErrorKind::ConnectionReset)),
            3 => Ok(filled(buf, b"d")),
            _ => Ok(0),
        }
    }
}

fn filled(buf: &mut [u8], bytes: &[u8]) -> usize
    ensures { result ≤ length buf.new }
{
    let count = buf.len().min(bytes.len());
    buf[..count].copy_from_slice(&bytes[..count]);
    count
}

impl Write for Fake {
    fn write(&mut self, bytes: &[u8]) -> io::Result<usize> {
        self.writes = self.writes.saturating_add(1);
        match self.writes {
            1 => Ok(bytes.len().min(1)),
            2 => Err(io::Error::from(ErrorKind::BrokenPipe)),
            3 => Ok(0),
            _ => Ok(bytes.len()),
        }
    }

    fn flush(&mut self) -> io::Result<()> {
        Ok(())
    }
}

#[test]
fn a_connection_is_read_through_a_buffer_and_each_error_is_one_fault(
    rt: HostRuntime,
) -> Result<(), Fail> {
    let mut link = TcpLink::new(
        rt.alloc(),
        Fake {
            reads: 0,
            writes: 0,
        },
    )?;
    let mut byte = [0; 1];
    for (at, wanted, answer, faults) in [
        (0, b'a', Ok(1), 0),
        (1, b'b', Ok(1), 0),
        (2, b'c', Ok(1), 0),
        (3, b'c', Err(Failed), 1),
        (4, b'd', Ok(1), 1),
        (5, b'd', Ok(0), 1),
    ] {
        assert_eq!(rt; link.read(&mut []), Ok(0), "read {at}");
        assert_eq!(rt; link.read(&mut byte), answer, "read {at}");
        assert_eq!(rt; byte, [wanted], "read {at}");
        assert_eq!(rt; link.faults(), faults, "read {at}");
    }
    for (answer, faults) in [(Ok(1), 1), (Err(Failed), 2), (Err(Failed), 3), (Ok(2), 3)] {
        assert_eq!(rt; link.write(b"xy"), answer);
        assert_eq!(rt; link.faults(), faults);
    }
    Ok(())
}

// Fills the buffer, byte by byte.
fn read_all<S: Source>(source: &mut S, buf: &mut [u8]) -> Result<(), Failed> {
    for at in 0..buf.len() {
        if source.read(&mut buf[at..at + 1])? == 0 {
            return Err(Failed);
        }
    }
    Ok(())
}

// A call to a door, and the same connection at the door's end.
fn connected<D: Dial, O: Door>(
    dial: &mut D,
    host: &[u8],
    port: u16,
    door: &mut O,
) -> Result<(D::Link, O::Link), Fail> {
    let caller = dial.dial(host, port)?;
    let link = door.accept()?.ok_or("a caller")?;
    Ok((caller, link))
}

// Sends a text from one end, and whether it comes out at the other.
fn arrives<K: Sink, S: Source>(out: &mut K, input: &mut S, text: &[u8; 3]) -> bool {
    let mut buf = [0; 3];
    send(out, text).is_ok() && read_all(input, &mut buf).is_ok() && buf == *text
}

#[test]
fn a_call_over_loopback_goes_both_ways_until_the_other_end_is_gone(
    rt: HostRuntime,
) -> Result<(), Fail> {
    let mut door = TcpDoor::new(rt.clone()?, 0);
    let mut dial = TcpDial::new(rt.clone()?);
    let port = door.bind().ok().ok_or("a port")?;
    let (mut caller, mut link) = connected(&mut dial, b"localhost", port, &mut door)?;
    assert!(rt; arrives(&mut caller, &mut link, b"hey"));
    assert!(rt; arrives(&mut link, &mut caller, b"you"));
    dial.hang_up(caller);
    assert_eq!(rt; link.read(&mut [0; 1]), Ok(0));
    for _ in 0..1_000 {
        let _ = send(&mut link, b"gone");
    }
    assert_ne!(rt; link.faults(), 0);
    door.hang_up(link);
    assert_eq!(rt; (dial.faults(), door.faults()), (0, 0));
    Ok(())
}

#[test]
fn a_port_that_is_taken_and_one_that_nobody_answers_are_faults(
    rt: HostRuntime,
) -> Result<(), Fail> {
    let mut door = TcpDoor::new(rt.clone()?, 0);
    let port = door.bind().ok().ok_or("a port")?;
    assert_eq!(rt; door.bind(), Ok(port));
    let mut second = TcpDoor::new(rt.clone()?, port);
    assert!(rt; second.accept().is_err());
    assert_eq!(rt; second.faults(), 1);
    drop(door);
    let mut dial = TcpDial::new(rt.clone()?);
    assert!(rt; dial.dial(b"127.0.0.1", port).is_err());
    assert!(rt; dial.dial(b"\xff", port).is_err());
    assert_eq!(rt; dial.faults(), 2);
    let mut other = dial.fork()?;
    assert_eq!(rt; other.faults(), 0);
    assert!(rt; other.dial(b"127.0.0.1", port).is_err());
    handed_over(dial);
    handed_over(second);
    Ok(())
}
