use crate::{Body, WireFault, read_byte, read_chunked, read_whole};
use hr_base::{Bytes, List};
use hr_cause::{Counted, MemSource};
use std::alloc::Global;
use std::test::Fail;

// A source of these bytes that gives three at a time, and whose calls with these numbers fail.
fn source(alloc: Global, bytes: &[u8], failing: &[u64]) -> Result<MemSource, Fail> {
    let pieces = vec![in alloc; 3u64; bytes.len()]?;
    let failing = List::from(failing.to_vec(alloc)?);
    Ok(MemSource::new(alloc, Bytes::of(alloc, bytes)?, List::from(pieces), failing)?)
}

/// By the grammar of RFC 9112, section 7.1. A full stop follows each body.
#[test]
fn chunked_bodies_are_read(rt: HostRuntime) -> Result<(), Fail> {
    let alloc = rt.alloc();
    let table: [(&[u8], &[u8]); 3] = [
        (
            b"4;a=b\r\nWiki\r\n5 \r\npedia\r\n0\r\nX: y\r\n\r\n.",
            b"Wikipedia",
        ),
        (b"A\r\n0123456789\r\n00\r\n\n.", b"0123456789"),
        (b"0\r\n\r\n.", b""),
    ];
    for (bytes, wanted) in table {
        let mut link = source(alloc, bytes, &[])?;
        let body = read_chunked(alloc, &mut link, 20, 10)
            .ok()
            .ok_or("a fault")?;
        assert_eq!(rt; body.as_slice(), wanted);
        assert_eq!(rt; read_byte(&mut link), Ok(Some(b'.')));
    }
    Ok(())
}

/// The places are counted by hand, behind a head of 20 bytes. The limit is 10 bytes.
#[test]
fn chunked_bodies_are_refused_where_they_go_wrong(rt: HostRuntime) -> Result<(), Fail> {
    let alloc = rt.alloc();
    let table: [(&[u8], WireFault); 8] = [
        (b"", WireFault::Ended { at: 20 }),
        (b"2\r\na", WireFault::Ended { at: 24 }),
        (
            b"FFFFFFFFFFFFFFFF\r\n0123456789",
            WireFault::Ended { at: 48 },
        ),
        (b"1\r\nab\r\n", WireFault::Malformed { at: 25 }),
        (b"1\n", WireFault::Malformed { at: 22 }),
        (b"3\r\nabc\rx", WireFault::Malformed { at: 28 }),
        (b"00000000000000001\r\n", WireFault::Malformed { at: 37 }),
        (
            b"8\r\n01234567\r\n3\r\n89a\r\n",
            WireFault::TooLong { len: 11 },
        ),
    ];
    for (bytes, wanted) in table {
        let mut link = source(alloc, bytes, &[])?;
        let body = read_chunked(alloc, &mut link, 20, 10);
        assert_eq!(rt; body.err(), Some(wanted));
    }
    Ok(())
}

#[test]
fn a_fault_of_a_body_comes_again(rt: HostRuntime) -> Result<(), Fail> {
    let alloc = rt.alloc();
    let mut link = source(alloc, b"abcdefg", &[2])?;
    let mut body = Body::sized(5, 0, 5).ok().ok_or("too long")?;
    let mut buf = [0; 8];
    assert_eq!(rt; body.read(&mut link, &mut buf), Ok(3));
    for _ in 0..2 {
        assert_eq!(rt; body.read(&mut link, &mut buf), Err(WireFault::Failed));
        assert_eq!(rt; link.faults(), 1);
    }
    assert_eq!(rt; Body::sized(6, 0, 5), Err(WireFault::TooLong { len: 6 }));
    let mut rest = Body::to_end(3, 4);
    let read = read_whole(alloc, &mut link, &mut rest)
        .ok()
        .ok_or("a fault")?;
    assert_eq!(rt; read.as_slice(), b"defg".as_slice());
    assert_eq!(rt; (rest.is_over(), rest.so_far()), (true, 7));
    Ok(())
}
