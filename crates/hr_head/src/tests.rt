use crate::{ReplyHead, Verb, read_reply_head, read_request_head};
use hr_base::{Bytes, List};
use hr_body::{WireFault, read_byte};
use hr_cause::MemSource;
use std::alloc::Global;
use std::test::Fail;

// A source of these bytes that gives them as they are asked for.
fn source(alloc: Global, bytes: &[u8]) -> Result<MemSource, Fail> {
    let bytes = Bytes::of(alloc, bytes)?;
    Ok(MemSource::new(alloc, bytes, List::new(alloc), List::new(alloc))?)
}

fn first_line(head: &ReplyHead) -> (&[u8], &[u8]) {
    match head.heads.view() {
        [line, ..] => (line.name.view(), line.value.view()),
        [] => (b"", b""),
    }
}

/// By RFC 9112: empty lines before a start line are passed over (section 2.2), a line feed alone
/// ends a line, and blanks round a value are no part of it (section 5.1). A full stop follows.
#[test]
fn heads_of_replies_are_read(rt: HostRuntime) -> Result<(), Fail> {
    let alloc = rt.alloc();
    let table: [(&[u8], u16, usize); 3] = [
        (b"HTTP/1.1 200 OK\r\nA:  b c \r\nD:\r\n\r\n.", 200, 33),
        (b"\r\n\nHTTP/1.0 404\nA:b c\n\n.", 404, 23),
        (b"HTTP/1.1 999 \r\na:b c\r\n\n.", 999, 23),
    ];
    for (bytes, status, len) in table {
        let mut link = source(alloc, bytes)?;
        let head = read_reply_head(alloc, &mut link).ok().ok_or("a fault")?;
        assert_eq!(rt; (head.status, head.len), (status, len));
        let (name, value) = first_line(&head);
        assert!(rt; name.eq_ignore_ascii_case(b"a"));
        assert_eq!(rt; value, b"b c".as_slice());
        assert_eq!(rt; read_byte(&mut link), Ok(Some(b'.')));
    }
    Ok(())
}

#[test]
fn heads_of_replies_are_refused(rt: HostRuntime) -> Result<(), Fail> {
    let alloc = rt.alloc();
    let feeds = vec![in alloc; b'\n'; 65_537]?;
    let table: [(&[u8], WireFault); 6] = [
        (b"", WireFault::Ended { at: 0 }),
        (b"HTTP/1.1 200 OK\r\nA", WireFault::Ended { at: 18 }),
        (b"HTTP/2.0 200 OK\r\n\r\n.", WireFault::Malformed { at: 19 }),
        (b"HTTP/1.1 20 OK\r\n\r\n.", WireFault::Malformed { at: 18 }),
        (&feeds[..65_536], WireFault::Ended { at: 65_536 }),
        (&feeds, WireFault::TooLong { len: 65_537 }),
    ];
    for (bytes, wanted) in table {
        let mut link = source(alloc, bytes)?;
        assert_eq!(rt; read_reply_head(alloc, &mut link).err(), Some(wanted));
    }
    Ok(())
}

#[test]
fn heads_of_requests_are_read(rt: HostRuntime) -> Result<(), Fail> {
    let alloc = rt.alloc();
    let table: [(&[u8], Verb); 3] = [
        (b"GET /v2/ HTTP/1.1\r\nHost: a\r\n\r\n.", Verb::Get),
        (b"get /v2/ HTTP/1.0\n\n.", Verb::Other),
        (b"\r\nPATCH /v2/ HTTP/1.1\r\n\r\n.", Verb::Patch),
    ];
    for (bytes, verb) in table {
        let mut link = source(alloc, bytes)?;
        let found = read_request_head(alloc, &mut link).ok().ok_or("a fault")?;
        let head = found.ok_or("no head")?;
        assert_eq!(rt; head.verb, verb);
        assert_eq!(rt; head.target.view(), b"/v2/".as_slice());
        assert_eq!(rt; read_byte(&mut link), Ok(Some(b'.')));
    }
    let ended = read_request_head(alloc, &mut source(alloc, b"")?);
    assert_eq!(rt; ended, Ok(None));
    let cut_off = read_request_head(alloc, &mut source(alloc, b"GET /v")?);
    assert_eq!(rt; cut_off, Err(WireFault::Ended { at: 6 }));
    Ok(())
}
