use crate::{Framing, Head, read_length, reply_framing, request_framing};
use hr_base::Bytes;
use std::alloc::Global;
use std::test::Fail;

// Field lines, each a name and a value with a colon between them, and blanks between the lines.
fn lines(alloc: Global, text: &str) -> Result<Vec<Head>, Fail> {
    let mut heads = Vec::new(alloc);
    for line in text.split_ascii_whitespace() {
        let (name, value) = line.split_once(':').ok_or("no colon")?;
        let name = Bytes::of(alloc, name.as_bytes())?;
        let value = Bytes::of(alloc, value.as_bytes())?;
        heads.push(Head { name, value })?;
    }
    Ok(heads)
}

/// By RFC 9112, section 6.3; malformed are also what the standard lets a recipient repair.
#[test]
fn bodies_are_framed_by_the_lines(rt: HostRuntime) -> Result<(), Fail> {
    let table = [
        ("", Some(Framing::ToEnd)),
        ("A:5 content-LENGTH:05", Some(Framing::Sized { len: 5 })),
        ("Transfer-Encoding:CHUNKED", Some(Framing::Chunked)),
        ("Content-Length:5 Content-Length:5", None),
        ("Content-Length:5 Transfer-Encoding:chunked", None),
        ("Transfer-Encoding:chunked Transfer-Encoding:chunked", None),
        ("Transfer-Encoding:gzip", None),
        ("Content-Length:5,5", None),
    ];
    for (text, wanted) in table {
        let heads = lines(rt.alloc(), text)?;
        assert_eq!(rt; reply_framing(false, 200, &heads), wanted, "{text}");
        assert_eq!(rt;
            reply_framing(true, 200, &heads),
            Some(Framing::NoBody),
            "{text}"
        );
        assert_eq!(rt;
            reply_framing(false, 304, &heads),
            Some(Framing::NoBody),
            "{text}"
        );
        let asked = if text.is_empty() {
            Some(Framing::NoBody)
        } else {
            wanted
        };
        assert_eq!(rt; request_framing(&heads), asked, "{text}");
    }
    Ok(())
}

#[test]
fn a_length_is_below_two_to_the_63(rt: HostRuntime) {
    let table = [
        ("0", Some(0)),
        ("0000000000000000012", Some(12)),
        ("9223372036854775807", Some(9_223_372_036_854_775_807)),
        ("9223372036854775808", None),
        ("00000000000000000012", None),
        ("", None),
        ("+5", None),
        ("5x", None),
    ];
    for (text, wanted) in table {
        assert_eq!(rt; read_length(text.as_bytes()), wanted, "{text}");
    }
}
