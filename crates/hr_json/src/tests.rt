use crate::{DOC_LIMIT, Doc, JsonRefused, Node};
use std::alloc::Global;
use std::test::Fail;

// A document that must be read.
fn read(alloc: Global, bytes: &[u8]) -> Result<Doc, Fail> {
    Ok(Doc::read(alloc, bytes).ok().ok_or("it is not read")?)
}

// The member of this name, which must be there.
fn field<'a>(node: &Node<'a>, name: &[u8]) -> Result<Node<'a>, Fail> {
    Ok(node.field(name).ok_or("a member is missing")?)
}

// RFC 8259, and what the reader below leaves to itself: Python's json has the last of two members,
// and refuses a byte order mark in a text.
#[test]
fn what_is_no_text_or_no_json_is_refused(rt: HostRuntime) {
    let cases: [&[u8]; 16] = [
        b"",
        b" ",
        b"{",
        b"[1,]",
        b"{\"a\":1,}",
        b"{a:1}",
        b"01",
        b"+1",
        b".5",
        b"1e400",
        b"nul",
        b"1 2",
        b"{}x",
        b"\xef\xbb\xbf{}",
        b"\"\xff\"",
        b"\"\\ud800\"",
    ];
    for bytes in cases {
        assert_eq!(rt;
            Doc::read(rt.alloc(), bytes).err(),
            Some(JsonRefused::NotJson),
            "{bytes:?}"
        );
    }
}

// So many open brackets, and as many closed ones.
fn nested(alloc: Global, levels: usize) -> Result<Vec<u8>, Fail> {
    let mut bytes = vec![in alloc; b'['; levels]?;
    for _ in 0..levels {
        bytes.push(b']')?;
    }
    Ok(bytes)
}

#[test]
fn lists_nest_127_deep_and_no_deeper(rt: HostRuntime) -> Result<(), Fail> {
    let alloc = rt.alloc();
    let deepest = nested(alloc, 127)?;
    assert_eq!(rt; read(alloc, deepest.as_slice())?.root().count(), Some(1));
    let deeper = nested(alloc, 128)?;
    let refused = Doc::read(alloc, deeper.as_slice()).err();
    assert_eq!(rt; refused, Some(JsonRefused::NotJson));
    Ok(())
}

#[test]
fn a_document_at_the_limit_is_read_and_one_byte_more_is_not(rt: HostRuntime) -> Result<(), Fail> {
    let alloc = rt.alloc();
    let mut bytes = vec![in alloc; b' '; DOC_LIMIT]?;
    bytes[0] = b'7';
    assert_eq!(rt; read(alloc, bytes.as_slice())?.root().number(), Some(7));
    bytes.push(b' ')?;
    let refused = Doc::read(alloc, bytes.as_slice()).err();
    assert_eq!(rt; refused, Some(JsonRefused::TooLong { len: 16_777_217 }));
    Ok(())
}

// The bounds are those of 64 bits. A float is no whole number, however it ends.
#[test]
fn numbers_are_whole_and_within_64_bits(rt: HostRuntime) -> Result<(), Fail> {
    let cases: [(&[u8], Option<u64>, Option<i64>); 13] = [
        (b"0", Some(0), Some(0)),
        (b"2", Some(2), Some(2)),
        (b"2.0", None, None),
        (b"2e0", None, None),
        (b"-0", None, None),
        (b"-1", None, Some(-1)),
        (
            b"9223372036854775807",
            Some(9223372036854775807),
            Some(9223372036854775807),
        ),
        (b"9223372036854775808", Some(9223372036854775808), None),
        (b"18446744073709551615", Some(18446744073709551615), None),
        (b"18446744073709551616", None, None),
        (b"-9223372036854775808", None, Some(-9223372036854775808)),
        (b"-9223372036854775809", None, None),
        (b"\"2\"", None, None),
    ];
    for (bytes, number, signed) in cases {
        let doc = read(rt.alloc(), bytes)?;
        assert_eq!(rt; doc.root().number(), number, "{bytes:?}");
        assert_eq!(rt; doc.root().signed(), signed, "{bytes:?}");
    }
    Ok(())
}

#[test]
fn each_kind_is_itself_and_no_other(rt: HostRuntime) -> Result<(), Fail> {
    // Whether it is null, its truth value, the length of its text, its items, and an object.
    let cases: [(&[u8], bool, Option<bool>, Option<usize>, Option<u64>, bool); 8] = [
        (b"null", true, None, None, None, false),
        (b"true", false, Some(true), None, None, false),
        (b"false", false, Some(false), None, None, false),
        (b"1", false, None, None, None, false),
        (b"\"\"", false, None, Some(0), None, false),
        (b"\"\\u00e9\\n\"", false, None, Some(3), None, false),
        (b"[1,[2,3],{}]", false, None, None, Some(3), false),
        (b"{\"a\":[]}", false, None, None, None, true),
    ];
    for (bytes, is_null, flag, text, count, is_object) in cases {
        let doc = read(rt.alloc(), bytes)?;
        let root = doc.root();
        assert_eq!(rt; root.is_null(), is_null, "{bytes:?}");
        assert_eq!(rt; root.flag(), flag, "{bytes:?}");
        assert_eq!(rt; root.text().map(|t| t.len()), text, "{bytes:?}");
        assert_eq!(rt; root.count(), count, "{bytes:?}");
        assert_eq!(rt; root.is_object(), is_object, "{bytes:?}");
    }
    Ok(())
}

#[test]
fn a_member_is_found_by_its_name_alone(rt: HostRuntime) -> Result<(), Fail> {
    let text: &[u8] = b"{\"a\":1,\"b\":null,\"\\u00e9\":3,\"\":4,\"a\":[5,\"six\"]}";
    let doc = read(rt.alloc(), text)?;
    let root = doc.root();
    // Of two members of one name the last one stays.
    let list = field(&root, b"a".as_slice())?;
    assert_eq!(rt; list.count(), Some(2));
    assert_eq!(rt; list.item(0).and_then(|n| n.number()), Some(5));
    assert_eq!(rt;
        list.item(1).and_then(|n| n.text()),
        Some(b"six".as_slice())
    );
    assert!(rt; list.item(2).is_none());
    assert!(rt; list.field(b"a".as_slice()).is_none());
    // A member that is null is there.
    assert!(rt; field(&root, b"b".as_slice())?.is_null());
    assert_eq!(rt; field(&root, b"\xc3\xa9".as_slice())?.number(), Some(3));
    assert_eq!(rt; field(&root, b"".as_slice())?.number(), Some(4));
    assert_eq!(rt; root.member("").and_then(|n| n.number()), Some(4));
    let absent: [&[u8]; 4] = [b"c", b"A", b"\xe9", b"\\u00e9"];
    for name in absent {
        assert!(rt; root.field(name).is_none(), "{name:?}");
    }
    Ok(())
}

#[test]
fn the_items_of_a_list_are_told_by_their_places(rt: HostRuntime) -> Result<(), Fail> {
    let doc = read(rt.alloc(), b"[1,null,2]".as_slice())?;
    let items = doc.root().items().ok_or("it is no list")?;
    assert_eq!(rt; items.count(), 3);
    let numbers = [Some(1), None, Some(2), None];
    for (number, at) in numbers.into_iter().zip(0u64..) {
        assert_eq!(rt; items.at(at).and_then(|n| n.number()), number, "{at}");
    }
    assert!(rt; items.at(u64::MAX).is_none());
    assert_eq!(rt; read(rt.alloc(), b"[]".as_slice())?.root().count(), Some(0));
    Ok(())
}
