use super::*;
use hr_base::Memory;
use std::test::Fail;

// The place of a fault, or `None` where the text was read.
fn fault_of<T: Drop>(read: Result<T, NameRefused>) -> Result<Option<u32>, Memory> {
    match read {
        Ok(_) => Ok(None),
        Err(NameRefused::Shape { at }) => Ok(Some(at)),
        Err(NameRefused::TooLong { len: _ }) => Ok(Some(u32::MAX)),
        Err(NameRefused::Memory) => Err(Memory),
    }
}

// What the grammar's text says of each: a name, or the place where none goes on.
#[test]
fn names_are_read_to_the_exact_place_of_a_fault(rt: HostRuntime) -> Result<(), Fail> {
    let alloc = rt.alloc();
    let cases: [(&[u8], Option<u32>); 32] = [
        (b"a", None),
        (b"library/alpine", None),
        (b"0/9/z", None),
        (b"a.b", None),
        (b"a_b", None),
        (b"a__b", None),
        (b"a-b", None),
        (b"a-----b", None),
        (b"a1-b2__c3.d4_e5/f", None),
        (b"", Some(0)),
        (b"a..b", Some(2)),
        (b"a___b", Some(3)),
        (b"a._b", Some(2)),
        (b"a_.b", Some(2)),
        (b"a_-b", Some(2)),
        (b"a-_b", Some(2)),
        (b"-a", Some(0)),
        (b".a", Some(0)),
        (b"_a", Some(0)),
        (b"a-", Some(2)),
        (b"a_", Some(2)),
        (b"a__", Some(3)),
        (b"a.", Some(2)),
        (b"/a", Some(0)),
        (b"a//b", Some(2)),
        (b"a/", Some(2)),
        (b"a/.b", Some(2)),
        (b"a-/b", Some(2)),
        (b"Alpine", Some(0)),
        (b"aB", Some(1)),
        (b"a b", Some(1)),
        (b"caf\xc3\xa9", Some(3)),
    ];
    for (text, fault) in cases {
        assert_eq!(rt; fault_of(Name::read(alloc, text))?, fault, "{text:?}");
    }
    Ok(())
}

// What the grammar's text says of each: a tag, or the place where none goes on.
#[test]
fn tags_are_read_to_the_exact_place_of_a_fault(rt: HostRuntime) -> Result<(), Fail> {
    let alloc = rt.alloc();
    let most = vec![in alloc; b'-'; 127]?;
    let cases: [(&[u8], &[u8], Option<u32>); 17] = [
        (b"a", b"", None),
        (b"_", b"", None),
        (b"Z", b"", None),
        (b"latest", b"", None),
        (b"v1.2-rc_3", b"", None),
        (b"a..b--c", b"", None),
        (b"a", &most, None),
        (b"aa", &most, Some(128)),
        (b"aaaa", &most, Some(128)),
        (b"", b"", Some(0)),
        (b".a", b"", Some(0)),
        (b"-a", b"", Some(0)),
        (b"a/b", b"", Some(1)),
        (b"/", b"", Some(0)),
        (b"a:b", b"", Some(1)),
        (b"caf\xc3\xa9", b"", Some(3)),
        (b"\xff", b"", Some(0)),
    ];
    for (front, back, fault) in cases {
        let mut text = front.to_vec(alloc)?;
        text.extend_from_slice(back)?;
        assert_eq!(rt; fault_of(Tag::read(alloc, &text))?, fault, "{text:?}");
    }
    Ok(())
}

#[test]
fn copies_are_equal_and_the_order_is_that_of_the_bytes(rt: HostRuntime) -> Result<(), Fail> {
    let alloc = rt.alloc();
    let name = Name::read(alloc, b"library/alpine").ok().ok_or("refused")?;
    let other = Name::read(alloc, b"library/busybox").ok().ok_or("refused")?;
    assert!(rt; name.copy(alloc)? == name && name != other && name < other);
    let tag = Tag::read(alloc, b"v10").ok().ok_or("refused")?;
    let later = Tag::read(alloc, b"v9").ok().ok_or("refused")?;
    assert!(rt; tag.copy(alloc)? == tag && tag != later && tag < later);
    Ok(())
}
