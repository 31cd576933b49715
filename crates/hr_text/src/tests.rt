use super::*;
use std::test::Fail;

#[test]
fn a_text_is_cut_at_its_first_such_byte(rt: HostRuntime) {
    let cases: [(&[u8], &[u8], Option<&[u8]>); 6] = [
        (b"", b"", None),
        (b"ab", b"ab", None),
        (b"a b", b"a", Some(b"b")),
        (b"a  b ", b"a", Some(b" b ")),
        (b" ", b"", Some(b"")),
        (b"ab ", b"ab", Some(b"")),
    ];
    for (text, before, behind) in cases {
        let got = cut(text, b' ');
        assert!(rt; got.0 == before && got.1 == behind, "{text:?}");
    }
}

// As RFC 8259 has it: all characters may be escaped, and these must be.
#[test]
fn json_escapes_two_marks_and_the_controls(rt: HostRuntime) {
    let cases: [(&[u8], bool); 7] = [
        (b"", true),
        (b" /!#[]~\x7f\xff", true),
        (b"a\"", false),
        (b"\\a", false),
        (b"\x1f", false),
        (b"\x00", false),
        (b"a\nb", false),
    ];
    for (text, want) in cases {
        assert_eq!(rt; is_unescaped(text), want, "{text:?}");
    }
}

// The bytes as Python's `bytes.fromhex` gives them, and as its `bytes.hex` writes them.
#[test]
fn pairs_of_lower_case_digits_are_read(rt: HostRuntime) -> Result<(), Fail> {
    let cases: [(&[u8], Option<&[u8]>); 9] = [
        (b"", Some(b"")),
        (b"00", Some(b"\x00")),
        (b"09afff", Some(b"\x09\xaf\xff")),
        (b"7", None),
        (b"7b7", None),
        (b"7B", None),
        (b"7g", None),
        (b" 7b", None),
        (b"\xff\xff", None),
    ];
    for (text, want) in cases {
        let got = read_hex(rt.alloc(), text)?;
        assert!(rt; got.as_ref().map(|bytes| bytes.view()) == want, "{text:?}");
    }
    let mut room = [1u8, 2];
    assert!(rt; !read_hex_to(b"00", &mut room) && !read_hex_to(b"0A0a", &mut room));
    assert_eq!(rt; room, [1, 2]);
    assert!(rt; read_hex_to(b"0a0b", &mut room));
    assert_eq!(rt; room, [10, 11]);
    Ok(())
}

#[test]
fn decimal_numbers_are_read(rt: HostRuntime) {
    let cases: [(&[u8], Option<u64>); 12] = [
        (b"0", Some(0)),
        (b"9", Some(9)),
        (b"10", Some(10)),
        (b"4294967296", Some(4_294_967_296)),
        (b"18446744073709551615", Some(18_446_744_073_709_551_615)),
        (b"18446744073709551616", None),
        (b"", None),
        (b"00", None),
        (b"01", None),
        (b"+1", None),
        (b"1 ", None),
        (b"1\xff", None),
    ];
    for (word, want) in cases {
        assert_eq!(rt; read_number(word), want, "{word:?}");
    }
}
