use super::*;
use std::test::Fail;

fn digest_in_pieces(bytes: &[u8], len: usize) -> Digest {
    let mut check = Check::begin();
    for piece in bytes.chunks(len.max(1)) {
        check.feed(piece);
    }
    check.feed(b"");
    check.finish()
}

// The digests of so many letters `a`, as Python's hashlib gives them.
#[test]
fn digests_are_those_of_another_tool_however_the_bytes_are_cut(
    rt: HostRuntime,
) -> Result<(), Fail> {
    let letters = [b'a'; 200];
    let cases: [(usize, &[u8]); 6] = [
        (
            0,
            b"sha256:e3b0c44298fc1c149afbf4c8996fb92427ae41e4649b934ca495991b7852b855",
        ),
        (
            63,
            b"sha256:7d3e74a05d7db15bce4ad9ec0658ea98e3f06eeecf16b4c6fff2da457ddc2f34",
        ),
        (
            64,
            b"sha256:ffe054fe7ae0cb6dc65c3af9b61d5209f439851db43d0ba5997337df154668eb",
        ),
        (
            65,
            b"sha256:635361c48bb9eab14198e76ea8ab7f1a41685d6ad62aa9146d301d4f17eb0ae0",
        ),
        (
            120,
            b"sha256:2f3d335432c70b580af0e8e1b3674a7c020d683aa5f73aaaedfdc55af904c21c",
        ),
        (
            200,
            b"sha256:c2a908d98f5df987ade41b5fce213067efbcc21ef2240212a41e54b5e7c28ae5",
        ),
    ];
    for (count, text) in cases {
        let bytes = &letters[..count.min(200)];
        let got = Digest::of(bytes).text(rt.alloc())?;
        assert_eq!(rt; got.view(), text);
        for len in [1, 63, 64, 65] {
            assert_eq!(rt;
                digest_in_pieces(bytes, len),
                Digest::of(bytes),
                "{count} by {len}"
            );
        }
    }
    Ok(())
}

// As the expressions of OCI Image 1.1 have it, tried with another tool's regular expressions.
#[test]
fn texts_are_read_by_the_grammar_of_digests(rt: HostRuntime) {
    let shapes: [&[u8]; 28] = [
        b"",
        b":",
        b"sha256",
        b"sha256:",
        b":ba7816bf8f01cfea414140de5dae2223b00361a396177a9cb410ff61f20015ad",
        b"sha256:ba7816bf8f01cfea414140de5dae2223b00361a396177a9cb410ff61f20015a",
        b"sha256:ba7816bf8f01cfea414140de5dae2223b00361a396177a9cb410ff61f20015ad0",
        b"sha256:ba7816bf8f01cfea414140de5dae2223b00361a396177a9cb410ff61f20015aD",
        b"sha256:ba7816bf8f01cfea414140de5dae2223b00361a396177a9cb410ff61f20015ag",
        b"sha256:ba7816bf8f01cfea414140de5dae2223b00361a396177a9cb410ff61f20015a=",
        b"sha256:ba7816bf8f01cfea414140de5dae2223b00361a396177a9cb410ff61f20015ad\n",
        b"sha256:\xba7816bf8f01cfea414140de5dae2223b00361a396177a9cb410ff61f20015ad",
        b"SHA256:ba7816bf8f01cfea414140de5dae2223b00361a396177a9cb410ff61f20015ad",
        b"sha256:sha256:ba7816bf8f01cfea414140de5dae2223b00361a396177a9cb410ff61f2",
        b"md5",
        b"md5:",
        b"md5:0:0",
        b"md5:0 0",
        b"md5:0+0",
        b"sha256+b64:uU0nuZNNPgilLlLX2n2r+sSE7+N6U4DukIj3rOLvzek=",
        b"md5:\x80",
        b"md\xff5:00",
        b"md/5:00",
        b"+a:b",
        b"a+:b",
        b"a..b:c",
        b"a+-b:c",
        b"aB:c",
    ];
    for text in shapes {
        assert_eq!(rt; Digest::read(text), Err(DigestRefused::Shape), "{text:?}");
    }
    let others: [&[u8]; 7] = [
        b"md5:00",
        b"a+b:c",
        b"0.a_9-z:A=_-",
        b"sha25:ba7816bf8f01cfea414140de5dae2223b00361a396177a9cb410ff61f20015ad",
        b"sha256+b64u:LCa0a2j_xo_5m0U8HTBBNBNCLXBkg7-g-YpeiGJm564",
        b"sha384:00",
        b"sha512:cf83e1357eefb8bdf1542850d66d8007d620e4050b5715dc83f4a921d36ce9ce",
    ];
    for text in others {
        assert_eq!(rt;
            Digest::read(text),
            Err(DigestRefused::Algorithm),
            "{text:?}"
        );
    }
    let text = b"sha256:ba7816bf8f01cfea414140de5dae2223b00361a396177a9cb410ff61f20015ad";
    assert_eq!(rt; Digest::read(text), Ok(Digest::of(b"abc")));
}

fn sends<T: Send>(_value: &T) {}

#[test]
fn a_check_may_go_to_another_thread() {
    sends(&Check::begin());
    sends(&Digest::of(b""));
}
