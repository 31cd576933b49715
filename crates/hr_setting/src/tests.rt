use crate::is_base;
use std::test::Fail;

// By the URL Standard's hosts and ports, and the rule for a base.
#[test]
fn a_base_is_a_scheme_a_host_and_a_port_alone(rt: HostRuntime) -> Result<(), Fail> {
    let alloc = rt.alloc();
    let cases: [(&[u8], bool); 20] = [
        (b"http://a", true),
        (b"http://a/", true),
        (b"http://registry.example:5000", true),
        (b"http://127.0.0.1:80/", true),
        (b"http://[::1]:65535", true),
        (b"", false),
        (b"http://", false),
        (b"http:///", false),
        (b"https://a", false),
        (b"HTTP://a", false),
        (b"http:a", false),
        (b"http://a:65536", false),
        (b"http://a:b", false),
        (b"http://a/b", false),
        (b"http://a//", false),
        (b"http://a?b", false),
        (b"http://a#b", false),
        (b"http://u@a", false),
        (b"http://a ", false),
        (b"http://\xff", false),
    ];
    for (text, expected) in cases {
        assert_eq!(rt; is_base(alloc, text)?, expected, "{text:?}");
    }
    Ok(())
}
