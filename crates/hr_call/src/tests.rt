//! Copies and texts, where there is ample memory.

use crate::{Answer, Call, read_digest, read_name, read_reference, read_tag, reference_text};
use hr_base::{Bytes, List};
use hr_event::Reference;
use std::test::Fail;

const SUM: &[u8] = b"sha256:44136fa355b3678a1146ad16f7e8649e94fb4fc21fe77e8310c060f61caaff8a";

#[test]
fn calls_and_answers_are_copied(rt: HostRuntime) -> Result<(), Fail> {
    let alloc = rt.alloc();
    let call = Call::Tags {
        repo: read_name(alloc, b"a/b")?.ok_or("a name")?,
        last: Some(Bytes::of(alloc, b"v1")?),
    };
    assert_eq!(rt; call.copy(alloc)?, call);
    let mut list = List::new(alloc);
    list.push(read_tag(alloc, b"v2")?.ok_or("a tag")?)?;
    let answer = Answer::Tags { list, more: true };
    assert_eq!(rt; answer.copy(alloc)?, answer);
    Ok(())
}

#[test]
fn a_text_is_read_as_a_tag_or_as_a_digest(rt: HostRuntime) -> Result<(), Fail> {
    let alloc = rt.alloc();
    let tag = read_reference(alloc, b"v1")?.ok_or("a reference")?;
    assert_eq!(rt;
        tag,
        Reference::Tag(read_tag(alloc, b"v1")?.ok_or("a tag")?)
    );
    let digest = read_reference(alloc, SUM)?.ok_or("a reference")?;
    assert_eq!(rt;
        digest,
        Reference::Digest(read_digest(SUM).ok_or("a digest")?)
    );
    assert_eq!(rt; reference_text(alloc, &digest)?.view(), SUM);
    assert!(rt; read_reference(alloc, b"sha256:44")?.is_none());
    Ok(())
}
