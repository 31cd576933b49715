//! Replies as they are written and as they are read, where there is ample memory.

use crate::{NotAnswer, answer_of, error_reply, reply_of};
use hr_base::{Bytes, List};
use hr_call::{Answer, Call, read_digest, read_name, read_reference, read_tag};
use hr_http1::{Head, Reply};
use std::alloc::Global;
use std::test::Fail;

const SUM: &[u8] = b"sha256:44136fa355b3678a1146ad16f7e8649e94fb4fc21fe77e8310c060f61caaff8a";

// A call by the word for it.
fn call(alloc: Global, word: &str) -> Result<Call, Fail> {
    let repo = read_name(alloc, b"a")?.ok_or("a name")?;
    let digest = read_digest(SUM).ok_or("a digest")?;
    let at = Bytes::of(alloc, b"/v2/a/blobs/uploads/1")?;
    Ok(match word {
        "tags" => Call::Tags { repo, last: None },
        "look" => Call::HeadBlob { repo, digest },
        "begin" => Call::BeginUpload { repo },
        "progress" => Call::Progress { at },
        _ => Call::Catalog { last: None },
    })
}

// A reply with one field line.
fn reply(alloc: Global, status: u16, line: (&str, &str), body: &str) -> Result<Reply, Fail> {
    let mut heads = List::new(alloc);
    let name = Bytes::of(alloc, line.0.as_bytes())?;
    let value = Bytes::of(alloc, line.1.as_bytes())?;
    heads.push(Head { name, value })?;
    Ok(Reply {
        status,
        heads,
        body: Bytes::of(alloc, body.as_bytes())?,
    })
}

// How many items a page has, and 100 more where more remain.
fn page_said(len: usize, more: bool) -> u64 {
    (len as u64).saturating_add(if more { 100 } else { 0 })
}

// What an answer says as a number: that which it has, or 1; 1000 and the status of a reply that is none.
fn said(alloc: Global, call: &Call, reply: &Reply) -> u64 {
    match answer_of(alloc, call, reply) {
        Ok(Answer::Repos { list, more }) => page_said(list.view().len(), more),
        Ok(Answer::Tags { list, more }) => page_said(list.view().len(), more),
        Ok(Answer::Size { len }) => len,
        Ok(Answer::Held { count, .. }) => count,
        Ok(_) => 1,
        Err(NotAnswer::Status { status }) => status as u64 + 1000,
        Err(NotAnswer::Memory) => 9999,
    }
}

// The replies of CNCF distribution 2.8 are among these; the others are by OCI Distribution 1.1.
#[test]
fn replies_are_answers_or_refused(rt: HostRuntime) -> Result<(), Fail> {
    let alloc = rt.alloc();
    let rows: [(&str, u16, &str, &str, &str, u64); 21] = [
        ("look", 302, "Content-Length", "0", "", 1302),
        ("look", 200, "Content-Length", "12", "", 12),
        (
            "look",
            200,
            "Content-Length",
            "9223372036854775808",
            "",
            1200,
        ),
        ("look", 200, "content-encoding", "gzip", "", 1200),
        ("look", 200, "Content-Encoding", "Identity", "", 1),
        ("look", 404, "Content-Length", "157", "", 1),
        (
            "tags",
            200,
            "Link",
            "</v2/a/tags/list?n=2&last=v2>; rel=\"next\"",
            "{\"name\":\"a\",\"tags\":[\"v1\",\"v2\"]}",
            102,
        ),
        (
            "tags",
            200,
            "Content-Type",
            "application/json",
            "{\"name\":\"a\",\"tags\":null}",
            0,
        ),
        (
            "tags",
            200,
            "Content-Type",
            "application/json",
            "{\"name\":\"a\"}",
            1200,
        ),
        (
            "tags",
            200,
            "Content-Type",
            "application/json",
            "{\"tags\":[\"v1\",\"-\"]}",
            1200,
        ),
        (
            "tags",
            404,
            "Content-Type",
            "application/json",
            "{\"errors\":[]}",
            0,
        ),
        (
            "tags",
            500,
            "Content-Type",
            "application/json",
            "{\"errors\":[]}",
            1500,
        ),
        (
            "catalog",
            200,
            "Accept",
            "x",
            "{\"repositories\":[\"a/b\",\"c\"],\"more\":1}",
            2,
        ),
        (
            "catalog",
            200,
            "Accept",
            "x",
            "{\"repositories\":[\"a//b\"]}",
            1200,
        ),
        ("catalog", 404, "Accept", "x", "{\"repositories\":[]}", 1404),
        (
            "begin",
            202,
            "Location",
            "http://r.example/x?_state=y",
            "",
            1,
        ),
        ("begin", 202, "Range", "0-0", "", 1202),
        ("progress", 204, "Range", "0-9", "", 10),
        ("progress", 204, "Location", "/x", "", 0),
        ("progress", 204, "Range", "1-9", "", 1204),
        ("progress", 404, "Range", "0-9", "", 1404),
    ];
    for (word, status, name, value, body, wanted) in rows {
        let call = call(alloc, word)?;
        let reply = reply(alloc, status, (name, value), body)?;
        assert_eq!(rt;
            said(alloc, &call, &reply),
            wanted,
            "{word} {status} {value} {body}"
        );
    }
    Ok(())
}

// A page of two tags, behind which more remain.
fn page(alloc: Global) -> Result<Answer, Fail> {
    let mut list = List::new(alloc);
    list.push(read_tag(alloc, b"v1")?.ok_or("a tag")?)?;
    list.push(read_tag(alloc, b"v2")?.ok_or("a tag")?)?;
    Ok(Answer::Tags { list, more: true })
}

#[test]
fn a_page_of_tags_is_written_and_read_back(rt: HostRuntime) -> Result<(), Fail> {
    let alloc = rt.alloc();
    let call = call(alloc, "tags")?;
    let answer = page(alloc)?;
    let reply = reply_of(alloc, &call, &answer)?;
    let link = reply.heads.view().get(1).ok_or("a line")?;
    assert_eq!(rt;
        link.value.view(),
        b"</v2/a/tags/list?n=1000&last=v2>; rel=\"next\"".as_slice()
    );
    assert_eq!(rt;
        reply.body.view(),
        b"{\"name\":\"a\",\"tags\":[\"v1\",\"v2\"]}".as_slice()
    );
    assert_eq!(rt; answer_of(alloc, &call, &reply).ok(), Some(answer));
    Ok(())
}

#[test]
fn an_error_tells_no_causes(rt: HostRuntime) -> Result<(), Fail> {
    let alloc = rt.alloc();
    let reply = error_reply(alloc, 405)?;
    assert_eq!(rt; reply.status, 405);
    assert_eq!(rt; reply.body.view(), b"{\"errors\":[]}".as_slice());
    Ok(())
}
