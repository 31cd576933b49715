//! What first lines ask for, as worked rows, where there is ample memory.

use crate::{NoRoute, route_of, target_of, verb_of};
use hr_base::Bytes;
use hr_call::Call;
use hr_head::Verb;
use std::alloc::Global;
use std::test::Fail;

// The status with which a first line is refused, or 0 where it is none.
fn status_of(alloc: Global, verb: Verb, target: &str) -> u16 {
    match route_of(alloc, verb, target.as_bytes()) {
        Ok(_) => 0,
        Err(NoRoute::Status { status }) => status,
        Err(NoRoute::Memory) => 1,
    }
}

#[test]
fn what_is_got_is_taken_or_refused_by_the_table(rt: HostRuntime) {
    let alloc = rt.alloc();
    let rows: [(&str, u16); 11] = [
        ("/v2/", 0),
        ("/v2", 404),
        ("/v2/_catalog?n=10000&last=b", 0),
        ("/v2/_catalog?n=10001", 400),
        ("/v2/_catalog?n=", 400),
        ("/v2/_catalog?n=0", 400),
        ("/v2/_catalog?n=1&n=1", 400),
        ("/v2/a%2Fb/manifests/v1", 0),
        ("/v2/a//b/manifests/v1", 400),
        ("/v2/a/blobs/v1", 400),
        ("/v2/a/blobs/uploads/", 405),
    ];
    for (target, status) in rows {
        assert_eq!(rt; status_of(alloc, Verb::Get, target), status, "{target}");
    }
}

#[test]
fn a_verb_is_taken_or_refused_by_the_table(rt: HostRuntime) {
    let alloc = rt.alloc();
    let rows: [(Verb, &str, u16); 5] = [
        (Verb::Post, "/v2/", 405),
        (Verb::Delete, "/v2/a/manifests/v1", 405),
        (Verb::Post, "/v2/a/blobs/uploads/?mount=x&from=y", 0),
        (Verb::Patch, "/v2/a/blobs/uploads/1?x=y", 0),
        (Verb::Put, "/v2/a/blobs/uploads/1", 400),
    ];
    for (verb, target, status) in rows {
        assert_eq!(rt; status_of(alloc, verb, target), status, "{target}");
    }
}

#[test]
fn a_name_has_at_most_255_bytes(rt: HostRuntime) -> Result<(), Fail> {
    let alloc = rt.alloc();
    for (len, status) in [(255u16, 0u16), (256, 400)] {
        let mut target = String::new(alloc);
        target.push_str("/v2/")?;
        for _ in 0..len {
            target.push_str("a")?;
        }
        target.push_str("/manifests/v1")?;
        assert_eq!(rt; status_of(alloc, Verb::Get, target.as_str()), status);
    }
    Ok(())
}

#[test]
fn a_call_has_its_target(rt: HostRuntime) -> Result<(), Fail> {
    let alloc = rt.alloc();
    let call = Call::Catalog {
        last: Some(Bytes::of(alloc, b"v 1")?),
    };
    let target = target_of(alloc, &call)?;
    assert_eq!(rt; target.view(), b"/v2/_catalog?n=1000&last=v+1".as_slice());
    assert_eq!(rt; verb_of(&call), Verb::Get);
    Ok(())
}
