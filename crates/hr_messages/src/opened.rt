//! Replies whose bodies are read in pieces.
use crate::case::{Case, Kind};
use crate::outcome::{Came, count_left, source};
use hr_base::{Bytes, Memory};
use hr_cause::MemSource;
use hr_http1::{Body, WireFault, open_response};
use std::alloc::Global;

/// Reads a reply whose body comes in pieces of at most three bytes, or `None` for a request.
pub fn open(alloc: Global, case: &Case) -> Result<Option<Came>, Memory> {
    let head_only = match case.kind {
        Kind::Reply => false,
        Kind::Head => true,
        Kind::Request => return Ok(None),
    };
    let mut link = source(alloc, case.bytes.view(), 2, 0)?;
    match open_response(alloc, &mut link, head_only) {
        Ok((mut reply, mut body)) => match pieces(alloc, &mut link, &mut body) {
            Ok(all) => {
                reply.body = Bytes::from(all);
                Ok(Some(Came::Reply(reply, count_left(&mut link))))
            }
            Err(WireFault::Memory) => Err(Memory),
            Err(why) => Ok(Some(Came::Fault(why))),
        },
        Err(WireFault::Memory) => Err(Memory),
        Err(why) => Ok(Some(Came::Fault(why))),
    }
}

// All that comes of a body, up to a hundred thousand pieces.
fn pieces(alloc: Global, link: &mut MemSource, body: &mut Body) -> Result<Vec<u8>, WireFault> {
    let mut all = Vec::new(alloc);
    let mut buf = [0u8; 3];
    for _ in 0..100_000u64 {
        let count = body.read(link, &mut buf)?;
        if count == 0 {
            return Ok(all);
        }
        all.extend_from_slice(&buf[..count])?;
    }
    Ok(all)
}
