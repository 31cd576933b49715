//! What a reading came to.
use crate::case::{Case, Kind};
use hr_base::{Bytes, List, Memory};
use hr_cause::{MemSource, Source};
use hr_http1::{Head, Reply, Request, Verb, WireFault, read_request, read_response};
use std::alloc::Global;

/// What a reading came to, with how many bytes it left.
#[derive(Drop)]
pub enum Came {
    Reply(Reply, u64),
    Request(Request, u64),
    /// There was no request.
    Nothing,
    Fault(WireFault),
}

/// Reads these bytes as the case says, in pieces of so many bytes, or as they are asked for.
pub fn read(alloc: Global, case: &Case, bytes: &[u8], piece: u64) -> Result<Came, Memory> {
    let mut link = source(alloc, bytes, piece, 0)?;
    read_off(alloc, case, &mut link)
}

/// Reads what a source holds as the case says.
pub fn read_off(alloc: Global, case: &Case, link: &mut MemSource) -> Result<Came, Memory> {
    match case.kind {
        Kind::Reply => read_reply(alloc, link, false, case.limit),
        Kind::Head => read_reply(alloc, link, true, case.limit),
        Kind::Request => match read_request(alloc, link, case.limit) {
            Ok(Some(request)) => Ok(Came::Request(request, count_left(link))),
            Ok(None) => Ok(Came::Nothing),
            Err(WireFault::Memory) => Err(Memory),
            Err(why) => Ok(Came::Fault(why)),
        },
    }
}

fn read_reply(
    alloc: Global,
    link: &mut MemSource,
    head_only: bool,
    limit: u64,
) -> Result<Came, Memory> {
    match read_response(alloc, link, head_only, limit) {
        Ok(reply) => Ok(Came::Reply(reply, count_left(link))),
        Err(WireFault::Memory) => Err(Memory),
        Err(why) => Ok(Came::Fault(why)),
    }
}

/// A source of these bytes, in pieces of so many, or as they are asked for, whose read with this
/// number fails: they count from 1.
pub fn source(alloc: Global, bytes: &[u8], piece: u64, failing: u64) -> Result<MemSource, Memory> {
    let mut fails = List::new(alloc);
    fails.push(failing)?;
    let mut pieces = List::new(alloc);
    if piece > 0 {
        for _ in bytes {
            pieces.push(piece)?;
        }
    }
    MemSource::new(alloc, Bytes::of(alloc, bytes)?, pieces, fails)
}

/// How many bytes are left, up to a thousand.
pub fn count_left(link: &mut MemSource) -> u64 {
    let mut buf = [0u8; 1];
    for count in 0..1000u64 {
        match link.read(&mut buf) {
            Ok(0) | Err(_) => return count,
            Ok(_) => {}
        }
    }
    1000
}

/// What it came to, as it is printed: a long text is told by its length and its sum.
pub fn told(alloc: Global, read: &Came) -> Result<String, Memory> {
    let text = outcome(alloc, read)?;
    if text.len() <= 2000 {
        return Ok(text);
    }
    let sum = sum(text.as_bytes());
    Ok(format!(in alloc; "{} characters with the sum {sum}", text.len())?)
}

// A number that tells one text from another.
fn sum(bytes: &[u8]) -> u64 {
    let mut sum = 0u64;
    for byte in bytes {
        sum = sum.wrapping_mul(31).wrapping_add(*byte as u64);
    }
    sum
}

// What it came to.
fn outcome(alloc: Global, read: &Came) -> Result<String, Memory> {
    match read {
        Came::Reply(reply, left) => {
            let lines = lines(alloc, reply.heads.view())?;
            let body = hex(alloc, reply.body.view())?;
            Ok(format!(in alloc; "{} {lines} {body} left {left}", reply.status)?)
        }
        Came::Request(request, left) => {
            let verb = name(request.verb);
            let target = hex(alloc, request.target.view())?;
            let lines = lines(alloc, request.heads.view())?;
            let body = hex(alloc, request.body.view())?;
            Ok(format!(in alloc; "{verb} {target} {lines} {body} left {left}")?)
        }
        Came::Nothing => Ok(format!(in alloc; "nothing")?),
        Came::Fault(why) => fault(alloc, *why),
    }
}

fn name(verb: Verb) -> &'static str {
    match verb {
        Verb::Get => "GET",
        Verb::Head => "HEAD",
        Verb::Post => "POST",
        Verb::Put => "PUT",
        Verb::Patch => "PATCH",
        Verb::Delete => "DELETE",
        Verb::Other => "other",
    }
}

// A fault; where a malformed message is refused isn't fixed.
fn fault(alloc: Global, why: WireFault) -> Result<String, Memory> {
    match why {
        WireFault::Failed => Ok(format!(in alloc; "failed")?),
        WireFault::Malformed { at: _ } => Ok(format!(in alloc; "malformed")?),
        WireFault::Ended { at } => Ok(format!(in alloc; "ended {at}")?),
        WireFault::TooLong { len } => Ok(format!(in alloc; "too long {len}")?),
        WireFault::Memory => Ok(format!(in alloc; "memory")?),
    }
}

// The field lines, each behind a full stop.
fn lines(alloc: Global, heads: &[Head]) -> Result<String, Memory> {
    let mut text = format!(in alloc; "lines")?;
    for head in heads {
        let name = hex(alloc, head.name.view())?;
        let value = hex(alloc, head.value.view())?;
        text.push_str(format!(in alloc; ".{name}:{value}")?.as_str())?;
    }
    Ok(text)
}

/// Bytes in hexadecimal, behind `x`.
pub fn hex(alloc: Global, bytes: &[u8]) -> Result<String, Memory> {
    let mut text = format!(in alloc; "x")?;
    for byte in bytes {
        text.push_str(format!(in alloc; "{byte:02x}")?.as_str())?;
    }
    Ok(text)
}
