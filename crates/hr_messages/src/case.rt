//! A case, as a line says it.
use hr_base::{Bytes, Memory};
use hr_text::{read_hex, read_number};
use std::alloc::Global;

/// What is read.
#[derive(Clone, Copy)]
pub enum Kind {
    /// A reply to a request other than `HEAD`.
    Reply,
    /// A reply to a `HEAD` request.
    Head,
    Request,
}

/// A message, and how it is read.
#[derive(Drop)]
pub struct Case {
    pub kind: Kind,
    /// How many bytes the body may have.
    pub limit: u64,
    pub bytes: Bytes,
    /// Whether it is not cut off, and its link doesn't fail.
    pub long: bool,
}

/// The case that a line says, or `None` where it says none.
pub fn read_case(alloc: Global, line: &str) -> Result<Option<Case>, Memory> {
    match line.strip_prefix("long ") {
        Some(line) => read_form(alloc, line, true),
        None => read_form(alloc, line, false),
    }
}

// The case that a line says behind the word for a long one.
fn read_form(alloc: Global, line: &str, long: bool) -> Result<Option<Case>, Memory> {
    let Some((kind, rest)) = line.split_once(' ') else {
        return Ok(None);
    };
    let Some((limit, bytes)) = rest.split_once(' ') else {
        return Ok(None);
    };
    let (Some(kind), Some(limit)) = (kind_of(kind), read_number(limit.as_bytes())) else {
        return Ok(None);
    };
    let bytes = if long {
        read_parts(alloc, bytes)?
    } else {
        read_hex(alloc, bytes.as_bytes())?
    };
    match bytes {
        Some(bytes) => Ok(Some(Case {
            kind,
            limit,
            bytes,
            long,
        })),
        None => Ok(None),
    }
}

// The bytes that parts spell: each is `COUNT*BYTES`, these bytes so many times.
fn read_parts(alloc: Global, parts: &str) -> Result<Option<Bytes>, Memory> {
    let mut all = Vec::new(alloc);
    for part in parts.split_whitespace() {
        match read_part(alloc, part)? {
            Some((count, bytes)) => repeat(&mut all, count, bytes.view())?,
            None => return Ok(None),
        }
    }
    Ok(Some(Bytes::from(all)))
}

// How often a part has its bytes, and these.
fn read_part(alloc: Global, part: &str) -> Result<Option<(u64, Bytes)>, Memory> {
    let Some((count, bytes)) = part.split_once('*') else {
        return Ok(None);
    };
    match (
        read_number(count.as_bytes()),
        read_hex(alloc, bytes.as_bytes())?,
    ) {
        (Some(count), Some(bytes)) => Ok(Some((count, bytes))),
        _ => Ok(None),
    }
}

fn repeat(all: &mut Vec<u8>, count: u64, bytes: &[u8]) -> Result<(), Memory> {
    for _ in 0..count {
        all.extend_from_slice(bytes)?;
    }
    Ok(())
}

fn kind_of(word: &str) -> Option<Kind> {
    match word {
        "reply" => Some(Kind::Reply),
        "head" => Some(Kind::Head),
        "request" => Some(Kind::Request),
        _ => None,
    }
}
