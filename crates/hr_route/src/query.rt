//! The queries of targets (RFC 3986, section 3.4; WHATWG URL, "application/x-www-form-urlencoded"),
//! by their pairs as they stand there. A key is compared as it stands, and one that counts stands
//! once at most.
ghost use Rattle.std.specs.Prelude.{◌≡◌, ◌++◌, ◌∷◌, List, IfOk, OnOk, codes, map, option_copied};
ghost use Rattle.form_urlencoded.specs.Form.{decode, plus_to_space};
ghost use Rattle.hr_base.specs.Bytes.{Text};
ghost use Rattle.hr_route.specs.Found.{IsFound};
ghost use Rattle.hr_route.specs.Query.{digest_asked, last_asked, marked, others, page_in, page_value, pieces, query_of};
ghost use Rattle.hr_route.specs.Query.{value_of, values_of};

use crate::Found;
use crate::part::unescaped;
use hr_base::{Bytes, Memory};
use hr_call::read_digest;
use hr_digest::Digest;
use hr_frame::read_length;
use hr_text::cut;
use std::alloc::{AllocError, Global};

/// How many items a page has where a query doesn't say it.
pub const PAGE: u64 = 1_000;

/// How many items a query may ask for at most.
pub const PAGE_LIMIT: u64 = 10_000;

/// How many items at most a target asks for by its key `n`: `PAGE` without the key, else 1 to
/// `PAGE_LIMIT`. `None` where the value is anything else, or the key stands twice.
pub fn page_size(target: &[u8]) -> Option<u64>
    ensures { result ≡ page_in (query_of target.now) }
{
    match find_value(query_in(target), b"n") {
        Found::Absent => Some(PAGE),
        Found::One(value) => page_of(value),
        Found::Many => None,
    }
}

fn page_of(value: &[u8]) -> Option<u64>
    ensures { result ≡ page_value value.now }
{
    let size = read_length(value)?;
    if 1 <= size && size <= PAGE_LIMIT {
        Some(size)
    } else {
        None
    }
}

/// The query of a target, which is empty where it has none.
pub(crate) fn query_in(target: &[u8]) -> &[u8]
    ensures { result.now ≡ query_of target.now }
{
    match cut(target, b'?').1 {
        Some(query) => query,
        None => b"",
    }
}

/// The item behind which a page is to begin, by the key `last`, where a query has it. `None` where it
/// stands twice.
pub(crate) fn last_in(alloc: Global, query: &[u8]) -> Result<Option<Option<Bytes>>, Memory>
    ensures { IfOk result (λ last. last ≡ last_asked (values_of (codes "last") query.now)) }
{
    match find_value(query, b"last") {
        Found::Absent => Ok(Some(None)),
        Found::One(value) => Ok(Some(Some(Bytes::from(decoded(alloc, value)?)))),
        Found::Many => Ok(None),
    }
}

/// The digest by the key `digest`. `None` where there is none, or the key stands twice.
pub(crate) fn digest_in(alloc: Global, query: &[u8]) -> Result<Option<Digest>, Memory>
    ensures { IfOk result (λ digest. digest ≡ digest_asked (values_of (codes "digest") query.now)) }
{
    match find_value(query, b"digest") {
        Found::Absent => Ok(None),
        Found::One(value) => Ok(read_digest(&decoded(alloc, value)?)),
        Found::Many => Ok(None),
    }
}

// The bytes that a value stands for.
fn decoded(alloc: Global, value: &[u8]) -> Result<Vec<u8>, AllocError>
    ensures { IfOk result (λ bytes. bytes.items ≡ decode value.now) }
{
    let text = spaced(alloc, value)?;
    unescaped(alloc, text.as_slice())
}

// A value with a space for each `+`.
fn spaced(alloc: Global, value: &[u8]) -> Result<Vec<u8>, AllocError>
    ensures { IfOk result (λ bytes. bytes.items ≡ map plus_to_space value.now) }
{
    let mut bytes = Vec::new(alloc);
    for byte in value {
        bytes.push(if *byte == b'+' { b' ' } else { *byte })?;
    }
    Ok(bytes)
}

// The values of a key in a query.
fn find_value<'a>(query: &'a [u8], key: &[u8]) -> Found<'a>
    ensures { IsFound (values_of key.now query.now) result }
{
    let mut found = Found::Absent;
    let mut left = Some(query);
    while let Some(text) = left {
        let (piece, behind) = cut(text, b'&');
        found = found.with(value_in(piece, key));
        left = behind;
    }
    found
}

// The value of a piece of a query, where it has the key.
fn value_in<'a>(piece: &'a [u8], key: &[u8]) -> Option<&'a [u8]>
    ensures { option_copied result ≡ value_of key.now piece.now }
{
    let (name, value) = cut(piece, b'=');
    if name != key {
        return None;
    }
    match value {
        Some(value) => Some(value),
        None => Some(b""),
    }
}

/// Puts the pieces of a query that don't have the key behind a text, a `?` before the first and a `&`
/// before each other.
pub(crate) fn put_others(out: &mut Vec<u8>, query: &[u8], key: &[u8]) -> Result<(), AllocError>
    ensures { OnOk result
        (out.new.items ≡ out.old.items ++ marked 63 (others key.now (pieces query.now))) }
{
    let mut mark = b'?';
    let mut left = Some(query);
    while let Some(text) = left {
        let (piece, behind) = cut(text, b'&');
        mark = put_other(out, mark, piece, key)?;
        left = behind;
    }
    Ok(())
}

// Puts a piece behind a text, where it doesn't have the key; and the mark before the next one.
fn put_other(out: &mut Vec<u8>, mark: u8, piece: &[u8], key: &[u8]) -> Result<u8, AllocError>
    ensures { IfOk result (λ next. (rest : List Text)
        → out.new.items ++ marked next (others key.now rest)
        ≡ out.old.items ++ marked mark (others key.now (piece.now ∷ rest))) }
{
    if value_in(piece, key).is_some() {
        return Ok(mark);
    }
    out.push(mark)?;
    out.extend_from_slice(piece)?;
    Ok(b'&')
}
