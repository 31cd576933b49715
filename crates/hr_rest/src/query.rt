//! The queries of targets (RFC 3986, section 3.4; WHATWG URL, "application/x-www-form-urlencoded"),
//! by their pairs as they stand there. Of a repeated key the first counts.
ghost use Rattle.std.specs.Prelude.{◌≡◌, codes, option_copied};
ghost use Rattle.hr_rest.specs.Query.{page_by, paging_of, size_by, value_in, value_of};

use crate::number::{page_in, size_in};
use hr_text::cut;

// How many items a page has where a query doesn't say it.
const PAGE: u32 = 10;

/// The page that a query asks for, by its keys `page` and `page_size`: its number, from 1, and how
/// many items it has at most. `None` where one of them is bad.
pub(crate) fn paging_of(query: &[u8]) -> Option<(u32, u32)>
    ensures { result ≡ paging_of query.now }
{
    let page = page_by(value_in(query, b"page"))?;
    let size = size_by(value_in(query, b"page_size"))?;
    Some((page, size))
}

fn page_by(value: Option<&[u8]>) -> Option<u32>
    ensures { result ≡ page_by (option_copied value.entry) }
{
    match value {
        Some(value) => page_in(value),
        None => Some(1),
    }
}

fn size_by(value: Option<&[u8]>) -> Option<u32>
    ensures { result ≡ size_by (option_copied value.entry) }
{
    match value {
        Some(value) => size_in(value),
        None => Some(PAGE),
    }
}

// The first value of a key in a query.
fn value_in<'a>(query: &'a [u8], key: &[u8]) -> Option<&'a [u8]>
    ensures { option_copied result ≡ value_in key.now query.now }
{
    let mut left = Some(query);
    while let Some(text) = left {
        let (piece, behind) = cut(text, b'&');
        if let Some(value) = value_of(piece, key) {
            return Some(value);
        }
        left = behind;
    }
    None
}

// The value of a piece of a query, where it has the key.
fn value_of<'a>(piece: &'a [u8], key: &[u8]) -> Option<&'a [u8]>
    ensures { option_copied result ≡ value_of key.now piece.now }
{
    let (name, value) = cut(piece, b'=');
    if name != key {
        return None;
    }
    match value {
        Some(value) => Some(value),
        None => Some(b""),
    }
}
