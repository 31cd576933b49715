//! Ranges of bytes, as uploads write them (OCI Distribution 1.1, "Pushing a blob in chunks").
ghost use Rattle.std.specs.Prelude.{◌≡◌, ◌<◌, ◌^◌, IfOk, IfSome, codes, length};
ghost use Rattle.hr_frame.specs.Named.{values_named};
ghost use Rattle.hr_wire.specs.Range.{first_of, from_asked, range_of, range_text};

use crate::lines::find_line;
use hr_base::{Bytes, Memory};
use hr_frame::read_length;
use hr_http1::Head;
use hr_route::Found;
use hr_text::cut;
use std::alloc::Global;

/// The text of the range from one place to another.
pub(crate) fn range_text(alloc: Global, first: u64, last: u64) -> Result<Bytes, Memory>
    ensures { IfOk result (λ text. text ≡ range_text first last) }
{
    let first = first.to_string(alloc)?;
    let last = last.to_string(alloc)?;
    let mut text = Vec::new(alloc);
    text.extend_from_slice(first.as_bytes())?;
    text.push(b'-')?;
    text.extend_from_slice(last.as_bytes())?;
    Ok(Bytes::from(text))
}

/// The places of the first and of the last byte that a text writes, each below `2^63`, or `None` where
/// it writes none.
pub(crate) fn read_range(text: &[u8]) -> Option<(u64, u64)>
    ensures told { result ≡ range_of text.now }
    ensures small { IfSome result (λ places. places.1 < 2 ^ 63) }
{
    let (first, last) = cut(text, b'-');
    let last = last?;
    let first = read_length(first)?;
    let last = read_length(last)?;
    Some((first, last))
}

/// How many bytes an upload session has before a chunk of this length, where the line `Content-Range`
/// tells it. `None` where there are several such lines, or one that doesn't fit the length.
pub(crate) fn from_in(heads: &[Head], len: usize) -> Option<Option<u64>>
    ensures { result ≡ from_asked len (values_named (codes "content-range") heads.now) }
{
    match find_line(heads, b"content-range") {
        Found::Absent => Some(None),
        Found::One(value) => match first_of(len, read_range(value)) {
            Some(first) => Some(Some(first)),
            None => None,
        },
        Found::Many => None,
    }
}

// The place of the first byte, where so many bytes fill the range.
fn first_of(len: usize, range: Option<(u64, u64)>) -> Option<u64>
    ensures { result ≡ first_of len range }
{
    let (first, last) = range?;
    if first <= last && len > 0 && last - first == len as u64 - 1 {
        Some(first)
    } else {
        None
    }
}
