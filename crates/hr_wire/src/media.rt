//! The media type that a `Content-Type` says (RFC 9110, section 8.3).
ghost use Rattle.std.specs.Prelude.{◌≡◌, ◌↔◌, IfOk, IsTrue, codes};
ghost use Rattle.std.specs.List.{AllPass};
ghost use Rattle.hr_adapter.specs.Media.{FitsHeader, is_header_byte};
ghost use Rattle.hr_frame.specs.Named.{values_named};
ghost use Rattle.hr_wire.specs.Media.{media_asked, plain_said, type_said};

use crate::lines::find_line;
use hr_base::{Bytes, Memory};
use hr_http1::Head;
use hr_route::Found;
use hr_text::cut;
use std::alloc::Global;

/// How many bytes a plain media type has at most. (Our own.)
pub const MEDIA_LIMIT: usize = 255;

/// Whether a media type is plain: 1 to `MEDIA_LIMIT` visible bytes of ASCII, and no `;`.
pub fn is_plain(media: &[u8]) -> bool
    ensures { IsTrue result ↔ FitsHeader media.now }
{
    !media.is_empty() && media.len() <= MEDIA_LIMIT && are_header_bytes(media)
}

fn are_header_bytes(media: &[u8]) -> bool
    ensures { IsTrue result ↔ AllPass is_header_byte media.now }
{
    media.iter().all(|byte| is_header_byte(*byte))
}

// Whether a byte is visible ASCII, and no `;`.
fn is_header_byte(byte: u8) -> bool
    ensures { result ≡ is_header_byte byte }
{
    (33..=126).contains(&byte) && byte != b';'
}

/// The plain media type by the line `Content-Type`, or `None` where there is none, or several.
pub(crate) fn media_in(alloc: Global, heads: &[Head]) -> Result<Option<Bytes>, Memory>
    ensures { IfOk result
        (λ media. media ≡ media_asked (values_named (codes "content-type") heads.now)) }
{
    match find_line(heads, b"content-type") {
        Found::Absent => Ok(None),
        Found::One(value) => plain_said(alloc, value),
        Found::Many => Ok(None),
    }
}

// The plain media type that a value says.
fn plain_said(alloc: Global, value: &[u8]) -> Result<Option<Bytes>, Memory>
    ensures { IfOk result (λ media. media ≡ plain_said value.now) }
{
    let media = type_said(value);
    if is_plain(media) {
        Ok(Some(Bytes::of(alloc, media)?))
    } else {
        Ok(None)
    }
}

/// What a value says before its parameters, without the blanks at its ends.
pub(crate) fn type_said(value: &[u8]) -> &[u8]
    ensures { result.now ≡ type_said value.now }
{
    cut(value, b';').0.trim_ascii()
}
