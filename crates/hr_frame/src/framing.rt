//! The framing of a message's body (RFC 9112, section 6.3). Stricter than the standard are: one
//! `Content-Length` with one number, and no coding but `chunked`. (Our own.)
ghost use Rattle.std.specs.Prelude.{◌≡◌};
ghost use Rattle.hr_frame.specs.Framing.{framing_of, has_no_body, reply_framing, request_framing};

use crate::named::{Named, find_named};
use crate::{Head, read_length};

/// How the body of a message is framed.
#[derive(Clone, Copy, Debug, PartialEq, Eq)]
pub enum Framing {
    /// The message has no body.
    NoBody,
    /// The body has this many bytes, below `2^63`.
    Sized { len: u64 },
    /// The body is in chunks.
    Chunked,
    /// The body goes to the end of the connection.
    ToEnd,
}

/// Whether a reply has no body, whatever its head says: it answers a `HEAD` request, or its status
/// is 100 to 199, 204 or 304.
pub fn has_no_body(head_only: bool, status: u16) -> bool
    ensures { result ≡ has_no_body head_only status }
{
    head_only || matches!(status, 100..=199 | 204 | 304)
}

/// The framing of a reply with this status and these field lines, or `None` where they are
/// malformed; `head_only` where it answers a `HEAD` request. A reply without a body is never
/// malformed, and one with no line for its framing goes to the end.
pub fn reply_framing(head_only: bool, status: u16, heads: &[Head]) -> Option<Framing>
    ensures { result ≡ reply_framing head_only status heads.now }
{
    if has_no_body(head_only, status) {
        return Some(Framing::NoBody);
    }
    framing_by_lines(Framing::ToEnd, heads)
}

/// The framing of a request with these field lines, or `None` where they are malformed. A request
/// with no line for its framing has no body.
pub fn request_framing(heads: &[Head]) -> Option<Framing>
    ensures { result ≡ request_framing heads.now }
{
    framing_by_lines(Framing::NoBody, heads)
}

// The framing by the lines, with this one where there is none for it.
fn framing_by_lines(neither: Framing, heads: &[Head]) -> Option<Framing>
    ensures { result ≡ framing_of neither heads.now }
{
    match (
        find_named(heads, b"content-length"),
        find_named(heads, b"transfer-encoding"),
    ) {
        (Named::Absent, Named::Absent) => Some(neither),
        (Named::One(value), Named::Absent) => {
            let len = read_length(value)?;
            Some(Framing::Sized { len })
        }
        (Named::Absent, Named::One(coding)) => {
            if coding.eq_ignore_ascii_case(b"chunked") {
                Some(Framing::Chunked)
            } else {
                None
            }
        }
        _ => None,
    }
}
