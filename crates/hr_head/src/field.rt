//! The limits of heads, and their field lines (RFC 9112, section 5).
ghost use Rattle.std.specs.Prelude.{◌≡◌, length, map, All, IfOk};
ghost use Rattle.httparse.specs.Spans.{header_bytes, IsHeaderWithin};
ghost use Rattle.hr_head.specs.Field.{pair_of};

use hr_base::{Bytes, List, Memory};
use hr_frame::Head;
use httparse::spans::HeaderSpan;
use std::alloc::Global;

/// How many bytes a head has at most. (Our own.)
pub const HEAD_LIMIT: usize = 65_536;

/// How many field lines a head has at most. (Our own.)
pub const FIELD_LIMIT: usize = 100;

/// The field lines that the spans cover.
pub(crate) fn fields_of(
    alloc: Global,
    buf: &[u8],
    spans: &[HeaderSpan],
) -> Result<List<Head>, Memory>
    requires { All (IsHeaderWithin (length buf.now)) spans.now }
    ensures { IfOk result (λ heads. map pair_of heads ≡ map (header_bytes buf.now) spans.now) }
{
    let mut heads = List::new(alloc);
    for span in spans {
        let name = Bytes::of(alloc, span.name.of(buf))?;
        let value = Bytes::of(alloc, span.value.of(buf))?;
        heads.push(Head { name, value })?;
    }
    Ok(heads)
}
