//! The bodies of messages, in the framing that the head says (RFC 9112, section 6.3).
ghost use Rattle.std.specs.Prelude.{◌≡◌, ◌≤◌, length, ℕ, IfOk, IfErr, IfSome};
ghost use Rattle.hr_body.specs.Fault.{FailsByDevice};
ghost use Rattle.hr_body.specs.Reading.{IsFresh, WhereTold};
ghost use Rattle.hr_http1.specs.Body.{start_of, BodyFault, IsAnnounced, ReadsBody};

use crate::laws::bodies_are_read_by_their_framing;
use hr_base::Bytes;
use hr_body::{Body, WireFault, read_whole};
use hr_cause::Source;
use hr_frame::Framing;
use std::alloc::Global;

/// The body in this framing, behind heads of `at` bytes, of which nothing is read yet. It may have
/// `limit` bytes: `TooLong` comes where more are announced.
pub(crate) fn body_in(framing: Framing, at: u64, limit: u64) -> Result<Body, WireFault>
    ensures ok { IfOk result (λ body. IsFresh body (start_of framing) at limit) }
    ensures err { IfErr result (λ why.
        (len : ℕ) × (why ≡ WireFault.TooLong len) × IsAnnounced framing limit len) }
{
    match framing {
        Framing::NoBody => Body::sized(0, at, limit),
        Framing::Sized { len } => Body::sized(len, at, limit),
        Framing::Chunked => Ok(Body::chunked(at, limit)),
        Framing::ToEnd => Ok(Body::to_end(at, limit)),
    }
}

/// The whole body in this framing, behind heads of `at` bytes, with at most `limit` bytes.
pub(crate) fn read_body<L: Source>(
    alloc: Global,
    link: &mut L,
    framing: Framing,
    at: u64,
    limit: u64,
) -> Result<Bytes, WireFault>
    ensures ok { IfOk result (λ body. WhereTold (L.left link.old) (L.left link.new)
        (λ bytes rest. ReadsBody framing bytes body rest)) }
    ensures within { IfOk result (λ body. length body ≤ limit) }
    ensures err { IfErr result (λ why. IfSome (L.left link.old) (λ bytes.
        BodyFault framing at limit bytes why)) }
    ensures sent { L.sent link.new ≡ L.sent link.old }
    ensures cause { FailsByDevice (L.faults link.old) (L.faults link.new) result }
{
    bodies_are_read_by_their_framing();
    let mut body = body_in(framing, at, limit)?;
    let all = read_whole(alloc, link, &mut body)?;
    Ok(Bytes::from(all))
}
