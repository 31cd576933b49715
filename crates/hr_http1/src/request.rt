//! Requests read off a device (RFC 9112, sections 3 and 6.3).
ghost use Rattle.std.specs.Prelude.{◌≡◌, ◌≤◌, length, IfOk, IfErr, IfSome, IfNone};
ghost use Rattle.hr_body.specs.Fault.{FailsByDevice};
ghost use Rattle.hr_body.specs.Reading.{WhereTold};
ghost use Rattle.hr_cause.specs.Stream.{IsEnded};
ghost use Rattle.hr_http1.specs.Request.{RequestLost, SpellsRequest};

use crate::Request;
use crate::content::read_body;
use crate::laws::bodies_are_read_by_their_framing;
use hr_body::WireFault;
use hr_cause::Source;
use hr_frame::request_framing;
use hr_head::read_request_head;
use std::alloc::Global;

/// A request, taken off the device to its last byte, or `None` where the device ended before the
/// first byte. Its body has at most `limit` bytes: `TooLong` comes where more are announced or
/// come. `Failed`, `Malformed` and `Ended` come as `WireFault` says, and `Ended` also where the
/// device ended within what may be a target.
pub fn read_request<L: Source>(
    alloc: Global,
    link: &mut L,
    limit: u64,
) -> Result<Option<Request>, WireFault>
    ensures some { IfOk result (λ found. IfSome found (λ request.
        WhereTold (L.left link.old) (L.left link.new)
        (λ bytes rest. SpellsRequest bytes request rest))) }
    ensures none { IfOk result (λ found. IfNone found
        (IsEnded (L.left link.old) × (L.left link.new ≡ L.left link.old))) }
    ensures within { IfOk result (λ found. IfSome found (λ request. length request.body ≤ limit)) }
    ensures err { IfErr result (λ why.
        IfSome (L.left link.old) (λ bytes. RequestLost limit bytes why)) }
    ensures sent { L.sent link.new ≡ L.sent link.old }
    ensures cause { FailsByDevice (L.faults link.old) (L.faults link.new) result }
{
    bodies_are_read_by_their_framing();
    let Some(head) = read_request_head(alloc, link)? else {
        return Ok(None);
    };
    let at = head.len as u64;
    let Some(framing) = request_framing(head.heads.view()) else {
        return Err(WireFault::Malformed { at });
    };
    let body = read_body(alloc, link, framing, at, limit)?;
    Ok(Some(Request {
        verb: head.verb,
        target: head.target,
        heads: head.heads,
        body,
    }))
}
