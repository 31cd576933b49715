//! Replies read off a device: whole, or with a body that is read in pieces (RFC 9112, sections 4
//! and 6.3).
ghost use Rattle.std.specs.Prelude.{◌≡◌, ◌≤◌, length, None, IfOk, IfErr, IfSome, ℕ};
ghost use Rattle.hr_body.specs.Fault.{FailsByDevice};
ghost use Rattle.hr_body.specs.Reading.{WhereTold};
ghost use Rattle.hr_http1.specs.declared.response.TheConstants.{BODY_LIMIT};
ghost use Rattle.hr_http1.specs.Reply.{HasFramed, OpensReply, ReplyLost, SpellsReply};

use crate::Reply;
use crate::content::{body_in, read_body};
use crate::laws::bodies_are_read_by_their_framing;
use crate::passing::read_last_head;
use hr_base::Bytes;
use hr_body::{Body, WireFault};
use hr_cause::Source;
use hr_frame::{Framing, reply_framing};
use hr_head::ReplyHead;
use std::alloc::Global;

/// How many bytes a body has at most that is read in pieces. (Our own.)
pub const BODY_LIMIT: u64 = (1 << 63) - 1;

// The head of a reply, its framing, and how many bytes it has with those before it.
fn read_framed<L: Source>(
    alloc: Global,
    link: &mut L,
    head_only: bool,
) -> Result<(ReplyHead, Framing, u64), WireFault>
    ensures ok { IfOk result (λ found. WhereTold (L.left link.old) (L.left link.new)
        (λ bytes rest. HasFramed head_only bytes found.0 found.1 found.2 rest)) }
    ensures err { IfErr result (λ why. (limit : ℕ)
        → IfSome (L.left link.old) (λ bytes. ReplyLost head_only limit bytes why)) }
    ensures sent { L.sent link.new ≡ L.sent link.old }
    ensures cause { FailsByDevice (L.faults link.old) (L.faults link.new) result }
{
    let (head, at) = read_last_head(alloc, link)?;
    match reply_framing(head_only, head.status, head.heads.view()) {
        Some(framing) => Ok((head, framing, at)),
        None => Err(WireFault::Malformed { at }),
    }
}

/// A reply, taken off the device to its last byte; `head_only` where it answers a `HEAD` request.
/// Interim replies are passed over. Its body has at most `limit` bytes: `TooLong` comes where more
/// are announced or come. `Failed`, `Malformed` and `Ended` come as `WireFault` says, with places
/// from the first byte of the first head, interim replies counted.
pub fn read_response<L: Source>(
    alloc: Global,
    link: &mut L,
    head_only: bool,
    limit: u64,
) -> Result<Reply, WireFault>
    ensures ok { IfOk result (λ reply. WhereTold (L.left link.old) (L.left link.new)
        (λ bytes rest. SpellsReply head_only bytes reply rest)) }
    ensures within { IfOk result (λ reply. length reply.body ≤ limit) }
    ensures err { IfErr result (λ why.
        IfSome (L.left link.old) (λ bytes. ReplyLost head_only limit bytes why)) }
    ensures sent { L.sent link.new ≡ L.sent link.old }
    ensures cause { FailsByDevice (L.faults link.old) (L.faults link.new) result }
{
    bodies_are_read_by_their_framing();
    let (head, framing, at) = read_framed(alloc, link, head_only)?;
    let body = read_body(alloc, link, framing, at, limit)?;
    Ok(Reply {
        status: head.status,
        heads: head.heads,
        body,
    })
}

/// The heads of a reply, taken off the device to their last byte: the reply with no bytes of its
/// body, and the body, which is to be read off the same device. It may have `2^63 - 1` bytes. The
/// faults come as at `read_response`.
pub fn open_response<L: Source>(
    alloc: Global,
    link: &mut L,
    head_only: bool,
) -> Result<(Reply, Body), WireFault>
    ensures ok { IfOk result (λ opened. WhereTold (L.left link.old) (L.left link.new)
        (λ bytes rest. OpensReply head_only BODY_LIMIT bytes opened.0 opened.1 rest)) }
    ensures unread { IfOk result (λ opened. opened.1.kept ≡ None) }
    ensures err { IfErr result (λ why.
        IfSome (L.left link.old) (λ bytes. ReplyLost head_only BODY_LIMIT bytes why)) }
    ensures sent { L.sent link.new ≡ L.sent link.old }
    ensures cause { FailsByDevice (L.faults link.old) (L.faults link.new) result }
{
    let (head, framing, at) = read_framed(alloc, link, head_only)?;
    let body = body_in(framing, at, BODY_LIMIT)?;
    let reply = Reply {
        status: head.status,
        heads: head.heads,
        body: Bytes::from(Vec::new(alloc)),
    };
    Ok((reply, body))
}
