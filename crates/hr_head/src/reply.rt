//! The head of a reply (RFC 9112, sections 2 to 5).
ghost use Rattle.std.specs.Prelude.{◌≡◌, ◌≤◌, length, IfOk, IfErr, IfSome, OnOk, Ok, Some, None};
ghost use Rattle.httparse.specs.Grammar.{HasNoResponse, MayBecomeResponse};
ghost use Rattle.hr_body.specs.Fault.{FailsByDevice};
ghost use Rattle.hr_body.specs.Reading.{WhereTold};
ghost use Rattle.hr_head.specs.Fault.{RefusedSoFar};
ghost use Rattle.hr_head.specs.Reply.{BeginNoReply, IsReplyHead, LooksReply, ReplyFault};

use crate::ending::Ending;
use crate::field::{FIELD_LIMIT, HEAD_LIMIT, fields_of};
use crate::taking::take_byte;
use hr_base::List;
use hr_body::{WireFault, read_byte};
use hr_cause::Source;
use hr_frame::Head;
use httparse::Status;
use httparse::spans::{EMPTY_HEADER_SPAN, parse_response};
use std::alloc::Global;

/// What the head of a reply says.
#[derive(Debug, Drop, PartialEq, Eq)]
pub struct ReplyHead {
    /// The status code, of three digits, 0 to 999.
    pub status: u16,
    /// The field lines in their order, at most 100.
    pub heads: List<Head>,
    /// How many bytes the head has, the empty line at its end counted: at most 65,536.
    pub len: usize,
}

// What the bytes so far come to: a head at their front, or none yet.
fn look(alloc: Global, buf: &[u8]) -> Result<Option<ReplyHead>, WireFault>
    ensures looks { LooksReply buf.now result }
    ensures len { IfOk result (λ found. IfSome found (λ head. head.len ≤ length buf.now)) }
{
    let mut headers = [EMPTY_HEADER_SPAN; FIELD_LIMIT];
    match parse_response(buf, &mut headers) {
        Ok(Status::Complete(spans)) => {
            let heads = fields_of(alloc, buf, &headers[..spans.headers])?;
            Ok(Some(ReplyHead {
                status: spans.code,
                heads,
                len: spans.len,
            }))
        }
        Ok(Status::Partial) => Ok(None),
        Err(_) => Err(WireFault::Malformed {
            at: buf.len() as u64,
        }),
    }
}

// The same where the bytes end in an empty line, as each head does, and else none yet.
fn look_at_end(alloc: Global, buf: &[u8], ending: Ending) -> Result<Option<ReplyHead>, WireFault>
    ensures found { IfOk result (λ found. IfSome found (λ head.
        LooksReply buf.now (Ok (Some head)) × (head.len ≤ length buf.now))) }
    ensures none { IfOk result (λ found.
        found ≡ None → ending ≡ Ending.Empty → HasNoResponse buf.now) }
    ensures err { IfErr result (RefusedSoFar BeginNoReply buf.now) }
{
    if !ending.is_empty_line() {
        return Ok(None);
    }
    match look(alloc, buf) {
        Ok(found) => Ok(found),
        Err(why) => Err(why),
    }
}

// Whether bytes that hold no head may go on to one.
fn check_open(alloc: Global, buf: &[u8]) -> Result<(), WireFault>
    requires { HasNoResponse buf.now }
    ensures ok { OnOk result (MayBecomeResponse buf.now) }
    ensures err { IfErr result (RefusedSoFar BeginNoReply buf.now) }
{
    match look(alloc, buf)? {
        Some(_) => unreachable!(),
        None => Ok(()),
    }
}

/// The head of a reply, taken off the device up to its end. `Malformed` comes where no continuation
/// of the bytes so far begins with a head of at most 100 lines, `Ended` where the device ended within
/// a head, `TooLong` where 65,536 bytes begin a head and hold none, and another follows. A head is
/// looked for where the bytes end in an empty line, at the limit and at the end.
pub fn read_reply_head<L: Source>(alloc: Global, link: &mut L) -> Result<ReplyHead, WireFault>
    ensures ok { IfOk result (λ head. WhereTold (L.left link.old) (L.left link.new)
        (λ bytes rest. IsReplyHead bytes head rest)) }
    ensures len { IfOk result (λ head. head.len ≤ HEAD_LIMIT) }
    ensures err { IfErr result (λ why. IfSome (L.left link.old) (λ bytes. ReplyFault bytes why)) }
    ensures sent { L.sent link.new ≡ L.sent link.old }
    ensures cause { FailsByDevice (L.faults link.old) (L.faults link.new) result }
{
    let mut buf = Vec::new(alloc);
    let mut ending = Ending::Lead;
    'bytes: while buf.len() < HEAD_LIMIT {
        let Some(next) = take_byte(link, &mut buf, ending)? else {
            check_open(alloc, &buf)?;
            return Err(WireFault::Ended {
                at: buf.len() as u64,
            });
        };
        ending = next;
        if let Some(head) = look_at_end(alloc, &buf, ending)? {
            return Ok(head);
        }
    }
    let more = read_byte(link)?;
    check_open(alloc, &buf)?;
    match more {
        None => Err(WireFault::Ended {
            at: buf.len() as u64,
        }),
        Some(_) => Err(WireFault::TooLong {
            len: HEAD_LIMIT as u64 + 1,
        }),
    }
}
