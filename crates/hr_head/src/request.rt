//! The head of a request (RFC 9112, sections 2 to 5).
ghost use Rattle.std.specs.Prelude.{◌≡◌, ◌≢◌, ◌<◌, ◌≤◌, length, IfOk, IfErr, IfSome, OnOk, Ok, Some, None};
ghost use Rattle.httparse.specs.Grammar.{HasNoRequest, MayBecomeRequest};
ghost use Rattle.hr_body.specs.Fault.{FailsByDevice};
ghost use Rattle.hr_body.specs.Reading.{WhereTold};
ghost use Rattle.hr_cause.specs.Stream.{IsEnded};
ghost use Rattle.hr_head.specs.Fault.{RefusedSoFar};
ghost use Rattle.hr_head.specs.Request.{BeginNoRequest, IsRequestHead, LooksRequest, RequestFault};

use crate::ending::Ending;
use crate::field::{FIELD_LIMIT, HEAD_LIMIT, fields_of};
use crate::taking::take_byte;
use crate::verb::{Verb, verb_of};
use hr_base::{Bytes, List};
use hr_body::{WireFault, read_byte};
use hr_cause::Source;
use hr_frame::Head;
use httparse::Status;
use httparse::spans::{EMPTY_HEADER_SPAN, parse_request};
use std::alloc::Global;

/// What the head of a request says.
#[derive(Debug, Drop, PartialEq, Eq)]
pub struct RequestHead {
    pub verb: Verb,
    /// The request target as it was written, UTF-8 of at least one byte (RFC 9112, section 3.2).
    pub target: Bytes,
    /// The field lines in their order, at most 100.
    pub heads: List<Head>,
    /// How many bytes the head has, the empty line at its end counted: at most 65,536.
    pub len: usize,
}

// What the bytes so far come to: a head at their front, or none yet.
fn look(alloc: Global, buf: &[u8]) -> Result<Option<RequestHead>, WireFault>
    ensures looks { LooksRequest buf.now result }
    ensures len { IfOk result (λ found. IfSome found (λ head. head.len ≤ length buf.now)) }
{
    let mut headers = [EMPTY_HEADER_SPAN; FIELD_LIMIT];
    match parse_request(buf, &mut headers) {
        Ok(Status::Complete(spans)) => {
            let verb = verb_of(spans.method.of(buf));
            let target = Bytes::of(alloc, spans.path.of(buf))?;
            let heads = fields_of(alloc, buf, &headers[..spans.headers])?;
            Ok(Some(RequestHead {
                verb,
                target,
                heads,
                len: spans.len,
            }))
        }
        Ok(Status::Partial) => Ok(None),
        Err(_) => Err(WireFault::Malformed {
            at: buf.len() as u64,
        }),
    }
}

// The same where the bytes end in an empty line, as each head does, and else none yet.
fn look_at_end(alloc: Global, buf: &[u8], ending: Ending) -> Result<Option<RequestHead>, WireFault>
    ensures found { IfOk result (λ found. IfSome found (λ head.
        LooksRequest buf.now (Ok (Some head)) × (head.len ≤ length buf.now))) }
    ensures none { IfOk result (λ found.
        found ≡ None → ending ≡ Ending.Empty → HasNoRequest buf.now) }
    ensures err { IfErr result (RefusedSoFar BeginNoRequest buf.now) }
{
    if !ending.is_empty_line() {
        return Ok(None);
    }
    match look(alloc, buf) {
        Ok(found) => Ok(found),
        Err(why) => Err(why),
    }
}

// Whether bytes that hold no head may go on to one.
fn check_open(alloc: Global, buf: &[u8]) -> Result<(), WireFault>
    requires { HasNoRequest buf.now }
    ensures ok { OnOk result (MayBecomeRequest buf.now) }
    ensures err { IfErr result (RefusedSoFar BeginNoRequest buf.now) }
{
    match look(alloc, buf)? {
        Some(_) => unreachable!(),
        None => Ok(()),
    }
}

// Why bytes that hold no head, and are all that was left, are none.
fn cut_off(alloc: Global, buf: &[u8]) -> WireFault
    requires none { HasNoRequest buf.now }
    requires some { 0 < length buf.now }
    requires short { length buf.now ≤ HEAD_LIMIT }
    ensures fault { RequestFault buf.now result }
    ensures not_failed { result ≢ WireFault.Failed }
{
    match check_open(alloc, buf) {
        Ok(()) => WireFault::Ended {
            at: buf.len() as u64,
        },
        Err(why) => why,
    }
}

/// The head of a request, taken off the device up to its end, or `None` where the device ended
/// before the first byte. `Malformed` comes where no continuation of the bytes so far begins with a
/// head of at most 100 lines, `Ended` where the device ended within a head, or within what may be a
/// target, `TooLong` where 65,536 bytes begin a head and hold none, and another follows. A head is
/// looked for where the bytes end in an empty line, at the limit and at the end.
pub fn read_request_head<L: Source>(
    alloc: Global,
    link: &mut L,
) -> Result<Option<RequestHead>, WireFault>
    ensures some { IfOk result (λ found. IfSome found (λ head.
        WhereTold (L.left link.old) (L.left link.new)
        (λ bytes rest. IsRequestHead bytes head rest))) }
    ensures none { IfOk result (λ found. found ≡ None
        → IsEnded (L.left link.old) × (L.left link.new ≡ L.left link.old)) }
    ensures len { IfOk result (λ found. IfSome found (λ head. head.len ≤ HEAD_LIMIT)) }
    ensures err { IfErr result (λ why. IfSome (L.left link.old) (λ bytes. RequestFault bytes why)) }
    ensures sent { L.sent link.new ≡ L.sent link.old }
    ensures cause { FailsByDevice (L.faults link.old) (L.faults link.new) result }
{
    let mut buf = Vec::new(alloc);
    let mut ending = Ending::Lead;
    'bytes: while buf.len() < HEAD_LIMIT {
        let Some(next) = take_byte(link, &mut buf, ending)? else {
            if buf.is_empty() {
                return Ok(None);
            }
            return Err(cut_off(alloc, &buf));
        };
        ending = next;
        if let Some(head) = look_at_end(alloc, &buf, ending)? {
            return Ok(Some(head));
        }
    }
    let more = read_byte(link)?;
    check_open(alloc, &buf)?;
    match more {
        None => Err(WireFault::Ended {
            at: buf.len() as u64,
        }),
        Some(_) => Err(WireFault::TooLong {
            len: HEAD_LIMIT as u64 + 1,
        }),
    }
}
