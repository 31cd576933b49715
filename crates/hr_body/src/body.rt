//! A body that is read in pieces (RFC 9112, section 6.3).
ghost use Rattle.std.specs.Prelude.{◌≡◌, ◌≢◌, ◌<◌, ◌≤◌, ◌-◌, ◌^◌, ◌↔◌, length, take, None, Ok, Err, true, false, IfOk, IfErr, IfSome};
ghost use Rattle.hr_body.specs.Fault.{FailsByDevice};
ghost use Rattle.hr_body.specs.Reading.{GaveOf, IsFresh, LostOf};
ghost use Rattle.hr_body.specs.Stage.{chunked_start};

use crate::piece::read_piece;
use crate::stepping::is_done;
use crate::{Coding, LINE_LIMIT, Part, Stage, WireFault};
use hr_cause::Source;

/// What is still to come of a body. It holds no bytes: each read takes those that it needs off the
/// device, and none behind the body.
#[derive(Clone, Copy, Debug, PartialEq, Eq)]
pub struct Body {
    stage: Stage,
    at: u64,
    room: u64,
    limit: u64,
    kept: Option<WireFault>,
}

// A body of which nothing was read.
fn fresh(stage: Stage, at: u64, limit: u64) -> Body
    ensures { IsFresh result stage at limit }
{
    Body {
        stage,
        at,
        room: limit,
        limit,
        kept: None,
    }
}

impl Body {
    /// A body in chunks (RFC 9112, section 7.1), behind a head of `at` bytes. It may have `limit`
    /// bytes of data.
    pub fn chunked(at: u64, limit: u64) -> Body
        ensures { IsFresh result chunked_start at limit }
    {
        let part = Part::Size { count: 0, value: 0 };
        let room = LINE_LIMIT;
        fresh(Stage::Between(Coding::Line { room, part }), at, limit)
    }

    /// A body of `len` bytes, behind a head of `at` bytes. It may have `limit` bytes.
    pub fn sized(len: u64, at: u64, limit: u64) -> Result<Body, WireFault>
        ensures empty { len ≡ 0 → IfOk result (λ body. IsFresh body Stage.Done at limit) }
        ensures some { 0 < len
            → IfOk result (λ body. IsFresh body (Stage.Sized (len - 1)) at limit) }
        ensures too_long { (result ≡ Err (WireFault.TooLong len)) ↔ (limit < len) }
        ensures err { IfErr result (λ why. why ≡ WireFault.TooLong len) }
    {
        if limit < len {
            return Err(WireFault::TooLong { len });
        }
        if len == 0 {
            return Ok(fresh(Stage::Done, at, limit));
        }
        Ok(fresh(Stage::Sized { more: len - 1 }, at, limit))
    }

    /// A body to the end of the device, behind a head of `at` bytes. It may have `limit` bytes.
    pub fn to_end(at: u64, limit: u64) -> Body
        ensures { IsFresh result Stage.ToEnd at limit }
    {
        fresh(Stage::ToEnd, at, limit)
    }

    /// How many bytes of the message came so far, where `2^64 - 1` may be more.
    pub fn so_far(&self) -> u64
        ensures value { result ≡ self.now.at }
        ensures in_range { result < 2 ^ 64 }
    {
        self.at
    }

    /// Whether the end of the body has come.
    pub fn is_over(&self) -> bool
        ensures done { result ≡ true → self.now.stage ≡ Stage.Done }
        ensures other { result ≡ false → self.now.stage ≢ Stage.Done }
    {
        is_done(self.stage)
    }

    /// Puts the next bytes of the body at the front of the buffer, and answers how many: 0 for a
    /// buffer that is not empty means the end of the body. `Failed`, `Malformed`, `Ended` and
    /// `TooLong` come as `WireFault` says, with places from the message's first byte, and then come
    /// again at each further call. It takes no memory.
    pub fn read<L: Source>(&mut self, link: &mut L, buf: &mut [u8]) -> Result<usize, WireFault>
        ensures ok { IfOk result (λ count.
            GaveOf (L.left link.old) self.old (take count buf.new) self.new (L.left link.new)) }
        ensures within { IfOk result (λ count. count ≤ length buf.new) }
        ensures end { IfOk result (λ count.
            count ≡ 0 → 0 < length buf.old → self.new.stage ≡ Stage.Done) }
        ensures err { IfErr result (λ why.
            LostOf (L.left link.old) self.old why self.new (L.left link.new)) }
        ensures again { IfSome self.old.kept (λ why.
            (result ≡ Err why) × (self.new ≡ self.old) × (link.new ≡ link.old)) }
        ensures over { self.old.kept ≡ None → self.old.stage ≡ Stage.Done
            → (result ≡ Ok 0) × (link.new ≡ link.old) }
        ensures sent { L.sent link.new ≡ L.sent link.old }
        ensures cause { self.old.kept ≡ None
            → FailsByDevice (L.faults link.old) (L.faults link.new) result }
    {
        if let Some(why) = self.kept {
            return Err(why);
        }
        match read_piece(link, self.stage, self.at, self.room, self.limit, buf) {
            Ok((count, stage, at)) => {
                self.stage = stage;
                self.at = at;
                self.room -= count as u64;
                Ok(count)
            }
            Err(why) => {
                self.kept = Some(why);
                Err(why)
            }
        }
    }
}
