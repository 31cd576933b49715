//! Interim replies, which are passed over (RFC 9110, section 15.2), and the head behind them.
ghost use Rattle.std.specs.Prelude.{◌≡◌, ◌≤◌, ◌+◌, ◌*◌, Bool, ℕ, IfOk, IfErr, IfSome};
ghost use Rattle.hr_body.specs.Fault.{FailsByDevice};
ghost use Rattle.hr_body.specs.Reading.{WhereTold};
ghost use Rattle.hr_head.specs.declared.field.TheConstants.{HEAD_LIMIT};
ghost use Rattle.hr_head.specs.Reply.{IsReplyHead};
ghost use Rattle.hr_http1.specs.declared.passing.TheConstants.{INTERIM_LIMIT};
ghost use Rattle.hr_http1.specs.Reply.{fault_behind, is_interim, HasHeads, IsLostBehind, ReplyLost};

use hr_body::WireFault;
use hr_cause::Source;
use hr_head::{ReplyHead, read_reply_head};
use std::alloc::Global;

/// How many interim replies are passed over at most. (Our own.)
pub const INTERIM_LIMIT: u64 = 8;

// Whether a status is that of an interim reply.
fn is_interim(status: u16) -> bool
    ensures { result ≡ is_interim status }
{
    matches!(status, 100..=199)
}

// The same fault, with its place from the message's first byte, where so many bytes came before.
fn behind(at: u64, why: WireFault) -> WireFault
    ensures { result ≡ fault_behind at why }
{
    match why {
        WireFault::Malformed { at: place } => WireFault::Malformed {
            at: at.saturating_add(place),
        },
        WireFault::Ended { at: place } => WireFault::Ended {
            at: at.saturating_add(place),
        },
        other => other,
    }
}

// The next head, behind so many bytes of the message.
fn read_next_head<L: Source>(alloc: Global, link: &mut L, at: u64) -> Result<ReplyHead, WireFault>
    ensures ok { IfOk result (λ head. WhereTold (L.left link.old) (L.left link.new)
        (λ bytes rest. IsReplyHead bytes head rest)) }
    ensures len { IfOk result (λ head. head.len ≤ HEAD_LIMIT) }
    ensures err { IfErr result (λ why.
        IfSome (L.left link.old) (λ bytes. IsLostBehind at bytes why)) }
    ensures sent { L.sent link.new ≡ L.sent link.old }
    ensures cause { FailsByDevice (L.faults link.old) (L.faults link.new) result }
{
    match read_reply_head(alloc, link) {
        Ok(head) => Ok(head),
        Err(why) => Err(behind(at, why)),
    }
}

/// The first head whose status is not 100 to 199, and how many bytes it has with those before it.
/// The ninth head with such a status is `Malformed` at its end.
pub(crate) fn read_last_head<L: Source>(
    alloc: Global,
    link: &mut L,
) -> Result<(ReplyHead, u64), WireFault>
    ensures ok { IfOk result (λ found. WhereTold (L.left link.old) (L.left link.new)
        (λ bytes rest. HasHeads bytes found.0 found.1 rest)) }
    ensures len { IfOk result (λ found. found.1 ≤ (INTERIM_LIMIT + 1) * HEAD_LIMIT) }
    ensures err { IfErr result (λ why. (head_only : Bool) (limit : ℕ)
        → IfSome (L.left link.old) (λ bytes. ReplyLost head_only limit bytes why)) }
    ensures sent { L.sent link.new ≡ L.sent link.old }
    ensures cause { FailsByDevice (L.faults link.old) (L.faults link.new) result }
{
    let mut at = 0;
    let mut passed = 0;
    'heads: while passed <= INTERIM_LIMIT {
        let head = read_next_head(alloc, link, at)?;
        at += head.len as u64;
        if !is_interim(head.status) {
            return Ok((head, at));
        }
        passed += 1;
    }
    Err(WireFault::Malformed { at })
}
