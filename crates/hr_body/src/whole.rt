//! Bodies that are read whole. (Our own.)
ghost use Rattle.std.specs.Prelude.{◌≡◌, ◌≢◌, ◌≤◌, length, None, IfOk, IfErr, IfSome};
ghost use Rattle.hr_base.specs.Bytes.{ByteList};
ghost use Rattle.hr_body.specs.Chunked.{IsChunked};
ghost use Rattle.hr_body.specs.Fault.{FailsByDevice};
ghost use Rattle.hr_body.specs.Leading.{HoldsBody};
ghost use Rattle.hr_body.specs.Reading.{BrokeOff, GaveOf, HeldNone, WhereTold};

use crate::{Body, WireFault};
use hr_cause::Source;
use std::alloc::Global;

// How many bytes of a body move at once at most.
const PART: usize = 4096;

/// All that is left of a body of which no read gave a fault. `Memory` comes where there is no room
/// for its bytes, and the other faults as `Body::read` says.
pub fn read_whole<L: Source>(
    alloc: Global,
    link: &mut L,
    body: &mut Body,
) -> Result<Vec<u8>, WireFault>
    requires { body.old.kept ≡ None }
    ensures ok { IfOk result (λ all.
        GaveOf (L.left link.old) body.old all.items body.new (L.left link.new)) }
    ensures held { IfOk result (λ all. WhereTold (L.left link.old) (L.left link.new)
        (λ bytes rest. HoldsBody body.old.stage bytes all.items rest)) }
    ensures err { IfErr result (λ why. why ≢ WireFault.Memory
        → BrokeOff (L.left link.old) body.old.stage body.old.at body.old.room body.old.limit why
        (L.left link.new)) }
    ensures none { IfErr result (λ why. why ≢ WireFault.Memory → why ≢ WireFault.Failed
        → HeldNone (L.left link.old) body.old.stage body.old.room) }
    ensures sent { L.sent link.new ≡ L.sent link.old }
    ensures cause { FailsByDevice (L.faults link.old) (L.faults link.new) result }
{
    let _in_range = body.so_far();
    let mut all = Vec::new(alloc);
    let mut buf = [0u8; PART];
    'pieces: while !body.is_over() {
        let count = body.read(link, &mut buf)?;
        all.extend_from_slice(&buf[..count])?;
    }
    Ok(all)
}

/// A chunked body of at most `limit` bytes, behind a head of `at` bytes (RFC 9112, section 7.1).
/// The faults come as at `read_whole`.
pub fn read_chunked<L: Source>(
    alloc: Global,
    link: &mut L,
    at: u64,
    limit: u64,
) -> Result<Vec<u8>, WireFault>
    ensures ok { IfOk result (λ all. WhereTold (L.left link.old) (L.left link.new)
        (λ bytes rest. IsChunked bytes all.items rest)) }
    ensures within { IfOk result (λ all. length all.items ≤ limit) }
    ensures none { IfErr result (λ why. why ≢ WireFault.Memory → why ≢ WireFault.Failed
        → IfSome (L.left link.old) (λ bytes. (body rest : ByteList)
        → IsChunked bytes body rest → length body ≤ limit → ⊥)) }
    ensures sent { L.sent link.new ≡ L.sent link.old }
    ensures cause { FailsByDevice (L.faults link.old) (L.faults link.new) result }
{
    let mut body = Body::chunked(at, limit);
    match read_whole(alloc, link, &mut body) {
        Ok(all) => Ok(all),
        Err(why) => Err(why),
    }
}
