//! Taking the bytes of a head off a device. (Our own.)
ghost use Rattle.std.specs.Prelude.{◌≡◌, ◌⊎◌, MatchOption, IfOk, IfErr};
ghost use Rattle.hr_body.specs.Fault.{FailsByDevice};
ghost use Rattle.hr_cause.specs.Stream.{IsEnded};
ghost use Rattle.hr_head.specs.Ending.{IsTaken};

use crate::ending::Ending;
use hr_body::{WireFault, read_byte};
use hr_cause::Source;

/// Takes a byte off the device and puts it behind the others, which end in this: what they end in
/// then, or `None` where the device ended.
pub(crate) fn take_byte<L: Source>(
    link: &mut L,
    buf: &mut Vec<u8>,
    ending: Ending,
) -> Result<Option<Ending>, WireFault>
    ensures ok { IfOk result (λ next. MatchOption next
        (IsEnded (L.left link.old) × (L.left link.new ≡ L.left link.old) × (buf.new ≡ buf.old))
        (λ now.
        IsTaken (L.left link.old) buf.old.items ending (L.left link.new) buf.new.items now)) }
    ensures err { IfErr result (λ why. (why ≡ WireFault.Failed) ⊎ (why ≡ WireFault.Memory)) }
    ensures sent { L.sent link.new ≡ L.sent link.old }
    ensures cause { FailsByDevice (L.faults link.old) (L.faults link.new) result }
{
    let Some(byte) = read_byte(link)? else {
        return Ok(None);
    };
    buf.push(byte)?;
    Ok(Some(ending.after(byte)))
}
