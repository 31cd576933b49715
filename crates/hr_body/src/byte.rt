//! One byte off a device. (Our own.)
ghost use Rattle.std.specs.Prelude.{◌≡◌, [], ◌∷◌, IfOk, OnErr, MatchOption};
ghost use Rattle.hr_cause.specs.Stream.{FailsByFault, Gave, IsEnded};

use hr_cause::{Failed, Source};

/// The next byte, or `None` at the end of the input.
pub fn read_byte<L: Source>(link: &mut L) -> Result<Option<u8>, Failed>
    ensures ok { IfOk result (λ found. MatchOption found
        (IsEnded (L.left link.old) × (L.left link.new ≡ L.left link.old))
        (λ byte. Gave (L.left link.old) (byte ∷ []) (L.left link.new))) }
    ensures err { OnErr result (L.left link.new ≡ L.left link.old) }
    ensures sent { L.sent link.new ≡ L.sent link.old }
    ensures cause { FailsByFault (L.faults link.old) (L.faults link.new) result }
{
    let mut buf = [0u8; 1];
    let count = link.read(&mut buf)?;
    if count == 0 {
        Ok(None)
    } else {
        Ok(Some(buf[0]))
    }
}
