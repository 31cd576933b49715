//! Sending a whole text to a device. (Our own.)
ghost use Rattle.std.specs.Prelude.{◌≡◌, OnErr, OnOk};
ghost use Rattle.hr_cause.specs.Stream.{FailsByFault, Took, TookFront};

use crate::{Failed, Sink};

/// Sends all of these bytes, in as many writes as the device needs. Where it fails, a front of them
/// was sent, and nothing more is tried.
pub fn send<K: Sink>(out: &mut K, bytes: &[u8]) -> Result<(), Failed>
    ensures ok { OnOk result (Took (K.sent out.old) bytes.now (K.sent out.new)) }
    ensures err { OnErr result (TookFront (K.sent out.old) bytes.now (K.sent out.new)) }
    ensures left { K.left out.new ≡ K.left out.old }
    ensures cause { FailsByFault (K.faults out.old) (K.faults out.new) result }
{
    let mut rest = bytes;
    while !rest.is_empty() {
        let count = out.write(rest)?;
        rest = &rest[count..];
    }
    Ok(())
}
