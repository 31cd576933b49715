//! What contracts know of a device: how often it failed, and, where it tells, the bytes that are
//! left to come and those that it was sent. (Our own.)
ghost use Rattle.std.specs.Prelude.{◌≡◌, ℕ, Option, IfOk, OnErr};
ghost use Rattle.hr_base.specs.Bytes.{ByteList};
ghost use Rattle.hr_cause.specs.Stream.{Reads, Writes, FailsByFault};

/// The device failed. It counted the fault, and the call took and gave no byte.
#[derive(Clone, Copy, Debug, PartialEq, Eq)]
pub struct Failed;

/// An object of the outside world, with a count of its faults.
pub trait Counted: Drop {
    /// How often it has failed: 0 when it is made, never less than before, and at most `2^64 - 1`,
    /// where it stays.
    ghost faults: { Self → ℕ };

    /// How often it has failed. It is no call of the device, and costs nothing.
    fn faults(&self) -> u64
        ensures { result ≡ faults self.now };
}

/// A device of bytes: those that come from it, those that go to it, or both.
pub trait Stream: Counted {
    /// The bytes that are left to come, where it tells.
    ghost left: { Self → Option ByteList };

    /// The bytes that it was sent, where it tells.
    ghost sent: { Self → Option ByteList };
}

/// A device that bytes come from.
pub trait Source: Stream {
    /// Puts the next bytes at the front of the buffer, and answers how many it put there: 0 for a
    /// buffer that is not empty means the end of the input. The rest of the buffer may change.
    fn read(&mut self, buf: &mut [u8]) -> Result<usize, Failed>
        ensures ok { IfOk result (λ count. Reads (Self.left self.old) buf.new count (Self.left self.new)) }
        ensures err { OnErr result (Self.left self.new ≡ Self.left self.old) }
        ensures sent { Self.sent self.new ≡ Self.sent self.old }
        ensures cause { FailsByFault (Self.faults self.old) (Self.faults self.new) result };
}

/// A device that bytes go to.
pub trait Sink: Stream {
    /// Sends a front of the bytes, and answers how many it sent: at least one of a piece that is
    /// not empty.
    fn write(&mut self, bytes: &[u8]) -> Result<usize, Failed>
        ensures ok { IfOk result (λ count. Writes (Self.sent self.old) bytes.now count (Self.sent self.new)) }
        ensures err { OnErr result (Self.sent self.new ≡ Self.sent self.old) }
        ensures left { Self.left self.new ≡ Self.left self.old }
        ensures cause { FailsByFault (Self.faults self.old) (Self.faults self.new) result };
}
