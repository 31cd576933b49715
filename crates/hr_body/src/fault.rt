//! Why a message of HTTP/1.1 is not read or written (RFC 9112).
ghost use Rattle.std.specs.Prelude.{◌≡◌};
ghost use Rattle.hr_body.specs.declared.fault.WireFault.TheVariants.{Failed, Memory};

use hr_cause::Failed;
use std::alloc::{AllocError, AllocFailed};

/// Why a message is not read or written. Places and lengths are in bytes, and stay at `2^64 - 1`.
#[derive(Clone, Copy, Debug, PartialEq, Eq)]
pub enum WireFault {
    /// The device failed.
    Failed,
    /// No continuation of the message's first `at` bytes is a message.
    Malformed { at: u64 },
    /// The device ended after the message's first `at` bytes, and more had to come.
    Ended { at: u64 },
    /// A head or a body has more bytes than its limit: `len` where that was announced, or else at
    /// least `len`, which is one more than the limit.
    TooLong { len: u64 },
    /// There was no room for the bytes.
    Memory,
}

impl From<AllocError> for WireFault {
    ghost from_gives = { λ _ why. why ≡ Memory };

    fn from(_: AllocError) -> WireFault {
        WireFault::Memory
    }
}

impl<T: Drop> From<AllocFailed<T>> for WireFault {
    ghost from_gives = { λ _ why. why ≡ Memory };

    fn from(_: AllocFailed<T>) -> WireFault {
        WireFault::Memory
    }
}

impl From<hr_base::Memory> for WireFault {
    ghost from_gives = { λ _ why. why ≡ Memory };

    fn from(_: hr_base::Memory) -> WireFault {
        WireFault::Memory
    }
}

impl From<Failed> for WireFault {
    ghost from_gives = { λ _ why. why ≡ Failed };

    fn from(_: Failed) -> WireFault {
        WireFault::Failed
    }
}
