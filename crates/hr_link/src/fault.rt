//! Why a dial or a door gives no link. (Our own.)
ghost use Rattle.std.specs.Prelude.{◌≡◌, ◌↔◌, ◌<◌, ◌^◌};
ghost use Rattle.std.specs.IoError.{error_kind};
ghost use Rattle.hr_cause.specs.Calls.{counted};

use hr_base::Memory;
use hr_cause::Failed;
use std::io;
use std::io::ErrorKind;

/// Why a dial or a door gives no link.
#[derive(Clone, Copy, Debug, PartialEq, Eq)]
pub enum DialFault {
    /// It failed, and counted the fault.
    Failed,
    /// There was no room for a link.
    Memory,
}

impl From<Memory> for DialFault {
    ghost use Rattle.hr_link.specs.declared.fault.DialFault.{DialFault};

    ghost from_gives = { λ _ fault. fault ≡ DialFault.Memory };

    fn from(_: Memory) -> DialFault {
        DialFault::Memory
    }
}

impl From<Failed> for DialFault {
    ghost use Rattle.hr_link.specs.declared.fault.DialFault.{DialFault};

    ghost from_gives = { λ _ fault. fault ≡ DialFault.Failed };

    fn from(_: Failed) -> DialFault {
        DialFault::Failed
    }
}

/// Counts a fault, and answers it.
pub(crate) fn count_fault(faults: &mut u64) -> Failed
    ensures one_more { faults.new ≡ counted faults.old }
    ensures in_range { faults.old < 2 ^ 64 }
{
    *faults = faults.saturating_add(1);
    Failed
}

/// The fault that an error of the system is.
pub(crate) fn fault_of(why: io::Error) -> DialFault
    ensures { (result ≡ DialFault.Memory) ↔ (error_kind why ≡ ErrorKind.OutOfMemory) }
{
    match why.kind() {
        ErrorKind::OutOfMemory => DialFault::Memory,
        _ => DialFault::Failed,
    }
}
