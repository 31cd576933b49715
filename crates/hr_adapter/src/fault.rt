//! Why a registry gives no answer. (Our own.)
ghost use Rattle.std.specs.Prelude.{◌≡◌};

use hr_base::Memory;

/// Why a registry gives no answer.
#[derive(Clone, Copy, Debug, PartialEq, Eq)]
pub enum RegFault {
    /// It failed, and counted the fault.
    Failed,
    /// A manifest, a blob (in bytes) or a list (in items) is so long, which is above its limit.
    TooLong { len: u64 },
    /// There was no room for the answer.
    Memory,
}

impl From<Memory> for RegFault {
    ghost use Rattle.hr_adapter.specs.declared.fault.RegFault.{RegFault};

    ghost from_gives = { λ _ fault. fault ≡ RegFault.Memory };

    fn from(_: Memory) -> RegFault {
        RegFault::Memory
    }
}
