//! Why a tree gives no answer. (Our own.)
ghost use Rattle.std.specs.Prelude.{◌≡◌};

use hr_base::Memory;
use hr_cause::Failed;

/// Why a tree gives no answer.
#[derive(Clone, Copy, Debug, PartialEq, Eq)]
pub enum TreeFault {
    /// It failed, and counted the fault.
    Failed,
    /// The file has `len` bytes, more than the limit of the call.
    TooLong { len: u64 },
    /// There was no room for the answer.
    Memory,
}

impl From<Memory> for TreeFault {
    ghost use Rattle.hr_tree.specs.declared.fault.TreeFault.{TreeFault};

    ghost from_gives = { λ _ fault. fault ≡ TreeFault.Memory };

    fn from(_: Memory) -> TreeFault {
        TreeFault::Memory
    }
}

impl From<Failed> for TreeFault {
    ghost use Rattle.hr_tree.specs.declared.fault.TreeFault.{TreeFault};

    ghost from_gives = { λ _ fault. fault ≡ TreeFault.Failed };

    fn from(_: Failed) -> TreeFault {
        TreeFault::Failed
    }
}
