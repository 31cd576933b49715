//! Why a policy has no plan. (Our own.)
ghost use Rattle.std.specs.Prelude.{◌≡◌};
ghost use Rattle.hr_plan.specs.Listing.{refused_by};

use hr_adapter::RegFault;
use hr_base::Memory;
use hr_name::Name;

/// Why a policy has no plan.
#[derive(Debug, Drop, PartialEq, Eq)]
pub enum PlanRefused {
    /// A call of the source failed: it had counted `before` faults just before it, and `after` just
    /// after.
    Fault { before: u64, after: u64 },
    /// The source has so many repositories, or so many tags in one of them, which is above the
    /// limit of a list.
    TooLong { len: u64 },
    /// This is the first picked repository, in byte order, whose name at the destination has more
    /// than `NAME_LIMIT` bytes.
    Dest { repo: Name },
    /// There was no memory for it.
    Memory,
}

impl From<Memory> for PlanRefused {
    ghost use Rattle.hr_plan.specs.declared.refusal.PlanRefused.{PlanRefused};

    ghost from_gives = { λ _ why. why ≡ PlanRefused.Memory };

    fn from(_: Memory) -> PlanRefused {
        PlanRefused::Memory
    }
}

/// Why there is no plan where a call answered that, between these counts of faults.
pub(crate) fn refused(fault: RegFault, before: u64, after: u64) -> PlanRefused
    ensures { result ≡ refused_by fault before after }
{
    match fault {
        RegFault::Failed => PlanRefused::Fault { before, after },
        RegFault::TooLong { len } => PlanRefused::TooLong { len },
        RegFault::Memory => PlanRefused::Memory,
    }
}
