//! Why an execution is not made. (Our own.)
ghost use Rattle.std.specs.Prelude.{◌≡◌};

use hr_base::Memory;
use std::alloc::AllocError;

/// Why an execution is not made.
#[derive(Clone, Copy, Debug, PartialEq, Eq)]
pub enum CreateRefused {
    /// The store may not make so many jobs more, or no execution. This is its number of jobs.
    Full { jobs: u32 },
    /// There was no room.
    Memory,
}

impl From<AllocError> for CreateRefused {
    ghost use Rattle.hr_store.specs.declared.refusal.CreateRefused.TheVariants as refused;

    ghost from_gives = { λ _ made. made ≡ refused.Memory };

    fn from(_: AllocError) -> CreateRefused {
        CreateRefused::Memory
    }
}

impl From<Memory> for CreateRefused {
    ghost use Rattle.hr_store.specs.declared.refusal.CreateRefused.TheVariants as refused;

    ghost from_gives = { λ _ made. made ≡ refused.Memory };

    fn from(_: Memory) -> CreateRefused {
        CreateRefused::Memory
    }
}
