//! Worked cases of a registry, for every kind of registry: each call's answer is compared with what
//! a registry of that content has to answer. Start with `run`.
ghost use Rattle.std.specs.Prelude.{◌≡◌};

mod blobs;
mod failing;
mod manifests;

use crate::{RegFault, Registry};
pub use blobs::run_blobs;
pub use failing::{OPERATIONS, run_failing};
use hr_base::Memory;
use hr_name::NameRefused;
use std::alloc::{AllocError, Global};

/// Why the cases ended early.
#[derive(Clone, Copy, Debug, PartialEq, Eq)]
pub enum Difference {
    /// Something else came of this case.
    At(&'static str),
    /// There was no room for the cases.
    Memory,
}

impl From<Memory> for Difference {
    ghost use Rattle.hr_adapter.specs.declared.cases.Difference.{Difference};

    ghost from_gives = { λ _ difference. difference ≡ Difference.Memory };

    fn from(_: Memory) -> Difference {
        Difference::Memory
    }
}

impl From<AllocError> for Difference {
    ghost use Rattle.hr_adapter.specs.declared.cases.Difference.{Difference};

    ghost from_gives = { λ _ difference. difference ≡ Difference.Memory };

    fn from(_: AllocError) -> Difference {
        Difference::Memory
    }
}

impl From<NameRefused> for Difference {
    ghost use Rattle.std.specs.Prelude.{⊤};

    ghost from_gives = { λ _ _. ⊤ };

    fn from(why: NameRefused) -> Difference {
        match why {
            NameRefused::Memory => Difference::Memory,
            NameRefused::Shape { .. } | NameRefused::TooLong { .. } => {
                Difference::At("a name of the cases is one")
            }
        }
    }
}

/// Runs all cases over a registry that was made for them: it holds nothing, takes manifests of any
/// bytes, never fails, and has ample memory.
pub fn run<R: Registry>(alloc: Global, registry: &mut R) -> Result<(), Difference> {
    manifests::run_manifests(alloc, registry)?;
    run_blobs(alloc, registry)
}

// Goes on where the answer of a case is the one that is wanted.
fn wants<T: PartialEq + Drop>(
    case: &'static str,
    came: Result<T, RegFault>,
    wanted: T,
) -> Result<(), Difference> {
    if came == Ok(wanted) {
        return Ok(());
    }
    Err(Difference::At(case))
}
