//! Why a revision ends with an error. (Our own.)
ghost use Rattle.std.specs.Prelude.{◌≡◌, IfOk, Some, None};

use crate::Reference;
use hr_base::{Memory, RegNo};
use hr_digest::Digest;
use std::alloc::Global;

/// Why a revision ended with an error. Lengths and sizes are in bytes.
#[derive(Debug, Drop, PartialEq, Eq)]
pub enum Cause {
    /// The connection to a registry failed: its count of faults rose from one number to another.
    Fault { reg: RegNo, before: u64, after: u64 },
    /// What came for one digest has another.
    Differs { asked: Digest, got: Digest },
    /// The content of a digest has another length than the descriptor said.
    SizeDiffers { digest: Digest, said: u64, got: u64 },
    /// The source lacks what the reference names.
    Gone { reference: Reference },
    /// The manifest of this digest is of no kind that is read.
    Unreadable { digest: Digest },
    /// A manifest stands too deep below the tag's.
    TooDeep { digest: Digest },
    /// There are so many children of one manifest, or pieces below one tag, which is too many.
    TooMany { count: u64 },
    /// A manifest or a blob is longer than it may be.
    TooLong { len: u64 },
    /// There was no room.
    Memory,
}

impl Cause {
    /// An equal value.
    pub fn copy(&self, alloc: Global) -> Result<Cause, Memory>
        ensures { IfOk result (λ made. made ≡ self.now) }
    {
        match self {
            Cause::Fault { reg, before, after } => Ok(Cause::Fault {
                reg: *reg,
                before: *before,
                after: *after,
            }),
            Cause::Differs { asked, got } => Ok(Cause::Differs {
                asked: *asked,
                got: *got,
            }),
            Cause::SizeDiffers { digest, said, got } => Ok(Cause::SizeDiffers {
                digest: *digest,
                said: *said,
                got: *got,
            }),
            Cause::Gone { reference } => Ok(Cause::Gone {
                reference: reference.copy(alloc)?,
            }),
            Cause::Unreadable { digest } => Ok(Cause::Unreadable { digest: *digest }),
            Cause::TooDeep { digest } => Ok(Cause::TooDeep { digest: *digest }),
            Cause::TooMany { count } => Ok(Cause::TooMany { count: *count }),
            Cause::TooLong { len } => Ok(Cause::TooLong { len: *len }),
            Cause::Memory => Ok(Cause::Memory),
        }
    }
}

/// An equal cause, where there is one.
pub(crate) fn copy_cause(alloc: Global, cause: &Option<Cause>) -> Result<Option<Cause>, Memory>
    ensures { IfOk result (λ made. made ≡ cause.now) }
{
    match cause {
        Some(cause) => Ok(Some(cause.copy(alloc)?)),
        None => Ok(None),
    }
}
