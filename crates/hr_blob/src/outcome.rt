//! Why a blob is not copied. (Our own.)

use hr_adapter::RegFault;
use hr_digest::Digest;

/// An error of a call of a connection, with the count of faults just before the call and just after.
#[derive(Clone, Copy, Debug, PartialEq, Eq)]
pub struct Failing {
    pub fault: RegFault,
    pub before: u64,
    pub after: u64,
}

/// Why a blob is not copied: where the copy ended. Lengths are in bytes.
#[derive(Clone, Copy, Debug, PartialEq, Eq)]
pub enum NotCopied {
    /// The source lacks it. The destination was not asked.
    Gone,
    /// The source did not open it. The destination was not asked.
    Unopened(Failing),
    /// The destination did not begin to write.
    Unbegun(Failing),
    /// The source did not give all its bytes.
    Unread(Failing),
    /// The destination did not take a piece.
    Unwritten(Failing),
    /// So many bytes came, which is above `BLOB_LIMIT`.
    TooLong { len: u64 },
    /// What came has this digest, which is not the one that was asked for.
    Differs { got: Digest },
    /// What came has the digest and this length, which is not the one that was said.
    SizeDiffers { got: u64 },
    /// All came, of this length, and was written; the destination did not say that it is stored.
    Unsure { len: u64, failing: Failing },
}
