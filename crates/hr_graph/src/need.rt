//! What a walk needs to go on, what it is given, and why it refuses. (Our own.)
ghost use Rattle.std.specs.Prelude.{◌≡◌};
ghost use Rattle.hr_graph.specs.declared.need.WalkRefused.{WalkRefused};

use hr_base::Memory;
use hr_digest::Digest;
use hr_manifest::Manifest;
use std::alloc::{AllocError, AllocFailed};

/// What a walk needs to go on.
#[derive(Clone, Copy, Debug, PartialEq, Eq)]
pub enum Need {
    /// The manifest of this digest, to go through its children.
    Manifest(Digest),
    /// Whether the destination has this blob, and its length.
    HasBlob(Digest),
    /// The destination doesn't have this blob: it is to be copied.
    CopyBlob(Digest),
    /// All that this manifest lists is finished: it is to be put.
    PutManifest(Digest),
    /// Nothing: the manifest that the walk began with was put.
    Done,
}

/// The answer to a need.
#[derive(Debug, Drop)]
pub enum Given {
    /// The manifest that was asked for.
    Manifest(Manifest),
    /// The length in bytes of the blob at the destination, or `None` where it isn't there.
    Found { len: Option<u64> },
    /// The blob was copied, and has this length in bytes.
    Copied { len: u64 },
    /// The manifest was put.
    Put,
}

/// Why a walk goes no further. Of one child, too deep comes first, then too many, then its size.
#[derive(Clone, Copy, Debug, PartialEq, Eq)]
pub enum WalkRefused {
    /// This manifest would stand more than `DEPTH_LIMIT` levels below the root, or something below
    /// it would, or it leads back to itself.
    TooDeep { digest: Digest },
    /// One more pair of kind and digest than `PAIR_LIMIT` was met: `count` is their number.
    TooMany { count: u64 },
    /// The content of this child has `got` bytes, and its descriptor says another size.
    SizeDiffers { digest: Digest, said: u64, got: u64 },
    /// There was no memory.
    Memory,
}

impl From<Memory> for WalkRefused {
    ghost from_gives = { λ _ made. made ≡ WalkRefused.Memory };

    fn from(_: Memory) -> WalkRefused {
        WalkRefused::Memory
    }
}

impl From<AllocError> for WalkRefused {
    ghost from_gives = { λ _ made. made ≡ WalkRefused.Memory };

    fn from(_: AllocError) -> WalkRefused {
        WalkRefused::Memory
    }
}

impl<T: Drop> From<AllocFailed<T>> for WalkRefused {
    ghost from_gives = { λ _ made. made ≡ WalkRefused.Memory };

    fn from(_: AllocFailed<T>) -> WalkRefused {
        WalkRefused::Memory
    }
}
